//! What the definitions promise of one another. Each function does nothing: its contract is the law.

ghost use Rattle.equality_rules.specs.Laws.{TypingIsTested};

/// The test of types, by which instances are chosen, decides whether a term is well typed and has a type.
#[tactic(auto, using(crate::proofs::Heads::typing_is_tested))]
pub fn typing_is_tested()
    ensures { TypingIsTested }
{}
