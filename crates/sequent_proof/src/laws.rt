//! What derivations promise. Each function does nothing: its contract is the law.

ghost use Rattle.sequent_proof.specs.Laws.{DerivationsDerive, ConversionsAreNotPrinted};
ghost use Rattle.sequent_proof.specs.Laws.{EachFormulaImpliesItself, DisjunctionIsIdempotent};

/// A derivation derives: the sequent at its root has a derivation in the calculus.
#[tactic(auto, using(crate::proofs::Derives::derivations_derive))]
pub fn derivations_derive()
    ensures { DerivationsDerive }
{}

/// A conversion has no line, and its child stands no further in.
#[tactic(auto, using(crate::proofs::Layers::conversions_are_not_printed))]
pub fn conversions_are_not_printed()
    ensures { ConversionsAreNotPrinted }
{}

/// Each formula implies itself, by the derivation that prints `not-imp` and `axiom`.
pub fn each_formula_implies_itself()
    ensures { EachFormulaImpliesItself }
{}

/// `p | p` implies `p`, by a derivation with two branches.
pub fn disjunction_is_idempotent()
    ensures { DisjunctionIsIdempotent }
{}
