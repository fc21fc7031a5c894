//! What the definition of a tableau's derivation promises. Each function does nothing: its contract is the law.

ghost use Rattle.pruning.specs.Laws.{ClosedTableauxAreDerivations, EndSequentsAreGiven, DerivationsAreShallow};

/// A tableau without an Open leaf gives a derivation in the sequent calculus modulo the rules, pruned or not.
#[tactic(auto, using(crate::proofs::Root::closed_tableaux_are_derivations))]
pub fn closed_tableaux_are_derivations()
    ensures { ClosedTableauxAreDerivations }
{}

/// What it derives is what the tableau was begun with.
#[tactic(auto, using(crate::proofs::Root::end_sequents_are_given))]
pub fn end_sequents_are_given()
    ensures { EndSequentsAreGiven }
{}

/// Without rules no branch of it has more than 513 nodes.
#[tactic(auto, using(crate::proofs::Depth::derivations_are_shallow))]
pub fn derivations_are_shallow()
    ensures { DerivationsAreShallow }
{}
