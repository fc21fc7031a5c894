//! What the definitions promise. Each function does nothing: its contract is the law.

ghost use Rattle.dk_checker.specs.Laws.{AcceptedIsWellFormed, NothingIsUnbound, DefinitionIsAccepted, RuleHeadIsRefused, ElementIsNoProduct};
ghost use Rattle.dk_checker.specs.Laws.{ElementIsNoType, TypeIsNoElement, KindIsNoBody, LoopIsSpent, RepeatedVariableIsMatched};

/// An accepted file is well formed.
#[tactic(auto, using(crate::proofs::Files::accepted_is_well_formed))]
pub fn accepted_is_well_formed()
    ensures { AcceptedIsWellFormed }
{}

/// The check of a file stops at no name or variable without a type.
#[tactic(auto, using(crate::proofs::Unbound::nothing_is_unbound))]
pub fn nothing_is_unbound()
    ensures { NothingIsUnbound }
{}

/// A definition whose body has its type is accepted.
#[tactic(auto, using(crate::proofs::Rows::definition_is_accepted))]
pub fn definition_is_accepted()
    ensures { DefinitionIsAccepted }
{}

/// A rule for a constant that wasn't declared by `def` is refused.
#[tactic(auto, using(crate::proofs::Rows::rule_head_is_refused))]
pub fn rule_head_is_refused()
    ensures { RuleHeadIsRefused }
{}

/// An applied element of a type without products is refused.
#[tactic(auto, using(crate::proofs::Rows::element_is_no_product))]
pub fn element_is_no_product()
    ensures { ElementIsNoProduct }
{}

/// An element that stands as a type is refused.
#[tactic(auto, using(crate::proofs::Rows::element_is_no_type))]
pub fn element_is_no_type()
    ensures { ElementIsNoType }
{}

/// Type that stands as an element is refused.
#[tactic(auto, using(crate::proofs::Rows::type_is_no_element))]
pub fn type_is_no_element()
    ensures { TypeIsNoElement }
{}

/// An abstraction whose body is Type is refused.
#[tactic(auto, using(crate::proofs::Rows::kind_is_no_body))]
pub fn kind_is_no_body()
    ensures { KindIsNoBody }
{}

/// A type with a loop of reductions is spent.
#[tactic(auto, using(crate::proofs::Rows::loop_is_spent))]
pub fn loop_is_spent()
    ensures { LoopIsSpent }
{}

/// A rule whose variable stands twice on the left is applied.
#[tactic(auto, using(crate::proofs::Rows::repeated_variable_is_matched))]
pub fn repeated_variable_is_matched()
    ensures { RepeatedVariableIsMatched }
{}
