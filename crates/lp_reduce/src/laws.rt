//! What the definitions promise of one another. Each function does nothing: its contract is the law.

ghost use Rattle.lp_reduce.specs.Laws.{StepsAreReductions, NormalFormsConvert, NormalFormsAreReached, NoneIsMoreSteps};

/// The next step of a term is a reduction.
#[tactic(auto, using(crate::proofs::Promises::steps_are_reductions))]
pub fn steps_are_reductions()
    ensures { StepsAreReductions }
{}

/// A term converts to its normal form.
#[tactic(auto, using(crate::proofs::Promises::normal_forms_convert))]
pub fn normal_forms_convert()
    ensures { NormalFormsConvert }
{}

/// A normal form is reached by exactly its number of steps and has no next step.
#[tactic(auto, using(crate::proofs::Promises::normal_forms_are_reached))]
pub fn normal_forms_are_reached()
    ensures { NormalFormsAreReached }
{}

/// There is no normal form within the limit exactly where more steps can be made.
#[tactic(auto, using(crate::proofs::Promises::none_is_more_steps))]
pub fn none_is_more_steps()
    ensures { NoneIsMoreSteps }
{}
