//! What normal forms promise. Each function does nothing: its contract is the law.

ghost use Rattle.normaliser.specs.Laws.{NextStepIsInnermost};
ghost use Rattle.normaliser.specs.Laws.{NoNextStepWhereNormal};
ghost use Rattle.normaliser.specs.Laws.{InnermostStepIsDetermined};
ghost use Rattle.normaliser.specs.Laws.{NormalFormMeetsTheSteps};
ghost use Rattle.normaliser.specs.Laws.{PartsFirstAgrees};
ghost use Rattle.normaliser.specs.Laws.{SelectedRulesKeepTyping};
ghost use Rattle.normaliser.specs.Laws.{KeptFormsStay};

/// The next step of a well typed formula is the leftmost innermost one.
#[tactic(auto, using(crate::proofs::Promises::next_step_is_innermost))]
pub fn next_step_is_innermost()
    ensures { NextStepIsInnermost }
{}

/// A well typed formula has no next step exactly where it is normal.
#[tactic(auto, using(crate::proofs::Promises::no_next_step_where_normal))]
pub fn no_next_step_where_normal()
    ensures { NoNextStepWhereNormal }
{}

/// A well typed formula has one leftmost innermost step at most.
#[tactic(auto, using(crate::proofs::Promises::innermost_step_is_determined))]
pub fn innermost_step_is_determined()
    ensures { InnermostStepIsDetermined }
{}

/// The answer step by step is the one that the relation of steps has, and the only one.
#[tactic(auto, using(crate::proofs::Promises::normal_form_meets_the_steps))]
pub fn normal_form_meets_the_steps()
    ensures { NormalFormMeetsTheSteps }
{}

/// Part by part, the parts before the whole, the answer is the same.
#[tactic(auto, using(crate::proofs::Promises::parts_first_agrees))]
pub fn parts_first_agrees()
    ensures { PartsFirstAgrees }
{}

/// The rules of a selection of a typed problem are usable, and their steps keep formulas well typed.
#[tactic(auto, using(crate::proofs::Promises::selected_rules_keep_typing))]
pub fn selected_rules_keep_typing()
    ensures { SelectedRulesKeepTyping }
{}

/// What a normaliser keeps stays right while the store grows.
#[tactic(auto, using(crate::proofs::Promises::kept_forms_stay))]
pub fn kept_forms_stay()
    ensures { KeptFormsStay }
{}
