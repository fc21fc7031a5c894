//! What the proof terms of derivations promise. Each function does no more than name the laws that its own stands on: its
//! contract is the law.

ghost use Rattle.lp_translation.specs.Laws.{TypingIsPreserved, GoalFilesAreMade, GoalFilesAreWellFormed};
ghost use Rattle.lp_translation.specs.Worked.{IdentityIsDerived, IdentityIsWritten, IdentityHasAGoalFile};

/// For every derivation of a typed problem's kept premises and negated conjecture modulo the selected rules, the goal's body
/// has the type of the conjecture's proofs.
pub fn typing_is_preserved()
    ensures { TypingIsPreserved }
{
    rule_select::laws::selected_rules_are_sound();
    rule_select::laws::steps_keep_typing();
    lp_signature::typed_laws::signatures_are_well_formed();
}

/// The signature with the goal is a goal file of the problem.
pub fn goal_files_are_made()
    ensures { GoalFilesAreMade }
{
    rule_select::laws::selected_rules_are_sound();
    rule_select::laws::steps_keep_typing();
    lp_signature::typed_laws::signatures_are_well_formed();
}

/// Each entry of a goal file is well formed after those before it.
pub fn goal_files_are_well_formed()
    ensures { GoalFilesAreWellFormed }
{
    rule_select::laws::selected_rules_are_sound();
    rule_select::laws::steps_keep_typing();
    lp_signature::typed_laws::signatures_are_well_formed();
}

/// The tree of `p => p` is a derivation.
#[tactic(auto, using(crate::proofs::Worked::identity_is_derived))]
pub fn identity_is_derived()
    ensures { IdentityIsDerived }
{}

/// Its goal's body is `nnpp (imp p p) (h : prf (not (imp p p)) => h (x : prf p => nnpp p (k : prf (not p) => k x)))`.
#[tactic(auto, using(crate::proofs::Worked::identity_is_written))]
pub fn identity_is_written()
    ensures { IdentityIsWritten }
{}

/// With it the problem has a goal file.
pub fn identity_has_a_goal_file()
    ensures { IdentityHasAGoalFile }
{
    rule_select::laws::selected_rules_are_sound();
    rule_select::laws::steps_keep_typing();
    lp_signature::typed_laws::signatures_are_well_formed();
}
