//! What the definitions promise of one another. Each function does nothing: its contract is the law.

ghost use Rattle.zm_logic.specs.Laws.{SameTypesAreEqual, SameTermsAreEqual, SameFormsAreEqual};
ghost use Rattle.zm_logic.specs.Laws.{HasIsMembership, ClosingUndoesOpeningAtTerm, ClosingUndoesOpeningAtType};
ghost use Rattle.zm_logic.specs.Laws.{InstancesAreWellTyped, TypeInstancesAreWellTyped, WellTypedFormsAreClosed};
ghost use Rattle.zm_logic.specs.Laws.{WeakeningIsAdmissible, ContradictionsAreRefuted, PeirceIsDerived};
ghost use Rattle.zm_logic.specs.Laws.{DrinkerIsDerived, DrinkerOverTypesIsDerived, TypeQuantifiersAreDual};
ghost use Rattle.zm_logic.specs.Laws.{SymmetryIsDerived, TransitivityIsDerived};
ghost use Rattle.zm_logic.specs.Laws.{CongruenceWithoutRulesIsEquality, CongruenceIsSymmetric, CongruenceIsTransitive};
ghost use Rattle.zm_logic.specs.Laws.{InnermostStepsAreSteps, InnermostEndsInNormalForms};
ghost use Rattle.zm_logic.specs.Laws.{RefutedFormsAreNotAllTrue, RefutedFormsAreNotAllTrueInTerms, NothingIsNotRefuted};
ghost use Rattle.zm_logic.specs.Laws.{FalsifiedProblemsAreNotRefuted, AtomsAreNotRefuted, RulesMakeCongruent, RulesRefute};

/// The test of sameness of types decides equality.
#[tactic(auto, using(crate::proofs::Sames::types_decided))]
pub fn same_types_are_equal()
    ensures { SameTypesAreEqual }
{}

/// The test of sameness of terms decides equality.
#[tactic(auto, using(crate::proofs::Sames::terms_decided))]
pub fn same_terms_are_equal()
    ensures { SameTermsAreEqual }
{}

/// The test of sameness of formulas decides equality.
#[tactic(auto, using(crate::proofs::Sames::forms_decided))]
pub fn same_forms_are_equal()
    ensures { SameFormsAreEqual }
{}

/// The test of membership decides whether a list contains a formula.
#[tactic(auto, using(crate::proofs::Sames::membership_decided))]
pub fn has_is_membership()
    ensures { HasIsMembership }
{}

/// Closing on a fresh number undoes opening at its epsilon term.
#[tactic(auto, using(crate::proofs::Opened::undone_at_term))]
pub fn closing_undoes_opening_at_term()
    ensures { ClosingUndoesOpeningAtTerm }
{}

/// Closing on a fresh number undoes opening at its type parameter.
#[tactic(auto, using(crate::proofs::Opened::undone_at_type))]
pub fn closing_undoes_opening_at_type()
    ensures { ClosingUndoesOpeningAtType }
{}

/// A well typed quantified formula is well typed at each term of the binder's type.
#[tactic(auto, using(crate::proofs::Instance::instances))]
pub fn instances_are_well_typed()
    ensures { InstancesAreWellTyped }
{}

/// A well typed formula that is quantified over types is well typed at each type.
#[tactic(auto, using(crate::proofs::Instance::type_instances))]
pub fn type_instances_are_well_typed()
    ensures { TypeInstancesAreWellTyped }
{}

/// A well typed formula has no loose index.
#[tactic(auto, using(crate::proofs::ClosedForm::forms_are_closed))]
pub fn well_typed_forms_are_closed()
    ensures { WellTypedFormsAreClosed }
{}

/// What is refuted stays refuted with more formulas, where the rules have no parameter.
#[tactic(auto, using(crate::proofs::Weakening::weakening))]
pub fn weakening_is_admissible()
    ensures { WeakeningIsAdmissible }
{}

/// A formula and its negation are refuted together.
#[tactic(auto, using(crate::proofs::Examples::contradictions))]
pub fn contradictions_are_refuted()
    ensures { ContradictionsAreRefuted }
{}

/// Peirce's formula has a derivation.
#[tactic(auto, using(crate::proofs::Examples::peirce))]
pub fn peirce_is_derived()
    ensures { PeirceIsDerived }
{}

/// The drinker's formula has a derivation.
#[tactic(auto, using(crate::proofs::Examples::drinkers))]
pub fn drinker_is_derived()
    ensures { DrinkerIsDerived }
{}

/// The drinker's formula over types has a derivation.
#[tactic(auto, using(crate::proofs::Examples::drinkers_over_types))]
pub fn drinker_over_types_is_derived()
    ensures { DrinkerOverTypesIsDerived }
{}

/// That a formula holds at some type is derived to be equivalent to its denial not holding at all types.
#[tactic(auto, using(crate::proofs::Examples::type_quantifiers_dual))]
pub fn type_quantifiers_are_dual()
    ensures { TypeQuantifiersAreDual }
{}

/// Equality is symmetric.
#[tactic(auto, using(crate::proofs::Examples::symmetry))]
pub fn symmetry_is_derived()
    ensures { SymmetryIsDerived }
{}

/// Equality is transitive.
#[tactic(auto, using(crate::proofs::Examples::transitivity))]
pub fn transitivity_is_derived()
    ensures { TransitivityIsDerived }
{}

/// With no rules a formula is congruent to itself alone.
#[tactic(auto, using(crate::proofs::Identity::without_rules))]
pub fn congruence_without_rules_is_equality()
    ensures { CongruenceWithoutRulesIsEquality }
{}

/// Congruence is symmetric.
#[tactic(auto, using(crate::proofs::Identity::symmetric))]
pub fn congruence_is_symmetric()
    ensures { CongruenceIsSymmetric }
{}

/// Congruence is transitive.
#[tactic(auto, using(crate::proofs::Identity::transitive))]
pub fn congruence_is_transitive()
    ensures { CongruenceIsTransitive }
{}

/// A leftmost innermost step is a step.
#[tactic(auto, using(crate::proofs::Innermost::innermost_is_a_step))]
pub fn innermost_steps_are_steps()
    ensures { InnermostStepsAreSteps }
{}

/// What innermost steps end in has no step.
#[tactic(auto, using(crate::proofs::Innermost::innermost_ends))]
pub fn innermost_ends_in_normal_forms()
    ensures { InnermostEndsInNormalForms }
{}

/// Soundness for truth tables: no valuation makes all formulas of a refuted sequent true, where there are no rules, no quantifiers and no equalities.
pub fn refuted_forms_are_not_all_true()
    ensures { RefutedFormsAreNotAllTrue }
{}

/// The same with equality, read as equality of terms as trees.
pub fn refuted_forms_are_not_all_true_in_terms()
    ensures { RefutedFormsAreNotAllTrueInTerms }
{}

/// A problem without quantifiers and equality that a valuation falsifies isn't proved with no rules.
pub fn falsified_problems_are_not_refuted()
    ensures { FalsifiedProblemsAreNotRefuted }
{}

/// With no rules the empty sequent has no derivation.
#[tactic(auto, using(crate::proofs::Valuation::nothing))]
pub fn nothing_is_not_refuted()
    ensures { NothingIsNotRefuted }
{}

/// With no rules an atom alone has no derivation.
#[tactic(auto, using(crate::proofs::Valuation::atoms))]
pub fn atoms_are_not_refuted()
    ensures { AtomsAreNotRefuted }
{}

/// By the rule `p --> q` the formulas `~p` and `~q` are congruent.
#[tactic(auto, using(crate::proofs::Examples::negations_are_congruent))]
pub fn rules_make_congruent()
    ensures { RulesMakeCongruent }
{}

/// By the rule `p --> q` the formula `p` is refuted together with `~q`.
#[tactic(auto, using(crate::proofs::Examples::rules_refute))]
pub fn rules_refute()
    ensures { RulesRefute }
{}
