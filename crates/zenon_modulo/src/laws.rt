//! What the definitions come to, beside what the calls claim of them. Each function does nothing: its clause is the law.
ghost use Rattle.zenon_modulo.specs.Laws.{SpelledProblemsAreEqual, SpelledProblemsAreAccepted, ExplanationsAreEqual, CommandsAreEqual, MisusesAreEqual, CommandsAreNotMisused, ClosedTableauxMakeGoalFiles};

use lp_signature::typed_laws::signatures_are_well_formed;
use lp_translation::laws::goal_files_are_made;
use pruning::laws::{closed_tableaux_are_derivations, end_sequents_are_given};
use rule_select::laws::keeping_all_keeps_the_premises;
use tff_typing::laws::{first_fault, one_problem};
use tptp_include::outcomes_are_equal;

/// The text of an operand spells at most one problem. So the clauses of `run` speak of one and the same.
pub fn spelled_problems_are_equal()
    ensures { SpelledProblemsAreEqual }
{
    outcomes_are_equal();
    one_problem();
}

/// A problem that is spelled is never refused, but for one cause: that it isn't built.
pub fn spelled_problems_are_accepted()
    ensures { SpelledProblemsAreAccepted }
{
    outcomes_are_equal();
    one_problem();
    first_fault();
}

/// At most one thing is wrong with an input. So where an input is refused, it is for this cause and no other, and at this place.
pub fn explanations_are_equal()
    ensures { ExplanationsAreEqual }
{
    outcomes_are_equal();
    one_problem();
    first_fault();
}

/// Words are at most one command.
#[tactic(auto, using(crate::proofs::OneReading::one_command))]
pub fn commands_are_equal()
    ensures { CommandsAreEqual }
{}

/// The first thing that is wrong with the words is one.
#[tactic(auto, using(crate::proofs::OneReading::one_misuse))]
pub fn misuses_are_equal()
    ensures { MisusesAreEqual }
{}

/// Nothing is wrong with a command.
#[tactic(auto, using(crate::proofs::OneReading::no_misuse))]
pub fn commands_are_not_misused()
    ensures { CommandsAreNotMisused }
{}

/// A closed tableau of a typed problem makes a file whose goal has the type of the conjecture's proofs, over the problem's
/// signature, each entry of which is well formed after those before it.
pub fn closed_tableaux_make_goal_files()
    ensures { ClosedTableauxMakeGoalFiles }
{
    keeping_all_keeps_the_premises();
    closed_tableaux_are_derivations();
    end_sequents_are_given();
    signatures_are_well_formed();
    goal_files_are_made();
}
