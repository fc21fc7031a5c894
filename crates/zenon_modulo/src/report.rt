ghost use Rattle.std.specs.Prelude.{◌≡◌, ◌≢◌, ◌++◌, true, map, IfOk};
ghost use Rattle.zm_logic.specs.Problem.{IsTypedProblem};
ghost use Rattle.zm_logic.specs.View.{problem_tree};
ghost use Rattle.branch.specs.Stopping.{Cause};
ghost use Rattle.branch.specs.State.{tree};
ghost use Rattle.branch.specs.Causes.{cause_of};
ghost use Rattle.valuation.specs.View.{valued_tree};
ghost use Rattle.search.specs.Searched.{IsFound, IsGrownOf};
ghost use Rattle.branch.specs.Tableau.{is_finished};
ghost use Rattle.rule_select.specs.Selection.{KeepsAll, all_kept};
ghost use Rattle.rule_select.specs.View.{selection_tree};
ghost use Rattle.lp_terms.specs.View.{entries_of};
ghost use Rattle.dk_text.specs.Text.{file_text};
ghost use Rattle.dk_printer.specs.Reading.{HasOneReading};
ghost use Rattle.pruning.specs.Started.{IsStartedFrom};
ghost use Rattle.zenon_modulo.specs.ProofFile.{proof_entries};
ghost use Rattle.zenon_modulo.specs.Fragments.{is_built as spec_is_built, is_quantifier_free as spec_is_quantifier_free};
ghost use Rattle.zenon_modulo.specs.Claims.{IsCountermodel};
ghost use Rattle.zenon_modulo.specs.Stages.{IsStopped, GivesFor, HasTableau};
ghost use Rattle.zenon_modulo.specs.Text.{proved_lines, proved_text as spec_proved_text, falsified_text as spec_falsified_text};

use crate::fragments::is_quantifier_free;
use crate::laws::closed_tableaux_make_goal_files;
use crate::outcome::Outcome;
use crate::proof_file::{proof_file, push_file};
use crate::text::{falsified_text, proved_lines, unknown_text};
use dk_text::reading_is_unique;
use lp_terms::DkFile;
use rule_select::Selection;
use rule_select::laws::keeping_all_keeps_the_premises;
use search::{Closed, Open, Searched, Tableau, Why};
use std::alloc::{AllocError, Global};
use valuation::{Valuation, valuation_of};
use zm_logic::TypedProblem;

/// An answer, what is written for it to the sink for results, and what is told of a refused input.
#[derive(Drop)]
pub struct Reply {
    pub outcome: Outcome,
    pub text: Vec<u8>,
    pub message: Vec<u8>,
}

// An answer to a search.
fn reported(alloc: Global, outcome: Outcome, text: Vec<u8>) -> Reply
    ensures outcome { result.outcome ≡ outcome }
    ensures text { result.text ≡ text }
{
    Reply {
        outcome,
        text,
        message: Vec::new(alloc),
    }
}

// The text of a proof with its file, which has one reading.
fn with_file(alloc: Global, tableau: &Tableau<Closed>, file: &DkFile) -> Result<Vec<u8>, AllocError>
    ensures text { IfOk result (λ t. t.items ≡ proved_lines (tree tableau.now) ++ file_text (entries_of file.now)) }
    ensures reading { IfOk result (λ t. HasOneReading (file_text (entries_of file.now)) (entries_of file.now)) }
{
    let mut text = proved_lines(alloc, tableau)?;
    push_file(alloc, &mut text, file)?;
    Ok(text)
}

// The text of a closed tableau, whose file has one reading.
fn proved_text(
    alloc: Global,
    problem: &TypedProblem,
    selection: &Selection,
    tableau: &Tableau<Closed>,
) -> Result<Vec<u8>, AllocError>
    requires kept { KeepsAll (problem_tree problem.now) (selection_tree selection.now) }
    requires started { IsStartedFrom (problem_tree problem.now) (all_kept (problem_tree problem.now)) tableau.now }
    ensures text { IfOk result (λ t. t.items ≡ spec_proved_text (problem_tree problem.now) (tree tableau.now)) }
    ensures reading { IfOk result (λ t. HasOneReading (file_text (proof_entries (problem_tree problem.now) (tree tableau.now)))
        (proof_entries (problem_tree problem.now) (tree tableau.now))) }
{
    let file = proof_file(alloc, problem, selection, tableau)?;
    with_file(alloc, tableau, &file)
}

fn report_proved(
    alloc: Global,
    problem: &TypedProblem,
    selection: &Selection,
    steps: u32,
    tableau: Tableau<Closed>,
) -> Result<Reply, AllocError>
    requires typed { IsTypedProblem (problem_tree problem.now) }
    requires built { spec_is_built (problem_tree problem.now) ≡ true }
    requires kept { KeepsAll (problem_tree problem.now) (selection_tree selection.now) }
    requires grown { IsGrownOf (problem_tree problem.now) steps 10000 tableau }
    requires closed { is_finished (tree tableau) ≡ true }
    ensures answer { IfOk result (λ r. GivesFor (problem_tree problem.now) steps r.outcome r.text.items) }
    ensures searched { IfOk result (λ r. HasTableau r.outcome) }
{
    closed_tableaux_make_goal_files();
    keeping_all_keeps_the_premises();
    reading_is_unique();
    let text = proved_text(alloc, problem, selection, &tableau)?;
    let outcome = Outcome::Proved { tableau };
    Ok(reported(alloc, outcome, text))
}

// The valuation of the current branch, with its text.
#[derive(Drop)]
struct Countermodel {
    valuation: Valuation,
    text: Vec<u8>,
}

fn countermodel_of(
    alloc: Global,
    problem: &TypedProblem,
    steps: u32,
    tableau: &Tableau<Open>,
) -> Result<Countermodel, AllocError>
    requires stopped { IsStopped steps (problem_tree problem.now) Cause.saturated tableau.now }
    requires quantifier_free { spec_is_quantifier_free (problem_tree problem.now) ≡ true }
    ensures valuation { IfOk result (λ m. IsCountermodel steps (problem_tree problem.now) (map valued_tree m.valuation) (tree tableau.now)) }
    ensures text { IfOk result (λ m. m.text.items ≡ spec_falsified_text (problem_tree problem.now) (map valued_tree m.valuation)) }
{
    let valuation = valuation_of(alloc, tableau, problem)?;
    let text = falsified_text(
        alloc,
        problem.problem().symbols.as_slice(),
        valuation.as_slice(),
    )?;
    Ok(Countermodel { valuation, text })
}

fn report_falsified(
    alloc: Global,
    problem: &TypedProblem,
    steps: u32,
    tableau: Tableau<Open>,
) -> Result<Reply, AllocError>
    requires stopped { IsStopped steps (problem_tree problem.now) Cause.saturated tableau }
    requires quantifier_free { spec_is_quantifier_free (problem_tree problem.now) ≡ true }
    ensures answer { IfOk result (λ r. GivesFor (problem_tree problem.now) steps r.outcome r.text.items) }
    ensures searched { IfOk result (λ r. HasTableau r.outcome) }
{
    let Countermodel { valuation, text } = countermodel_of(alloc, problem, steps, &tableau)?;
    let outcome = Outcome::Falsified { valuation, tableau };
    Ok(reported(alloc, outcome, text))
}

fn report_unknown(
    alloc: Global,
    problem: &TypedProblem,
    steps: u32,
    why: Why,
    tableau: Tableau<Open>,
) -> Result<Reply, AllocError>
    requires stopped { IsStopped steps (problem_tree problem.now) (cause_of why) tableau }
    requires unsaturated { spec_is_quantifier_free (problem_tree problem.now) ≡ true → cause_of why ≢ Cause.saturated }
    ensures answer { IfOk result (λ r. GivesFor (problem_tree problem.now) steps r.outcome r.text.items) }
    ensures searched { IfOk result (λ r. HasTableau r.outcome) }
{
    let text = unknown_text(alloc, &why, &tableau)?;
    let outcome = Outcome::Unknown { why, tableau };
    Ok(reported(alloc, outcome, text))
}

// A saturated tableau falsifies a problem without quantifiers; of another one it says nothing.
fn report_saturated(
    alloc: Global,
    problem: &TypedProblem,
    steps: u32,
    tableau: Tableau<Open>,
) -> Result<Reply, AllocError>
    requires { IsStopped steps (problem_tree problem.now) Cause.saturated tableau }
    ensures answer { IfOk result (λ r. GivesFor (problem_tree problem.now) steps r.outcome r.text.items) }
    ensures searched { IfOk result (λ r. HasTableau r.outcome) }
{
    if is_quantifier_free(problem.problem()) {
        return report_falsified(alloc, problem, steps, tableau);
    }
    report_unknown(alloc, problem, steps, Why::Saturated, tableau)
}

fn report_open(
    alloc: Global,
    problem: &TypedProblem,
    steps: u32,
    tableau: Tableau<Open>,
    why: Why,
) -> Result<Reply, AllocError>
    requires { IsStopped steps (problem_tree problem.now) (cause_of why) tableau }
    ensures answer { IfOk result (λ r. GivesFor (problem_tree problem.now) steps r.outcome r.text.items) }
    ensures searched { IfOk result (λ r. HasTableau r.outcome) }
{
    match why {
        Why::Saturated => report_saturated(alloc, problem, steps, tableau),
        Why::Steps => report_unknown(alloc, problem, steps, Why::Steps, tableau),
        Why::BranchLength => report_unknown(alloc, problem, steps, Why::BranchLength, tableau),
        Why::Rewrites { from } => {
            report_unknown(alloc, problem, steps, Why::Rewrites { from }, tableau)
        }
        Why::Deep { at } => report_unknown(alloc, problem, steps, Why::Deep { at }, tableau),
    }
}

/// What is answered to a search with so many Steps at most.
pub fn report(
    alloc: Global,
    problem: &TypedProblem,
    selection: &Selection,
    steps: u32,
    searched: Searched,
) -> Result<Reply, AllocError>
    requires typed { IsTypedProblem (problem_tree problem.now) }
    requires built { spec_is_built (problem_tree problem.now) ≡ true }
    requires kept { KeepsAll (problem_tree problem.now) (selection_tree selection.now) }
    requires found { IsFound (problem_tree problem.now) steps 10000 searched }
    ensures answer { IfOk result (λ r. GivesFor (problem_tree problem.now) steps r.outcome r.text.items) }
    ensures searched { IfOk result (λ r. HasTableau r.outcome) }
{
    match searched {
        Searched::Closed(tableau) => report_proved(alloc, problem, selection, steps, tableau),
        Searched::Open(tableau, why) => report_open(alloc, problem, steps, tableau, why),
    }
}
