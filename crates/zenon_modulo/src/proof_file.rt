ghost use Rattle.std.specs.Prelude.{◌≡◌, ◌++◌, [], IfOk, OnOk};
ghost use Rattle.zm_logic.specs.View.{problem_tree};
ghost use Rattle.rule_select.specs.Selection.{KeepsAll, all_kept};
ghost use Rattle.rule_select.specs.View.{selection_tree};
ghost use Rattle.branch.specs.State.{tree};
ghost use Rattle.lp_terms.specs.View.{entries_of};
ghost use Rattle.dk_text.specs.Text.{file_text};
ghost use Rattle.dk_printer.specs.Reading.{HasOneReading};
ghost use Rattle.pruning.specs.Started.{IsStartedFrom};
ghost use Rattle.zenon_modulo.specs.ProofFile.{proof_entries};

use dk_printer::print;
use lp_terms::DkFile;
use lp_translation::goal_of;
use pruning::derivation_of;
use rule_select::Selection;
use search::{Closed, Tableau};
use std::alloc::{AllocError, Global};
use zm_base::{CountSink, Failed, MemSink};
use zm_logic::TypedProblem;

/// The file of a proof: the problem's signature, and the goal with the term of the tableau's derivation. The tableau was
/// started from the problem and the selection, which keeps every premise.
pub fn proof_file(
    alloc: Global,
    problem: &TypedProblem,
    selection: &Selection,
    tableau: &Tableau<Closed>,
) -> Result<DkFile, AllocError>
    requires kept { KeepsAll (problem_tree problem.now) (selection_tree selection.now) }
    requires started { IsStartedFrom (problem_tree problem.now) (all_kept (problem_tree problem.now)) tableau.now }
    ensures { IfOk result (λ f. entries_of f ≡ proof_entries (problem_tree problem.now) (tree tableau.now)) }
{
    tableau.kept();
    rule_select::laws::keeping_all_keeps_the_premises();
    let derivation = derivation_of(alloc, tableau, problem, selection)?;
    goal_of(alloc, &derivation, problem, selection)
}

// How many bytes the file's text has.
fn size_of(file: &DkFile) -> usize {
    let mut sink = CountSink::new();
    let _ = print(file, &mut sink);
    sink.count() as usize
}

// The sink with the file's text. It has room for it, so that it fails for want of memory alone.
fn filled(file: &DkFile, mut sink: MemSink) -> Result<MemSink, AllocError>
    requires { sink.held ≡ [] }
    ensures text { IfOk result (λ s. s.held ≡ file_text (entries_of file.now)) }
    ensures reading { HasOneReading (file_text (entries_of file.now)) (entries_of file.now) }
{
    match print(file, &mut sink) {
        Ok(()) => Ok(sink),
        Err(Failed) => Err(AllocError),
    }
}

// The file's text in memory.
fn text_of(alloc: Global, file: &DkFile) -> Result<MemSink, AllocError>
    ensures text { IfOk result (λ s. s.held ≡ file_text (entries_of file.now)) }
    ensures reading { IfOk result (λ s. HasOneReading (file_text (entries_of file.now)) (entries_of file.now)) }
{
    let sink = MemSink::new(alloc, size_of(file), 4096, Vec::new(alloc))?;
    filled(file, sink)
}

/// Writes the file behind a text. The file's text has one reading, which is the file.
pub fn push_file(alloc: Global, text: &mut Vec<u8>, file: &DkFile) -> Result<(), AllocError>
    ensures text { OnOk result (text.new.items ≡ text.old.items ++ file_text (entries_of file.now)) }
    ensures reading { OnOk result (HasOneReading (file_text (entries_of file.now)) (entries_of file.now)) }
{
    let sink = text_of(alloc, file)?;
    text.extend_from_slice(sink.held())
}
