ghost use Rattle.std.specs.Prelude.{◌≡◌, ◌≤◌, ◌+◌, ℕ, List, [], true, map, IfOk, IfSome, Err, ◌≢◌};
ghost use Rattle.zm_base.specs.Outside.{Rose, ReadsAtMost};
ghost use Rattle.zm_base.specs.Library.{bytes_of};
ghost use Rattle.std.specs.Prelude.{length, string_bytes};
ghost use Rattle.zm_logic.specs.View.{problem_tree};
ghost use Rattle.zm_logic.specs.Problem.{IsTypedProblem};
ghost use Rattle.tptp_include.specs.Outcomes.{placed_of};
ghost use Rattle.zenon_modulo.specs.Fragments.{is_built as spec_is_built};
ghost use Rattle.zenon_modulo.specs.Words.{Operand as OperandTree, Command as CommandTree, IsCommand};
ghost use Rattle.zenon_modulo.specs.WordsRead.{operand_tree, command_tree};
ghost use Rattle.zenon_modulo.specs.Input.{Name, IsGatheredFrom, Makes, input_limit};
ghost use Rattle.zenon_modulo.specs.Claims.{Words, Call, call_of};
ghost use Rattle.zenon_modulo.specs.Stages.{Gives, GivesFor, HasTableau, HasRead, IsFew, IsPlain, IsMessage, IsRefusedOr, IsFile, IsFileRead, IsUngathered, IsMissing};

use crate::fragments::is_built;
use crate::message::refusal_text;
use crate::outcome::{InputRefusal, Outcome};
use crate::report::{Reply, report};
use crate::words::{Command, Operand, WordsStop, read_words};
use rule_select::keep_all;
use search::{Budget, search};
use std::alloc::{AllocError, Global};
use tff_typing::{TypeStop, type_problem};
use tptp_include::{GatherRefusal, Gathered, gather};
use tptp_reader::Text;
use zm_base::{Got, LibFail, Library, ReadStop, Source, read_to_limit};
use zm_logic::TypedProblem;

/// The greatest number of bytes of the operand.
pub const INPUT_LIMIT: usize = 16_777_216;

// An answer that has no text of its own.
fn plain(alloc: Global, outcome: Outcome) -> Reply
    requires { IsPlain outcome }
    ensures outcome { result.outcome ≡ outcome }
    ensures text { result.text.items ≡ [] }
    ensures message { IsMessage result.outcome result.message.items }
{
    Reply {
        outcome,
        text: Vec::new(alloc),
        message: Vec::new(alloc),
    }
}

// A refused input with its message, or want of memory for it.
fn refused(alloc: Global, refusal: InputRefusal) -> Reply
    ensures outcome { IsRefusedOr refusal result.outcome }
    ensures text { result.text.items ≡ [] }
    ensures message { IsMessage result.outcome result.message.items }
{
    match refusal_text(alloc, &refusal) {
        Ok(message) => Reply {
            outcome: Outcome::Refused(refusal),
            text: Vec::new(alloc),
            message,
        },
        Err(AllocError) => {
            drop(refusal);
            plain(alloc, Outcome::Memory)
        }
    }
}

// Searches, and reports what was found.
fn solve(alloc: Global, problem: &TypedProblem, steps: u32) -> Result<Reply, AllocError>
    requires typed { IsTypedProblem (problem_tree problem.now) }
    requires built { spec_is_built (problem_tree problem.now) ≡ true }
    requires few { steps ≤ 1000000 }
    ensures answer { IfOk result (λ r. GivesFor (problem_tree problem.now) steps r.outcome r.text.items) }
    ensures searched { IfOk result (λ r. HasTableau r.outcome) }
{
    let selection = keep_all(alloc, problem)?;
    let budget = Budget {
        steps,
        rewrites: 10_000,
    };
    let searched = search(alloc, problem, &selection, budget)?;
    report(alloc, problem, &selection, steps, searched)
}

// What is answered to a problem that is built.
fn answer_built(alloc: Global, problem: &TypedProblem, steps: u32) -> Reply
    requires typed { IsTypedProblem (problem_tree problem.now) }
    requires built { spec_is_built (problem_tree problem.now) ≡ true }
    requires few { steps ≤ 1000000 }
    ensures answer { GivesFor (problem_tree problem.now) steps result.outcome result.text.items }
    ensures message { IsMessage result.outcome result.message.items }
    ensures library { result.outcome ≢ Outcome.LibraryFault }
{
    match solve(alloc, problem, steps) {
        Ok(answer) => answer,
        Err(AllocError) => plain(alloc, Outcome::Memory),
    }
}

// What is answered to a typed problem.
fn answer_problem(alloc: Global, problem: &TypedProblem, steps: u32) -> Reply
    requires { steps ≤ 1000000 }
    ensures answer { (c : Call) (name : Name) (bytes : List ℕ) → HasRead c name bytes steps
        → IfSome c.files (λ fs. Makes fs name bytes (problem_tree problem.now)) → Gives c result.outcome result.text.items }
    ensures message { IsMessage result.outcome result.message.items }
    ensures library { result.outcome ≢ Outcome.LibraryFault }
{
    if is_built(problem.problem()) {
        return answer_built(alloc, problem, steps);
    }
    refused(alloc, InputRefusal::NotBuilt)
}

// What is answered to gathered statements.
fn answer_statements(alloc: Global, gathered: &Gathered, steps: u32) -> Reply
    requires { steps ≤ 1000000 }
    ensures answer { (c : Call) (name : Name) (bytes : List ℕ) → HasRead c name bytes steps
        → IfSome c.files (λ fs. IsGatheredFrom fs name bytes (map placed_of gathered.now))
        → Gives c result.outcome result.text.items }
    ensures message { IsMessage result.outcome result.message.items }
    ensures library { result.outcome ≢ Outcome.LibraryFault }
{
    match type_problem(alloc, gathered) {
        Ok(problem) => answer_problem(alloc, &problem, steps),
        Err(TypeStop::Refused(refusal)) => refused(alloc, InputRefusal::Typing(refusal)),
        Err(TypeStop::Memory) => plain(alloc, Outcome::Memory),
    }
}

// What is answered where nothing is gathered.
fn ungathered(alloc: Global, refusal: GatherRefusal) -> Reply
    ensures answer { IsUngathered refusal result.outcome }
    ensures text { result.text.items ≡ [] }
    ensures message { IsMessage result.outcome result.message.items }
{
    match refusal {
        GatherRefusal::LibraryFault => plain(alloc, Outcome::LibraryFault),
        GatherRefusal::Memory => plain(alloc, Outcome::Memory),
        other => refused(alloc, InputRefusal::Gather(other)),
    }
}

// What is answered to a text of this name.
fn answer_text<L: Library>(
    alloc: Global,
    library: &mut L,
    name: &str,
    bytes: &[u8],
    steps: u32,
) -> Reply
    requires fits { length bytes.now ≤ input_limit }
    requires few { steps ≤ 1000000 }
    ensures answer { (c : Call) → HasRead c name.now bytes.now steps → c.files ≡ L.files library.old
        → (result.outcome ≡ Outcome.LibraryFault → Rose c.library_faults c.library_faults_now)
        → Gives c result.outcome result.text.items }
    ensures message { IsMessage result.outcome result.message.items }
    ensures files { L.files library.new ≡ L.files library.old }
    ensures later { L.faults library.old ≤ L.faults library.new }
    ensures library { result.outcome ≡ Outcome.LibraryFault → Rose (L.faults library.old) (L.faults library.new) }
{
    match gather(alloc, library, name, bytes) {
        Ok(gathered) => answer_statements(alloc, &gathered, steps),
        Err(refusal) => ungathered(alloc, refusal),
    }
}

// What is answered to the bytes of the source.
fn answer_source<S: Source, L: Library>(
    alloc: Global,
    steps: u32,
    input: &mut S,
    library: &mut L,
) -> Reply
    requires { steps ≤ 1000000 }
    ensures answered { (words : Words) → IsCommand (map string_bytes words) (CommandTree.prove OperandTree.source steps)
        → Gives
        (call_of S.Source L.Library words input.old input.new library.old library.new) result.outcome result.text.items }
    ensures message { IsMessage result.outcome result.message.items }
    ensures reads { ReadsAtMost (input_limit + 1) (S.left input.old) (S.left input.new) }
    ensures files { L.files library.new ≡ L.files library.old }
    ensures source_later { S.faults input.old ≤ S.faults input.new }
    ensures library_later { L.faults library.old ≤ L.faults library.new }
{
    match read_to_limit(alloc, input, INPUT_LIMIT) {
        Ok(bytes) => answer_text(alloc, library, "-", &bytes, steps),
        Err(ReadStop::Failed) => plain(alloc, Outcome::ReadFault),
        Err(ReadStop::TooLarge) => refused(alloc, InputRefusal::TooLarge),
        Err(ReadStop::Memory) => plain(alloc, Outcome::Memory),
    }
}

/// Why a file isn't read.
#[derive(Clone, Copy, Debug, PartialEq, Eq)]
pub enum FileStop {
    /// There is no such file.
    Missing,
    /// It has more than 16,777,216 bytes.
    TooLarge,
    /// The library failed.
    Failed,
    /// There was no memory.
    Memory,
}

// What a library gave, if it is a file and not too large.
fn file_bytes(got: Got) -> Result<Vec<u8>, FileStop>
    ensures { IsFile (bytes_of got) result }
{
    match got {
        Got::Bytes(bytes) => {
            if bytes.len() > INPUT_LIMIT {
                return Err(FileStop::TooLarge);
            }
            Ok(bytes)
        }
        Got::Missing => Err(FileStop::Missing),
    }
}

// Reads the file of the operand.
fn read_file<L: Library>(alloc: Global, library: &mut L, name: &str) -> Result<Vec<u8>, FileStop>
    ensures read { IsFileRead (L.files library.old) name.now result }
    ensures files { L.files library.new ≡ L.files library.old }
    ensures later { L.faults library.old ≤ L.faults library.new }
    ensures failed { result ≡ Err FileStop.Failed → Rose (L.faults library.old) (L.faults library.new) }
{
    match library.get(alloc, name, INPUT_LIMIT + 1) {
        Ok(got) => file_bytes(got),
        Err(LibFail::Failed) => Err(FileStop::Failed),
        Err(LibFail::Memory) => Err(FileStop::Memory),
    }
}

// What is answered where there is no file of the operand's name.
fn missing(alloc: Global, name: &str) -> Reply
    ensures outcome { IsMissing name.now result.outcome }
    ensures text { result.text.items ≡ [] }
    ensures message { IsMessage result.outcome result.message.items }
{
    match Text::of(alloc, name) {
        Ok(name) => refused(alloc, InputRefusal::Gather(GatherRefusal::Missing { name })),
        Err(AllocError) => plain(alloc, Outcome::Memory),
    }
}

// What is answered to a file.
fn answer_file<L: Library>(alloc: Global, steps: u32, library: &mut L, name: &str) -> Reply
    requires { steps ≤ 1000000 }
    ensures answered { (c : Call) → IsCommand (map string_bytes c.words) (CommandTree.prove (OperandTree.file name.now) steps)
        → c.left_now ≡ c.left → c.files ≡ L.files library.old → c.library_faults ≡ L.faults library.old
        → c.library_faults_now ≡ L.faults library.new → Gives c result.outcome result.text.items }
    ensures message { IsMessage result.outcome result.message.items }
    ensures files { L.files library.new ≡ L.files library.old }
    ensures later { L.faults library.old ≤ L.faults library.new }
{
    match read_file(alloc, library, name) {
        Ok(bytes) => answer_text(alloc, library, name, &bytes, steps),
        Err(FileStop::Missing) => missing(alloc, name),
        Err(FileStop::TooLarge) => refused(alloc, InputRefusal::TooLarge),
        Err(FileStop::Failed) => plain(alloc, Outcome::LibraryFault),
        Err(FileStop::Memory) => plain(alloc, Outcome::Memory),
    }
}

// What is answered to the command to prove the problem of an operand.
fn prove<S: Source, L: Library>(
    alloc: Global,
    operand: &Operand,
    steps: u32,
    input: &mut S,
    library: &mut L,
) -> Reply
    requires { steps ≤ 1000000 }
    ensures answered { (words : Words) → IsCommand (map string_bytes words) (CommandTree.prove (operand_tree operand.now) steps)
        → Gives
        (call_of S.Source L.Library words input.old input.new library.old library.new) result.outcome result.text.items }
    ensures message { IsMessage result.outcome result.message.items }
    ensures reads { ReadsAtMost (input_limit + 1) (S.left input.old) (S.left input.new) }
    ensures files { L.files library.new ≡ L.files library.old }
    ensures source_later { S.faults input.old ≤ S.faults input.new }
    ensures library_later { L.faults library.old ≤ L.faults library.new }
{
    match operand {
        Operand::Source => answer_source(alloc, steps, input, library),
        Operand::File(name) => answer_file(alloc, steps, library, name.text()),
    }
}

// What is answered to a command.
fn answer_command<S: Source, L: Library>(
    alloc: Global,
    command: &Command,
    input: &mut S,
    library: &mut L,
) -> Reply
    requires { IsFew command.now }
    ensures answered { (words : Words) → IsCommand (map string_bytes words) (command_tree command.now)
        → Gives
        (call_of S.Source L.Library words input.old input.new library.old library.new) result.outcome result.text.items }
    ensures message { IsMessage result.outcome result.message.items }
    ensures reads { ReadsAtMost (input_limit + 1) (S.left input.old) (S.left input.new) }
    ensures files { L.files library.new ≡ L.files library.old }
    ensures source_later { S.faults input.old ≤ S.faults input.new }
    ensures library_later { L.faults library.old ≤ L.faults library.new }
{
    match command {
        Command::Prove { operand, steps } => prove(alloc, operand, *steps, input, library),
    }
}

/// Reads the words and then the operand, gathers, types, searches, and says what is to be answered, with all memory taken
/// that the answer needs. It writes nothing.
pub fn answer<S: Source, L: Library>(
    alloc: Global,
    words: &[String],
    input: &mut S,
    library: &mut L,
) -> Reply
    ensures answered { Gives
        (call_of S.Source L.Library words.now input.old input.new library.old library.new) result.outcome result.text.items }
    ensures message { IsMessage result.outcome result.message.items }
    ensures reads { ReadsAtMost (input_limit + 1) (S.left input.old) (S.left input.new) }
    ensures files { L.files library.new ≡ L.files library.old }
    ensures source_later { S.faults input.old ≤ S.faults input.new }
    ensures library_later { L.faults library.old ≤ L.faults library.new }
{
    match read_words(alloc, words) {
        Ok(command) => answer_command(alloc, &command, input, library),
        Err(WordsStop::Usage(refusal)) => plain(alloc, Outcome::Usage(refusal)),
        Err(WordsStop::Memory) => plain(alloc, Outcome::Memory),
    }
}
