ghost use Rattle.std.specs.Prelude.{◌≡◌, ◌≢◌, ◌≤◌, ◌+◌, ◌⊎◌, [], IfSome, OnOk, OnErr};
ghost use Rattle.zm_base.specs.Outside.{Rose, ReadsAtMost};
ghost use Rattle.zenon_modulo.specs.Input.{input_limit};
ghost use Rattle.zenon_modulo.specs.Outcome.{answer_of, status};
ghost use Rattle.zenon_modulo.specs.Outcome.{IfProved, IfFalsified, IfUnknown, IfSearched, IfRefused, RefusesInput};
ghost use Rattle.zenon_modulo.specs.Outcome.{IfTooLarge, IfUsage, IfReadFault, IfLibraryFault, IfWriteFault};
ghost use Rattle.zenon_modulo.specs.Outcome.{IfRead, IfWritten};
ghost use Rattle.zenon_modulo.specs.Claims.{IsProved, IsFalsified, IsUnknown, TakesFirst, IsRefused, IsMisused};
ghost use Rattle.zenon_modulo.specs.Claims.{HasReadFault, IsOperandRead, IsOperandCut, call_of};
ghost use Rattle.zenon_modulo.specs.Text.{diag_text as spec_diag_text};
ghost use Rattle.zenon_modulo.specs.Stages.{IsMessage};
ghost use Rattle.zenon_modulo.specs.Writing.{Fails, Gains, GainsFront, IsWritten, IsCutShort, gain_of};

use crate::answer::answer;
use crate::outcome::{Outcome, Run};
use crate::report::Reply;
use crate::status::status_of;
use std::alloc::Global;
use zm_base::{Failed, Library, Sink, Source, write_all};

const USAGE: &[u8] =
    b"usage: zenon_modulo prove FILE [options] | check FILE [options] | gen K [options]\n";

fn diag_text(reply: &Reply) -> &[u8]
    requires { IsMessage reply.now.outcome reply.now.message.items }
    ensures { IfSome (answer_of reply.now.outcome) (λ a. result.now ≡ spec_diag_text a) }
{
    match &reply.outcome {
        Outcome::Proved { .. } | Outcome::Falsified { .. } | Outcome::Unknown { .. } => b"",
        Outcome::Refused(_) => reply.message.as_slice(),
        Outcome::Usage(_) => USAGE,
        Outcome::ReadFault => b"fault: read\n",
        Outcome::LibraryFault => b"fault: library\n",
        Outcome::WriteFault => b"",
        Outcome::Memory => b"out of memory\n",
    }
}

// Writes a text to each sink. Nothing is written to the second one after the first one failed.
fn write_both<K: Sink, E: Sink>(
    out: &mut K,
    diag: &mut E,
    out_text: &[u8],
    diag_text: &[u8],
) -> Result<(), Failed>
    ensures out { OnOk result (Gains out_text.now (gain_of K.Sink out.old out.new)) }
    ensures diag { OnOk result (Gains diag_text.now (gain_of E.Sink diag.old diag.new)) }
    ensures out_front { OnErr result (GainsFront out_text.now (gain_of K.Sink out.old out.new)) }
    ensures diag_front { OnErr result (GainsFront diag_text.now (gain_of E.Sink diag.old diag.new)) }
    ensures cause { OnErr result (Fails K.Sink out.old out.new ⊎ Fails E.Sink diag.old diag.new) }
{
    write_all(out, out_text)?;
    write_all(diag, diag_text)
}

fn outcome_of(reply: Reply) -> Outcome
    ensures { result ≡ reply.outcome }
{
    let Reply {
        outcome,
        text: _,
        message: _,
    } = reply;
    outcome
}

// The answer once it is written, or WriteFault where that failed.
fn finished(reply: Reply, written: Result<(), Failed>) -> Outcome
    ensures ok { OnOk written (result ≡ reply.outcome) }
    ensures err { OnErr written (result ≡ Outcome.WriteFault) }
{
    match written {
        Ok(()) => outcome_of(reply),
        Err(Failed) => {
            drop(reply);
            Outcome::WriteFault
        }
    }
}

fn with_status(outcome: Outcome) -> Run
    ensures outcome { result.outcome ≡ outcome }
    ensures status { result.status ≡ status outcome }
{
    let status = status_of(&outcome);
    Run { status, outcome }
}

/// Zenon Modulo: reads the words of a command and what it asks for, answers, and writes the answer.
///
/// The command is `prove OPERAND [--steps N]`. It reads a problem from the source, where the operand is `-`, or from
/// the library's file of the operand's name, with the files that it includes; searches for a closed tableau with at
/// most N Steps, 100,000 where nothing is said; and answers proved, falsified with a valuation, or unknown with the
/// cause. The answer goes to `out`, and what is refused or fails is told to `diag`. All memory is taken before the
/// first byte is written.
///
/// What the clauses say of bytes they say where the source, the library and the sinks tell theirs, and of their number
/// where a sink counts them. The library's files stay as they are. `Memory` may be answered at any point, but never to
/// an empty list of words. A `WriteFault` comes in the place of another answer.
pub fn run<S: Source, L: Library, K: Sink, E: Sink>(
    alloc: Global,
    words: &[String],
    input: &mut S,
    library: &mut L,
    out: &mut K,
    diag: &mut E,
) -> Run
    ensures status { result.status ≡ status result.outcome }

    // Proved: the problem that the operand spells has a closed tableau, and the premises with the negated conjecture a
    // derivation in the sequent calculus. Falsified: the problem has no quantifier, and the valuation makes the
    // premises true and the conjecture false. Unknown: the search stopped for its cause.
    ensures proved { IfProved result.outcome (IsProved words.now (S.left input.old) (L.files library.old)) }
    ensures falsified { IfFalsified result.outcome (IsFalsified words.now (S.left input.old) (L.files library.old)) }
    ensures unknown { IfUnknown result.outcome (IsUnknown words.now (S.left input.old) (L.files library.old)) }
    ensures picks { IfSearched result.outcome TakesFirst }

    // When each other answer comes. Whatever is told, a refusal is one of the input: it holds no fault and no want of
    // memory.
    ensures refused { IfRefused result.outcome (IsRefused words.now (S.left input.old) (L.files library.old)) }
    ensures refuses_input { RefusesInput result.outcome }
    ensures usage { IfUsage result.outcome (IsMisused words.now) }
    ensures no_words { words.now ≡ [] → result.outcome ≢ Outcome.Memory }
    ensures read_fault { IfReadFault result.outcome (HasReadFault words.now (S.faults input.old) (S.faults input.new)) }
    ensures library_fault { IfLibraryFault result.outcome (Rose (L.faults library.old) (L.faults library.new)) }
    ensures write_fault { IfWriteFault result.outcome (Fails K.Sink out.old out.new ⊎ Fails E.Sink diag.old diag.new) }

    // What is read, and what is left of the source and of the library.
    ensures untouched { IfUsage result.outcome (λ misuse. S.left input.new ≡ S.left input.old) }
    ensures taken { IfRead result.outcome (IsOperandRead words.now (S.left input.old) (S.left input.new)) }
    ensures cut { IfTooLarge result.outcome (IsOperandCut words.now (S.left input.old) (S.left input.new)) }
    ensures reads { ReadsAtMost (input_limit + 1) (S.left input.old) (S.left input.new) }
    ensures files { L.files library.new ≡ L.files library.old }
    ensures source_later { S.faults input.old ≤ S.faults input.new }
    ensures library_later { L.faults library.old ≤ L.faults library.new }

    // What is written: each sink gains its part of the text of the answer, of the problem of which the answer speaks.
    ensures written { IfWritten result.outcome (IsWritten
        (call_of S.Source L.Library words.now input.old input.new library.old library.new)
        (gain_of K.Sink out.old out.new) (gain_of E.Sink diag.old diag.new)) }
    ensures cut_short { IfWriteFault result.outcome (IsCutShort
        (call_of S.Source L.Library words.now input.old input.new library.old library.new)
        (gain_of K.Sink out.old out.new) (gain_of E.Sink diag.old diag.new)) }
{
    let answered = answer(alloc, words, input, library);
    let written = write_both(out, diag, &answered.text, diag_text(&answered));
    with_status(finished(answered, written))
}
