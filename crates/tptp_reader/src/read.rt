ghost use Rattle.std.specs.Prelude.{◌≡◌, ◌≤◌, ◌<◌, ◌↔◌, Some, Ok, length, map, slice_index, IfSome};
ghost use Rattle.tptp_lex.specs.Lexing.{OnlyBlank};
ghost use Rattle.tptp_reader.specs.Answered.{answer_of, refused, IfStatement, OneAnswer};
ghost use Rattle.tptp_reader.specs.Answers.{Answer, Answers, Judges, refusal_at};
ghost use Rattle.tptp_reader.specs.Counted.{fault_of};
ghost use Rattle.tptp_reader.specs.Limits.{IsWithinLimits};
ghost use Rattle.tptp_reader.specs.Parsing.{seen};
ghost use Rattle.tptp_reader.specs.View.{statement_tree};

use crate::cursor::ParseStop;
use crate::parse::{Parsed, parse_statement};
use crate::refusal::ReadRefusal;
use crate::rows::{RefusedToken, early_fault};
use crate::statement::{Read, Statement};
use crate::wide::{Start, Wide, wide_at};
use std::alloc::Global;

// The place of a token; 0 where there is no such token.
fn place_of(places: &[usize], n: usize) -> usize
    ensures { result ≡ slice_index places.now n }
{
    match places.get(n) {
        Some(place) => *place,
        None => 0,
    }
}

// The refusal of a token.
fn refusal_at(places: &[usize], fault: RefusedToken) -> ReadRefusal
    ensures { refused result ≡ Some (Answer.refuses (refusal_at places.now (fault_of fault))) }
{
    match fault {
        RefusedToken::Unsupported(form, n) => ReadRefusal::Unsupported {
            form,
            at: place_of(places, n),
        },
        RefusedToken::TooDeep(n) => ReadRefusal::TooDeep {
            at: place_of(places, n),
        },
    }
}

// What a wide statement is answered.
fn read_wide(alloc: Global, wide: &Wide) -> Result<Read, ReadRefusal>
    ensures judged { IfSome (answer_of result) (Judges (map seen wide.now.lexemes.items) wide.now.places.items wide.now.after) }
    ensures limits { IfStatement result (λ s after. IsWithinLimits (statement_tree s)) }
    ensures more { result ≡ Ok Read.End → ⊥ }
{
    if let Some(fault) = early_fault(alloc, &wide.lexemes)? {
        return Err(refusal_at(&wide.places, fault));
    }
    let at = place_of(&wide.places, 0);
    match parse_statement(alloc, &wide.lexemes) {
        Ok(Parsed::Body(body)) => Ok(Read::Statement(Statement { at, body }, wide.after)),
        Ok(Parsed::TooDeep) => Err(ReadRefusal::TooDeep { at }),
        Err(ParseStop::Syntax) => Err(ReadRefusal::Syntax { at }),
        Err(ParseStop::Memory) => Err(ReadRefusal::Memory),
    }
}

/// Reads the statement that stands next from the place `at` on, or tells that nothing more stands there. The answer is
/// the one of `Answers`, unless memory runs out.
///
/// # Errors
///
/// In this order, each at the place that shows it:
///
/// - `Syntax` where no wide statement begins: a lower, an open bracket, balanced tokens, the closing bracket and a point;
/// - `Unsupported` where the statement begins with `cnf`, `thf`, `tcf` or `tpi`;
/// - `Unsupported` where the role of a `fof` or `tff` statement is a lower that isn't listed, `type` in `fof`, or has a
///   subrole;
/// - `TooDeep` where more than 200 brackets, negations and quantifiers are open in the formula part;
/// - `Unsupported` where the formula part has a number, a distinct object, another word behind a dollar sign than those
///   of the grammar, or one of `@ ^ + -`;
/// - `Syntax` where the statement isn't in the grammar;
/// - `TooDeep` where its formula is more than 1,000 deep;
///
/// and `Memory` where memory ran out.
pub fn read_statement(alloc: Global, bytes: &[u8], at: usize) -> Result<Read, ReadRefusal>
    requires { at ≤ length bytes.now }
    // What is answered is the answer of the definitions.
    ensures answer { IfSome (answer_of result) (Answers bytes.now at) }
    // A statement that is read is within the reader's limits.
    ensures limits { IfStatement result (λ s after. IsWithinLimits (statement_tree s)) }
    // It stands at the place or behind it, and the place behind it is further on in the text.
    ensures place { IfStatement result (λ s after. at ≤ s.at) }
    ensures order { IfStatement result (λ s after. s.at < after) }
    ensures within { IfStatement result (λ s after. after ≤ length bytes.now) }
    // The end is told exactly where white space and comments alone follow, memory or not.
    ensures end { (result ≡ Ok Read.End) ↔ OnlyBlank bytes.now at }
{
    match wide_at(alloc, bytes, at)? {
        Start::Wide(wide) => read_wide(alloc, &wide),
        Start::Refused(place) => Err(ReadRefusal::Syntax { at: place }),
        Start::End => Ok(Read::End),
    }
}

/// A place of a text has one answer at most.
pub fn answers_are_equal()
    ensures { OneAnswer }
{}
