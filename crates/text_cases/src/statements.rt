// What is answered where a statement is to be read, and where.
ghost use Rattle.std.specs.Prelude.{◌≤◌, length};

use case_tables::{Case, CaseFault, Table};
use std::alloc::{AllocError, Global};
use tptp_reader::{Read, ReadRefusal, read_statement};

/// What is answered at a place of a text: the places of the statement, the end, or the refusal.
pub struct Statements;

// The places of what was read.
fn read_text(alloc: Global, read: &Read) -> Result<String, AllocError> {
    match read {
        Read::Statement(statement, after) => {
            let at = statement.at;
            format!(in alloc; "read {at}..{after}")
        }
        Read::End => String::from_str(alloc, "end"),
    }
}

// A refusal, and where it is.
fn refusal_text(alloc: Global, refusal: ReadRefusal) -> Result<String, AllocError> {
    match refusal {
        ReadRefusal::Syntax { at } => format!(in alloc; "Syntax {at}"),
        ReadRefusal::TooDeep { at } => format!(in alloc; "TooDeep {at}"),
        ReadRefusal::Unsupported { form, at } => format!(in alloc; "{form:?} {at}"),
        ReadRefusal::Memory => String::from_str(alloc, "memory"),
    }
}

// What is answered at a place of a text.
fn told(alloc: Global, text: &[u8], at: usize) -> Result<String, AllocError>
    requires { at ≤ length text.now }
{
    match read_statement(alloc, text, at) {
        Ok(read) => read_text(alloc, &read),
        Err(refusal) => refusal_text(alloc, refusal),
    }
}

impl Table for Statements {
    fn name(&self) -> &'static str {
        "statements"
    }

    fn words(&self) -> &'static [&'static str] {
        &["at"]
    }

    fn answer(&self, alloc: Global, case: &Case) -> Result<Vec<u8>, CaseFault> {
        let text = case.wanted(alloc, "text")?;
        let at = case.number("at", 0)?;
        if at > text.len() {
            return Err(CaseFault::Broken);
        }
        let out = told(alloc, text.as_slice(), at)?;
        Ok(out.into_bytes())
    }
}
