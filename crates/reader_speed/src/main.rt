//! How fast statements are read: a program to be timed on a large text.
//!
//! It reads a text of at most 16 MiB from standard input, takes its statements one after another, and keeps none of
//! them. It prints how many it took, and where it stopped if a statement was refused; then it ends with status 1.
#![tactic(auto)]

mod counting;

use counting::{Count, counted};
use std::alloc::{AllocError, Global};
use std::process::ExitCode;
use tptp_reader::ReadRefusal;
use zm_base::{ReadStop, StdSink, StdSource, read_to_limit, write_all};

const INPUT_LIMIT: usize = 16_777_216;

// Where the count stopped before the end.
fn refusal_text(alloc: Global, refusal: ReadRefusal) -> Result<String, AllocError> {
    match refusal {
        ReadRefusal::Syntax { at }
        | ReadRefusal::TooDeep { at }
        | ReadRefusal::Unsupported { form: _, at } => format!(in alloc; ", refused at byte {at}"),
        ReadRefusal::Memory => String::from_str(alloc, ", no memory"),
    }
}

// The line that is printed.
fn line(alloc: Global, count: &Count) -> Result<String, AllocError> {
    let stopped = match count.refused {
        Some(refusal) => refusal_text(alloc, refusal)?,
        None => String::new(alloc),
    };
    let statements = count.statements;
    format!(in alloc; "{statements} statements{stopped}\n")
}

fn main(rt: HostRuntime) -> ExitCode {
    let alloc = rt.alloc();
    let mut input = StdSource::new(rt.stdin());
    let bytes = match read_to_limit(alloc, &mut input, INPUT_LIMIT) {
        Ok(bytes) => bytes,
        Err(ReadStop::TooLarge) => return ExitCode::from(2),
        Err(ReadStop::Failed | ReadStop::Memory) => return ExitCode::from(3),
    };
    let count = counted(alloc, bytes.as_slice());
    let Ok(text) = line(alloc, &count) else {
        return ExitCode::from(3);
    };
    let mut out = StdSink::stdout(rt.stdout());
    if write_all(&mut out, text.as_bytes()).is_err() {
        return ExitCode::from(3);
    }
    ExitCode::from(u8::from(count.refused.is_some()))
}
