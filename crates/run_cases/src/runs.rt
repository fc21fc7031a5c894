use crate::fields::{has_one, joined, number_or};
use crate::outside::{DIAG, OUT, command, library, sink, source};
use crate::told::{all_told, status_told};
use case_tables::{Case, CaseFault, Table};
use std::alloc::Global;
use zenon_modulo::run;
use zm_base::{MemLibrary, MemSource};

const WORDS: [&str; 18] = [
    "word",
    "no-words",
    "source-piece",
    "source-fails",
    "file",
    "content",
    "library-fails",
    "status",
    "out",
    "out-room",
    "out-piece",
    "out-fails",
    "front",
    "goal",
    "diag",
    "diag-room",
    "diag-piece",
    "diag-fails",
];

/// A table of whole runs.
pub struct Runs {
    pub name: &'static str,
}

// Whether what the sinks hold is compared too.
fn tells_sinks(case: &Case) -> bool {
    case.first("out").is_some() || case.first("diag").is_some()
}

// How the run of a case is to end.
fn wanted(alloc: Global, case: &Case) -> Result<Vec<u8>, CaseFault> {
    if !has_one(case, "status")? || case.first("wanted").is_some() {
        return Err(CaseFault::Broken);
    }
    let status = number_or(case, "status", 0)?;
    if !tells_sinks(case) {
        return Ok(status_told(alloc, status)?);
    }
    let out = wanted_out(alloc, case, status)?;
    let diag = joined(alloc, case, "diag")?;
    Ok(all_told(alloc, status, out.as_slice(), diag.as_slice())?)
}

// What the first sink is to hold: `out`, and of a proof the front of its file and the entries of `goal`.
fn wanted_out(alloc: Global, case: &Case, status: usize) -> Result<Vec<u8>, CaseFault> {
    let mut out = joined(alloc, case, "out")?;
    if status == 0 {
        let front = case.wanted(alloc, "front")?;
        out.extend_from_slice(front.as_slice())?;
        let goal = joined(alloc, case, "goal")?;
        out.extend_from_slice(goal.as_slice())?;
    }
    Ok(out)
}

// What is compared of what the first sink holds: all, but that a proof's file whose case gives no goal is compared up to
// the end of its front.
fn compared<'a>(
    alloc: Global,
    case: &Case,
    status: usize,
    held: &'a [u8],
) -> Result<&'a [u8], CaseFault> {
    if status != 0 || case.first("goal").is_some() {
        return Ok(held);
    }
    let wanted = wanted_out(alloc, case, status)?;
    Ok(&held[..held.len().min(wanted.len())])
}

// How the run of a case ends, with the words, the source and the library that it gives.
fn ended(
    alloc: Global,
    case: &Case,
    words: &[String],
    input: &mut MemSource,
    library: &mut MemLibrary,
) -> Result<Vec<u8>, CaseFault> {
    let mut out = sink(alloc, case, OUT)?;
    let mut diag = sink(alloc, case, DIAG)?;
    let ran = run(alloc, words, input, library, &mut out, &mut diag);
    let status = usize::from(ran.status);
    drop(ran);
    if !tells_sinks(case) {
        return Ok(status_told(alloc, status)?);
    }
    let out = compared(alloc, case, status, out.held())?;
    Ok(all_told(alloc, status, out, diag.held())?)
}

impl Table for Runs {
    fn name(&self) -> &'static str {
        self.name
    }

    fn words(&self) -> &'static [&'static str] {
        &WORDS
    }

    fn wanted(&self, alloc: Global, case: &Case) -> Result<Vec<u8>, CaseFault> {
        wanted(alloc, case)
    }

    fn answer(&self, alloc: Global, case: &Case) -> Result<Vec<u8>, CaseFault> {
        let words = command(alloc, case)?;
        let mut input = source(alloc, case)?;
        let mut library = library(alloc, case)?;
        ended(alloc, case, words.as_slice(), &mut input, &mut library)
    }
}
