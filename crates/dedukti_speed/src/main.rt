//! How fast Dedukti text is read and printed: a program to be timed on a large text.
//!
//! It reads a text of at most 16 MiB from standard input, prints the file that it is into memory, and tells how many entries
//! it has and how many bytes were printed. Of a text that is refused it tells the refusal. The status is 3 where memory or a stream fails.
#![tactic(auto)]

use dk_printer::print;
use dk_reader::{DkReadRefusal, read_dk};
use lp_terms::DkFile;
use std::alloc::{AllocError, Global};
use std::process::ExitCode;
use zm_base::{MemSink, StdSink, StdSource, read_to_limit, write_all};

const INPUT_LIMIT: usize = 16_777_216;

// The most that is printed: a text may grow where products get names.
const OUTPUT_LIMIT: usize = 67_108_864;

// The line on a file that was read.
fn counts(alloc: Global, file: &DkFile) -> Result<String, AllocError> {
    let mut sink = MemSink::new(alloc, OUTPUT_LIMIT, 4096, Vec::new(alloc))?;
    let _ = print(file, &mut sink);
    let entries = file.entries().len();
    let bytes = sink.held().len();
    format!(in alloc; "{entries} entries, printed as {bytes} bytes\n")
}

// The line on a text.
fn line(alloc: Global, text: &[u8]) -> Result<String, AllocError> {
    match read_dk(alloc, text) {
        Ok(file) => counts(alloc, &file),
        Err(DkReadRefusal::Memory) => Err(AllocError),
        Err(refusal) => format!(in alloc; "{refusal:?}\n"),
    }
}

fn main(rt: HostRuntime) -> ExitCode {
    let alloc = rt.alloc();
    let mut input = StdSource::new(rt.stdin());
    let Ok(bytes) = read_to_limit(alloc, &mut input, INPUT_LIMIT) else {
        return ExitCode::from(3);
    };
    let Ok(text) = line(alloc, bytes.as_slice()) else {
        return ExitCode::from(3);
    };
    let mut out = StdSink::stdout(rt.stdout());
    if write_all(&mut out, text.as_bytes()).is_err() {
        return ExitCode::from(3);
    }
    ExitCode::from(0)
}
