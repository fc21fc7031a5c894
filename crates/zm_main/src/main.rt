//! The program: Zenon Modulo over standard input, the files of the system, standard output and standard error.
#![tactic(auto)]

use std::alloc::{AllocError, Global};
use std::env;
use std::io::ErrorKind;
use std::process::ExitCode;
use zenon_modulo::run;
use zm_base::{FileLibrary, StdSink, StdSource};

// The words behind the program's name.
fn behind_name(alloc: Global, all: env::Args) -> Result<Vec<String>, AllocError> {
    let mut words = Vec::new(alloc);
    for (i, word) in all.enumerate() {
        if i > 0 {
            words.push(word)?;
        }
    }
    Ok(words)
}

/// Runs the command of the words behind the program's name, and ends with the status of the answer. Where the words
/// themselves find no memory it ends with 7; words that are no text are answered as none are.
fn main(rt: HostRuntime) -> ExitCode {
    let alloc = rt.alloc();
    let words = match env::args(&rt) {
        Ok(all) => behind_name(alloc, all),
        Err(e) if e.kind() == ErrorKind::OutOfMemory => Err(AllocError),
        Err(_) => Ok(Vec::new(alloc)),
    };
    let Ok(words) = words else {
        return ExitCode::from(7);
    };
    let mut input = StdSource::new(rt.stdin());
    let mut library = FileLibrary::new(&rt);
    let mut out = StdSink::stdout(rt.stdout());
    let mut diag = StdSink::stderr(rt.stderr());
    let answered = run(alloc, &words, &mut input, &mut library, &mut out, &mut diag);
    let status = answered.status;
    drop(answered);
    ExitCode::from(status)
}
