// What a case gives to a run: the words, the source, the library and the sinks.
ghost use Rattle.std.specs.Prelude.{◌<◌, IfOk};

use crate::fields::{has_one, joined, number_or, numbers, text_of};
use case_tables::{Case, CaseFault, Field};
use std::alloc::Global;
use zm_base::{MemLibrary, MemSink, MemSource};

// How many bytes a sink takes, in all and at once, where the case says nothing.
const ROOM: usize = 1_048_576;

// The words of a case that tell one of the sinks.
#[derive(Clone, Copy)]
pub(crate) struct SinkWords {
    room: &'static str,
    piece: &'static str,
    fails: &'static str,
}

pub(crate) const OUT: SinkWords = SinkWords {
    room: "out-room",
    piece: "out-piece",
    fails: "out-fails",
};

pub(crate) const DIAG: SinkWords = SinkWords {
    room: "diag-room",
    piece: "diag-piece",
    fails: "diag-fails",
};

// Adds the word that a value holds.
fn add_word(alloc: Global, words: &mut Vec<String>, value: &[u8]) -> Result<(), CaseFault> {
    let word = text_of(alloc, value)?;
    match words.push(word) {
        Ok(()) => Ok(()),
        Err(_) => Err(CaseFault::Memory),
    }
}

// The words that a case lists.
fn listed(alloc: Global, case: &Case) -> Result<Vec<String>, CaseFault> {
    let mut words = Vec::new(alloc);
    for field in case.fields.as_slice() {
        if field.word.as_str() == "word" {
            add_word(alloc, &mut words, field.value.as_slice())?;
        }
    }
    Ok(words)
}

// The words `prove -`.
fn usual(alloc: Global) -> Result<Vec<String>, CaseFault> {
    let mut words = Vec::new(alloc);
    add_word(alloc, &mut words, b"prove")?;
    add_word(alloc, &mut words, b"-")?;
    Ok(words)
}

// The words of the command: those that are listed, none, or `prove -`.
pub(crate) fn command(alloc: Global, case: &Case) -> Result<Vec<String>, CaseFault> {
    match (has_one(case, "no-words")?, case.first("word").is_some()) {
        (true, true) => Err(CaseFault::Broken),
        (true, false) => Ok(Vec::new(alloc)),
        (false, true) => listed(alloc, case),
        (false, false) => usual(alloc),
    }
}

// The most bytes that a call takes or gives, of which there is one at least.
fn piece(case: &Case, word: &str, otherwise: usize) -> Result<usize, CaseFault>
    requires { 0 < otherwise }
    ensures { IfOk result (λ n. 0 < n) }
{
    match number_or(case, word, otherwise) {
        Ok(0) => Err(CaseFault::Broken),
        Ok(n) => Ok(n),
        Err(fault) => Err(fault),
    }
}

// Where the program reads from.
pub(crate) fn source(alloc: Global, case: &Case) -> Result<MemSource, CaseFault> {
    let piece = piece(case, "source-piece", usize::MAX)?;
    let fails = numbers(alloc, case, "source-fails")?;
    let bytes = joined(alloc, case, "text")?;
    Ok(MemSource::new(bytes, piece, fails))
}

// A file with this name, and nothing in it so far.
fn add_file(
    alloc: Global,
    files: &mut Vec<(String, Vec<u8>)>,
    name: &[u8],
) -> Result<(), CaseFault> {
    let name = text_of(alloc, name)?;
    match files.push((name, Vec::new(alloc))) {
        Ok(()) => Ok(()),
        Err(_) => Err(CaseFault::Memory),
    }
}

// More of the last file. Content of no file makes the case broken.
fn add_content(files: &mut Vec<(String, Vec<u8>)>, content: &[u8]) -> Result<(), CaseFault> {
    match files.last_mut() {
        Some((_, bytes)) => Ok(bytes.extend_from_slice(content)?),
        None => Err(CaseFault::Broken),
    }
}

// Takes up a field that tells of the files.
fn add_field(
    alloc: Global,
    files: &mut Vec<(String, Vec<u8>)>,
    field: &Field,
) -> Result<(), CaseFault> {
    match field.word.as_str() {
        "file" => add_file(alloc, files, field.value.as_slice()),
        "content" => add_content(files, field.value.as_slice()),
        _ => Ok(()),
    }
}

// The files that a case names, each with what it holds.
fn files(alloc: Global, case: &Case) -> Result<Vec<(String, Vec<u8>)>, CaseFault> {
    let mut files = Vec::new(alloc);
    for field in case.fields.as_slice() {
        add_field(alloc, &mut files, field)?;
    }
    Ok(files)
}

// Where the program gets files from.
pub(crate) fn library(alloc: Global, case: &Case) -> Result<MemLibrary, CaseFault> {
    let fails = numbers(alloc, case, "library-fails")?;
    let files = files(alloc, case)?;
    Ok(MemLibrary::new(files, fails))
}

// Where the program writes to.
pub(crate) fn sink(alloc: Global, case: &Case, words: SinkWords) -> Result<MemSink, CaseFault> {
    let room = number_or(case, words.room, ROOM)?;
    let piece = piece(case, words.piece, ROOM)?;
    let fails = numbers(alloc, case, words.fails)?;
    Ok(MemSink::new(alloc, room, piece, fails)?)
}
