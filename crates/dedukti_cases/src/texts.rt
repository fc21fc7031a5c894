// What is printed of a Dedukti text, or why it isn't read.
use case_tables::{Case, CaseFault, Table};
use dk_printer::print;
use dk_reader::{DkReadRefusal, read_dk};
use lp_terms::DkFile;
use std::alloc::{AllocError, Global};
use zm_base::{CountSink, MemSink};

/// The file of a text, printed.
pub struct Texts;

// How many bytes the printed file has.
fn size(file: &DkFile) -> u64 {
    let mut sink = CountSink::new();
    let _ = print(file, &mut sink);
    sink.count()
}

/// The printed file.
pub fn printed(alloc: Global, file: &DkFile) -> Result<Vec<u8>, AllocError> {
    let room = size(file) as usize;
    let mut sink = MemSink::new(alloc, room, 4096, Vec::new(alloc))?;
    match print(file, &mut sink) {
        Ok(()) => Vec::from_slice(alloc, sink.held()),
        Err(_) => Err(AllocError),
    }
}

// A refusal, and where it is.
fn refusal_text(alloc: Global, refusal: DkReadRefusal) -> Result<String, AllocError> {
    match refusal {
        DkReadRefusal::Syntax { at } => format!(in alloc; "Syntax {at}"),
        DkReadRefusal::Unsupported { form, at } => format!(in alloc; "{form:?} {at}"),
        DkReadRefusal::TooDeep { at } => format!(in alloc; "TooDeep {at}"),
        DkReadRefusal::UnknownName { at } => format!(in alloc; "UnknownName {at}"),
        DkReadRefusal::Duplicate { at } => format!(in alloc; "Duplicate {at}"),
        DkReadRefusal::Memory => String::from_str(alloc, "memory"),
    }
}

/// The file of the text, printed; or the refusal.
pub fn told(alloc: Global, text: &[u8]) -> Result<Vec<u8>, AllocError> {
    match read_dk(alloc, text) {
        Ok(file) => printed(alloc, &file),
        Err(refusal) => {
            let text = refusal_text(alloc, refusal)?;
            Ok(text.into_bytes())
        }
    }
}

// Whether a text is read and printed as it stands.
fn is_kept(alloc: Global, text: &[u8]) -> Result<bool, AllocError> {
    let again = told(alloc, text)?;
    Ok(again.as_slice() == text)
}

// What is told of the printed text: itself, or its size.
fn shown(alloc: Global, text: Vec<u8>, by_size: bool) -> Result<Vec<u8>, AllocError> {
    if by_size {
        let size = text.len();
        let shown = format!(in alloc; "{size} bytes")?;
        return Ok(shown.into_bytes());
    }
    Ok(text)
}

// What is told of a text; of a printed text that isn't read and printed as it stands, that.
fn answer_to(alloc: Global, text: &[u8], by_size: bool) -> Result<Vec<u8>, AllocError> {
    let found = told(alloc, text)?;
    if !found.ends_with(b"\n") {
        return Ok(found);
    }
    if !is_kept(alloc, found.as_slice())? {
        return Ok(String::from_str(alloc, "not kept")?.into_bytes());
    }
    shown(alloc, found, by_size)
}

impl Table for Texts {
    fn name(&self) -> &'static str {
        "dedukti"
    }

    fn words(&self) -> &'static [&'static str] {
        &["size"]
    }

    fn answer(&self, alloc: Global, case: &Case) -> Result<Vec<u8>, CaseFault> {
        let text = case.wanted(alloc, "text")?;
        let by_size = case.first("size").is_some();
        let out = answer_to(alloc, text.as_slice(), by_size)?;
        Ok(out)
    }
}
