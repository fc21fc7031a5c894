use case_tables::{Case, CaseFault, Field, Table};
use std::alloc::{AllocError, Global};
use std::fmt::Write;
use std::str;
use tptp_include::{GatherRefusal, Gathered, GatheredStatement, Place, gather};
use tptp_reader::{Body, Text};
use zm_base::MemLibrary;

// The most bytes of a text that can be gathered from.
const MOST_BYTES: usize = 16_777_216;

// A list of more statements is written as their number and the last of them.
const MOST_WRITTEN: usize = 100;

// Files, each with its name.
type Files = Vec<(String, Vec<u8>)>;

/// What is gathered from a text and files in memory.
pub struct Gathering;

// Puts a file with no bytes so far behind the others.
fn put_file(alloc: Global, files: &mut Files, name: &str) -> Result<(), AllocError> {
    let name = String::from_str(alloc, name)?;
    files.push((name, Vec::new(alloc)))?;
    Ok(())
}

// Puts bytes behind those of the last file, and says whether there is one.
fn put_bytes(files: &mut Files, bytes: &[u8]) -> Result<bool, AllocError> {
    match files.last_mut() {
        Some((_, held)) => {
            held.extend_from_slice(bytes)?;
            Ok(true)
        }
        None => Ok(false),
    }
}

// Takes a field that is a file's name or bytes, and says whether it could.
fn put_field(alloc: Global, files: &mut Files, field: &Field) -> Result<bool, AllocError> {
    if field.word.as_str() == "bytes" {
        return put_bytes(files, field.value.as_slice());
    }
    match str::from_utf8(field.value.as_slice()) {
        Ok(name) => {
            put_file(alloc, files, name)?;
            Ok(true)
        }
        Err(_) => Ok(false),
    }
}

// Whether the field speaks of a file.
fn is_of_a_file(field: &Field) -> bool {
    let word = field.word.as_str();
    word == "file" || word == "bytes"
}

// The files of a case.
fn files_of(alloc: Global, case: &Case) -> Result<Files, CaseFault> {
    let mut files = Vec::new(alloc);
    for field in case.fields.as_slice() {
        if is_of_a_file(field) && !put_field(alloc, &mut files, field)? {
            return Err(CaseFault::Broken);
        }
    }
    Ok(files)
}

// The number that decimal digits write.
fn number_of(bytes: &[u8]) -> Option<u64> {
    match str::from_utf8(bytes) {
        Ok(digits) => digits.parse::<u64>().ok(),
        Err(_) => None,
    }
}

// Puts the number of a call behind the others.
fn put_call(fails: &mut Vec<u64>, call: u64) -> Result<(), AllocError> {
    fails.push(call)?;
    Ok(())
}

// The numbers of the calls that fail.
fn fails_of(alloc: Global, case: &Case) -> Result<Vec<u64>, CaseFault> {
    let mut fails = Vec::new(alloc);
    for field in case.fields.as_slice() {
        if field.word.as_str() == "fails" {
            let Some(call) = number_of(field.value.as_slice()) else {
                return Err(CaseFault::Broken);
            };
            put_call(&mut fails, call)?;
        }
    }
    Ok(fails)
}

// The library of a case.
fn library_of(alloc: Global, case: &Case) -> Result<MemLibrary, CaseFault> {
    let files = files_of(alloc, case)?;
    let fails = fails_of(alloc, case)?;
    Ok(MemLibrary::new(files, fails))
}

// The name of a statement.
fn name_of(listed: &GatheredStatement) -> &str {
    match &listed.statement.body {
        Body::Formula { name, .. } | Body::Typing { name, .. } => name.text(),
        Body::Include { .. } => "an include",
    }
}

// A statement's name and place.
fn write_statement(line: &mut String, listed: &GatheredStatement) -> Result<(), AllocError> {
    line.push_str(name_of(listed))?;
    write!(line, "@{}", listed.file.text())?;
    write!(line, ":{}", listed.statement.at)
}

// Each statement.
fn write_each(line: &mut String, list: &[GatheredStatement]) -> Result<(), AllocError> {
    for listed in list {
        if !line.is_empty() {
            line.push_str(" ")?;
        }
        write_statement(line, listed)?;
    }
    Ok(())
}

// How many statements there are, and the last of them.
fn write_last(line: &mut String, list: &[GatheredStatement]) -> Result<(), AllocError> {
    write!(line, "{} statements", list.len())?;
    match list.last() {
        Some(last) => {
            line.push_str(" to ")?;
            write_statement(line, last)
        }
        None => Ok(()),
    }
}

// The statements.
fn write_list(line: &mut String, gathered: &Gathered) -> Result<(), AllocError> {
    let list = gathered.statements();
    if list.is_empty() {
        line.push_str("no statements")
    } else if list.len() > MOST_WRITTEN {
        write_last(line, list)
    } else {
        write_each(line, list)
    }
}

// What stands at a place.
fn write_place(line: &mut String, what: &str, place: &Place) -> Result<(), AllocError> {
    line.push_str(what)?;
    write!(line, " at {}", place.file.text())?;
    write!(line, ":{}", place.at)
}

// What is said of a name.
fn write_name(line: &mut String, what: &str, name: &Text) -> Result<(), AllocError> {
    line.push_str(what)?;
    line.push_str(" ")?;
    line.push_str(name.text())
}

// The refusal.
fn write_refusal(line: &mut String, refusal: &GatherRefusal) -> Result<(), AllocError> {
    match refusal {
        GatherRefusal::Syntax { place } => write_place(line, "syntax", place),
        GatherRefusal::TooDeep { place } => write_place(line, "too deep", place),
        GatherRefusal::Unsupported { form, place } => {
            write!(line, "unsupported {form:?}")?;
            write_place(line, "", place)
        }
        GatherRefusal::IncludeDepth { name } => write_name(line, "include depth", name),
        GatherRefusal::Cycle { name } => write_name(line, "cycle", name),
        GatherRefusal::Missing { name } => write_name(line, "missing", name),
        GatherRefusal::LibraryFault => line.push_str("library fault"),
        GatherRefusal::TooLarge => line.push_str("too large"),
        GatherRefusal::NoSuchFormula { name } => write_name(line, "no formula", name),
        GatherRefusal::Memory => Err(AllocError),
    }
}

// What is gathered from a text that is called `-`.
fn line_of(alloc: Global, library: &mut MemLibrary, text: &[u8]) -> Result<String, AllocError> {
    let mut line = String::new(alloc);
    if text.len() > MOST_BYTES {
        line.push_str("a text that is too large to be gathered from")?;
        return Ok(line);
    }
    match gather(alloc, library, "-", text) {
        Ok(gathered) => write_list(&mut line, &gathered)?,
        Err(refusal) => write_refusal(&mut line, &refusal)?,
    }
    Ok(line)
}

impl Table for Gathering {
    fn name(&self) -> &'static str {
        "gathering"
    }

    fn words(&self) -> &'static [&'static str] {
        &["file", "bytes", "fails"]
    }

    fn answer(&self, alloc: Global, case: &Case) -> Result<Vec<u8>, CaseFault> {
        let mut library = library_of(alloc, case)?;
        let text = case.wanted(alloc, "text")?;
        let line = line_of(alloc, &mut library, text.as_slice())?;
        Ok(line.into_bytes())
    }
}
