use crate::case::{CaseFault, Field};
use crate::escapes::resolved;
use std::alloc::Global;

// What stands before the first of these bytes, and what stands behind it; all and nothing where there is none.
fn cut(bytes: &[u8], mark: u8) -> (&[u8], Option<&[u8]>) {
    for at in 0..bytes.len() {
        if bytes[at] == mark {
            return (&bytes[..at], Some(&bytes[at + 1..]));
        }
    }
    (bytes, None)
}

/// The first line of a text, and what comes behind its end, if it has one.
pub(crate) fn first_line(text: &[u8]) -> (&[u8], Option<&[u8]>) {
    cut(text, b'\n')
}

// How often a value stands: once where nothing is said.
fn times(number: Option<&[u8]>) -> Option<usize> {
    match number {
        Some(digits) => match std::str::from_utf8(digits) {
            Ok(text) => text.parse::<usize>().ok(),
            Err(_) => None,
        },
        None => Some(1),
    }
}

// A word: one letter or more.
fn word(alloc: Global, bytes: &[u8]) -> Result<String, CaseFault> {
    if bytes.is_empty() {
        return Err(CaseFault::Broken);
    }
    match std::str::from_utf8(bytes) {
        Ok(text) => Ok(String::from_str(alloc, text)?),
        Err(_) => Err(CaseFault::Broken),
    }
}

// The bytes so many times.
fn repeated(alloc: Global, bytes: &[u8], times: usize) -> Result<Vec<u8>, CaseFault> {
    let mut all = Vec::new(alloc);
    for _ in 0..times {
        all.extend_from_slice(bytes)?;
    }
    Ok(all)
}

// The value that is written so.
fn value(alloc: Global, raw: &[u8], times: usize) -> Result<Vec<u8>, CaseFault> {
    match resolved(alloc, raw)? {
        Some(bytes) => repeated(alloc, bytes.as_slice(), times),
        None => Err(CaseFault::Broken),
    }
}

/// The word and the value of a line.
pub(crate) fn field(alloc: Global, line: &[u8]) -> Result<Field, CaseFault> {
    let (front, behind) = cut(line, b' ');
    let (name, number) = cut(front, b'*');
    let times = match times(number) {
        Some(0) | None => return Err(CaseFault::Broken),
        Some(times) => times,
    };
    let word = word(alloc, name)?;
    let value = value(alloc, behind.unwrap_or(&[]), times)?;
    Ok(Field { word, value })
}
