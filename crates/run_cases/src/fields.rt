// What single words of a case say.
use case_tables::{Case, CaseFault};
use std::alloc::Global;

// The text that a value holds.
pub(crate) fn text_of(alloc: Global, value: &[u8]) -> Result<String, CaseFault> {
    match std::str::from_utf8(value) {
        Ok(text) => Ok(String::from_str(alloc, text)?),
        Err(_) => Err(CaseFault::Broken),
    }
}

// The number that a value writes in decimal digits.
fn number_of(value: &[u8]) -> Result<u64, CaseFault> {
    let Ok(text) = std::str::from_utf8(value) else {
        return Err(CaseFault::Broken);
    };
    match text.parse::<u64>() {
        Ok(number) => Ok(number),
        Err(_) => Err(CaseFault::Broken),
    }
}

// How often a word stands in a case.
fn count(case: &Case, word: &str) -> usize {
    let mut count = 0usize;
    for field in case.fields.as_slice() {
        if field.word.as_str() == word {
            count = count.saturating_add(1);
        }
    }
    count
}

// Whether a case has a word. One that stands twice makes the case broken.
pub(crate) fn has_one(case: &Case, word: &str) -> Result<bool, CaseFault> {
    match count(case, word) {
        0 => Ok(false),
        1 => Ok(true),
        _ => Err(CaseFault::Broken),
    }
}

// The number that a word gives, which stands at most once, or another where the case hasn't got the word.
pub(crate) fn number_or(case: &Case, word: &str, otherwise: usize) -> Result<usize, CaseFault> {
    if !has_one(case, word)? {
        return Ok(otherwise);
    }
    case.number(word, otherwise)
}

// Adds the number that a value writes.
fn add_number(numbers: &mut Vec<u64>, value: &[u8]) -> Result<(), CaseFault> {
    let number = number_of(value)?;
    match numbers.push(number) {
        Ok(()) => Ok(()),
        Err(_) => Err(CaseFault::Memory),
    }
}

// The numbers that a word gives, in order.
pub(crate) fn numbers(alloc: Global, case: &Case, word: &str) -> Result<Vec<u64>, CaseFault> {
    let mut numbers = Vec::new(alloc);
    for field in case.fields.as_slice() {
        if field.word.as_str() == word {
            add_number(&mut numbers, field.value.as_slice())?;
        }
    }
    Ok(numbers)
}

// All values of a word, joined; empty where the case hasn't got it.
pub(crate) fn joined(alloc: Global, case: &Case, word: &str) -> Result<Vec<u8>, CaseFault> {
    match case.joined(alloc, word)? {
        Some(value) => Ok(value),
        None => Ok(Vec::new(alloc)),
    }
}
