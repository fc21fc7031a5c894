use std::alloc::{AllocError, Global};

/// A word of a case, and its value, with the escapes resolved and repeated as often as the line says.
#[derive(Debug, Drop)]
pub struct Field {
    pub word: String,
    pub value: Vec<u8>,
}

/// A case: its words and their values in order, and the line of the first, counted from 1.
#[derive(Debug, Drop)]
pub struct Case {
    pub line: usize,
    pub fields: Vec<Field>,
}

/// Why a case can't be answered: no memory, or a word that it lacks or whose value isn't understood.
#[derive(Clone, Copy, Debug, PartialEq, Eq)]
pub enum CaseFault {
    Memory,
    Broken,
}

impl From<AllocError> for CaseFault {
    fn from(_: AllocError) -> CaseFault {
        CaseFault::Memory
    }
}

// The number that decimal digits write.
fn decimal(bytes: &[u8]) -> Option<usize> {
    match std::str::from_utf8(bytes) {
        Ok(text) => text.parse::<usize>().ok(),
        Err(_) => None,
    }
}

impl Case {
    /// The first value of this word.
    pub fn first(&self, word: &str) -> Option<&[u8]> {
        for field in self.fields.as_slice() {
            if field.word.as_str() == word {
                return Some(field.value.as_slice());
            }
        }
        None
    }

    /// All values of this word, joined; none where the case hasn't got it.
    pub fn joined(&self, alloc: Global, word: &str) -> Result<Option<Vec<u8>>, AllocError> {
        let mut all = Vec::new(alloc);
        for field in self.fields.as_slice() {
            if field.word.as_str() == word {
                all.extend_from_slice(field.value.as_slice())?;
            }
        }
        Ok(if self.first(word).is_some() {
            Some(all)
        } else {
            None
        })
    }

    /// All values of this word, joined; the case is broken where it hasn't got it.
    pub fn wanted(&self, alloc: Global, word: &str) -> Result<Vec<u8>, CaseFault> {
        match self.joined(alloc, word) {
            Ok(Some(value)) => Ok(value),
            Ok(None) => Err(CaseFault::Broken),
            Err(AllocError) => Err(CaseFault::Memory),
        }
    }

    /// The number that is the first value of this word, or another where the case hasn't got it.
    pub fn number(&self, word: &str, otherwise: usize) -> Result<usize, CaseFault> {
        match self.first(word) {
            Some(value) => match decimal(value) {
                Some(number) => Ok(number),
                None => Err(CaseFault::Broken),
            },
            None => Ok(otherwise),
        }
    }
}

// Whether a word is one of these.
pub(crate) fn is_one_of(word: &str, words: &[&str]) -> bool {
    for known in words {
        if *known == word {
            return true;
        }
    }
    false
}
