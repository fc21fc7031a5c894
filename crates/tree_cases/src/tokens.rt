use crate::heads::{Head, decimal, head_of};
use crate::ranges::cut;
use case_tables::CaseFault;
use std::alloc::Global;

/// A part of a text.
#[derive(Clone, Copy)]
pub(crate) enum Token {
    /// A bracket with the head behind it, and how often the head stands one in the other.
    Open(Head, u64),
    /// A head that stands alone.
    Leaf(Head),
    /// A closing bracket.
    Close,
}

// The word at the front, and what comes behind.
fn word(text: &[u8]) -> (&[u8], &[u8]) {
    for at in 0..text.len() {
        if matches!(text[at], b' ' | b'(' | b')') {
            return (&text[..at], &text[at..]);
        }
    }
    (text, &[])
}

// What stands behind an opening bracket.
fn opening(word: &[u8]) -> Option<Token> {
    let (name, number) = cut(word, b'^');
    let times = match number {
        Some(digits) => decimal(digits)?,
        None => 1,
    };
    if times == 0 {
        return None;
    }
    Some(Token::Open(head_of(name)?, times))
}

// A head that stands alone.
fn leaf(word: &[u8]) -> Option<Token> {
    Some(Token::Leaf(head_of(word)?))
}

// The part at the front of a text that begins with no space, and what comes behind.
fn first_token(text: &[u8]) -> Option<(Token, &[u8])> {
    match text {
        [b')', behind @ ..] => Some((Token::Close, behind)),
        [b'(', behind @ ..] => {
            let (word, rest) = word(behind);
            Some((opening(word)?, rest))
        }
        _ => {
            let (word, rest) = word(text);
            Some((leaf(word)?, rest))
        }
    }
}

// Adds the part at the front of a text, and gives what comes behind it.
fn put_token<'a>(tokens: &mut Vec<Token>, text: &'a [u8]) -> Result<&'a [u8], CaseFault> {
    let Some((token, rest)) = first_token(text) else {
        return Err(CaseFault::Broken);
    };
    match tokens.push(token) {
        Ok(()) => Ok(rest),
        Err(_) => Err(CaseFault::Memory),
    }
}

/// The parts of a text.
pub(crate) fn tokens(alloc: Global, text: &[u8]) -> Result<Vec<Token>, CaseFault> {
    let mut all = Vec::new(alloc);
    let mut rest = text;
    for _ in 0..text.len() {
        match rest {
            [] => break,
            [b' ', behind @ ..] => rest = behind,
            _ => rest = put_token(&mut all, rest)?,
        }
    }
    Ok(all)
}
