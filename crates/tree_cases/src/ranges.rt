use crate::heads::decimal;
use case_tables::CaseFault;
use std::alloc::{AllocError, Global};

/// What stands before the first of these bytes, and what stands behind it, if there is one.
pub(crate) fn cut(bytes: &[u8], mark: u8) -> (&[u8], Option<&[u8]>) {
    for at in 0..bytes.len() {
        if bytes[at] == mark {
            return (&bytes[..at], Some(&bytes[at + 1..]));
        }
    }
    (bytes, None)
}

// A text with a number for each `%`.
fn put_at(out: &mut String, text: &str, number: u64) -> Result<(), AllocError> {
    for letter in text.chars() {
        if letter == '%' {
            write!(out, "{number}")?;
        } else {
            out.push(letter)?;
        }
    }
    Ok(())
}

// A text for each number from the first to the last, upwards or downwards.
fn put_range(out: &mut String, text: &str, first: u64, last: u64) -> Result<(), AllocError> {
    if first <= last {
        for number in first..=last {
            put_at(out, text, number)?;
        }
    } else {
        for step in 0..=first - last {
            put_at(out, text, first.saturating_sub(step))?;
        }
    }
    Ok(())
}

// The two numbers and the text of what stands between braces.
fn parts(inside: &[u8]) -> Option<(u64, u64, &str)> {
    let (first, behind) = cut(inside, b' ');
    let (last, behind) = cut(behind?, b' ');
    match std::str::from_utf8(behind?) {
        Ok(text) => Some((decimal(first)?, decimal(last)?, text)),
        Err(_) => None,
    }
}

// Adds what braces stand for.
fn put_braced(out: &mut String, inside: &[u8]) -> Result<(), CaseFault> {
    match parts(inside) {
        Some((first, last, text)) => Ok(put_range(out, text, first, last)?),
        None => Err(CaseFault::Broken),
    }
}

// Adds what stands outside of braces.
fn put_plain(out: &mut String, bytes: &[u8]) -> Result<(), CaseFault> {
    match std::str::from_utf8(bytes) {
        Ok(text) => Ok(out.push_str(text)?),
        Err(_) => Err(CaseFault::Broken),
    }
}

// Adds the front of a text up to the end of its first braces, and gives what comes behind.
fn put_front<'a>(out: &mut String, text: &'a [u8]) -> Result<&'a [u8], CaseFault> {
    let (plain, behind) = cut(text, b'{');
    put_plain(out, plain)?;
    let Some(braced) = behind else {
        return Ok(&[]);
    };
    let (inside, behind) = cut(braced, b'}');
    let Some(rest) = behind else {
        return Err(CaseFault::Broken);
    };
    put_braced(out, inside)?;
    Ok(rest)
}

/// A text with what its braces stand for: `{A B text}` is the text once for each number from A to B, upwards or
/// downwards, with the number for each `%`.
pub(crate) fn expanded(alloc: Global, text: &[u8]) -> Result<String, CaseFault> {
    let mut out = String::new(alloc);
    let mut rest = text;
    for _ in 0..text.len() {
        if rest.is_empty() {
            break;
        }
        rest = put_front(&mut out, rest)?;
    }
    Ok(out)
}
