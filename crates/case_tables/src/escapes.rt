use std::alloc::{AllocError, Global};

// The value of a hexadecimal digit.
fn hexadecimal(digit: u8) -> Option<u8> {
    match digit {
        b'0'..=b'9' => Some(digit - b'0'),
        b'a'..=b'f' => Some(digit - b'a' + 10),
        b'A'..=b'F' => Some(digit - b'A' + 10),
        _ => None,
    }
}

// The byte that two hexadecimal digits write.
fn byte_of(high: u8, low: u8) -> Option<u8> {
    match (hexadecimal(high), hexadecimal(low)) {
        (Some(high), Some(low)) => Some(high.wrapping_mul(16).wrapping_add(low)),
        _ => None,
    }
}

// The byte of a short escape.
fn short(letter: u8) -> Option<u8> {
    match letter {
        b'n' => Some(b'\n'),
        b't' => Some(b'\t'),
        b'r' => Some(b'\r'),
        b's' => Some(b' '),
        b'\\' => Some(b'\\'),
        _ => None,
    }
}

// The byte that the front of a value stands for, and what comes behind; none where an escape is broken or nothing is left.
fn next_byte(raw: &[u8]) -> Option<(u8, &[u8])> {
    match raw {
        [b'\\', b'x', high, low, rest @ ..] => match byte_of(*high, *low) {
            Some(byte) => Some((byte, rest)),
            None => None,
        },
        [b'\\', letter, rest @ ..] => match short(*letter) {
            Some(byte) => Some((byte, rest)),
            None => None,
        },
        [b'\\'] => None,
        [byte, rest @ ..] => Some((*byte, rest)),
        [] => None,
    }
}

/// The bytes that a value stands for; none where an escape is broken.
pub(crate) fn resolved(alloc: Global, raw: &[u8]) -> Result<Option<Vec<u8>>, AllocError> {
    let mut bytes = Vec::new(alloc);
    let mut rest = raw;
    for _ in 0..raw.len() {
        if rest.is_empty() {
            break;
        }
        let Some((byte, behind)) = next_byte(rest) else {
            return Ok(None);
        };
        bytes.push(byte)?;
        rest = behind;
    }
    Ok(Some(bytes))
}
