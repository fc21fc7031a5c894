ghost use Rattle.std.specs.Prelude.{◌≡◌, ◌<◌, [], ◌∷◌, length, MatchOption, IfOk, IfSome};
ghost use Rattle.tptp_reader.specs.Grammar.{unescaped};

use crate::text::Text;
use std::alloc::{AllocError, Global};

// The first byte that is meant, and the bytes behind it.
fn meant(bytes: &[u8]) -> Option<(u8, &[u8])>
    ensures value { MatchOption result (bytes.now ≡ []) (λ r. unescaped bytes.now ≡ r.0 ∷ unescaped r.1.now) }
    ensures shorter { IfSome result (λ r. length r.1.now < length bytes.now) }
{
    match bytes {
        [] => None,
        [first, others @ ..] => {
            if *first == b'\\' {
                match others {
                    [second, more @ ..] => return Some((*second, more)),
                    [] => {}
                }
            }
            Some((*first, others))
        }
    }
}

// The bytes that are meant.
fn meant_bytes(alloc: Global, bytes: &[u8]) -> Result<Vec<u8>, AllocError>
    ensures { IfOk result (λ v. v.items ≡ unescaped bytes.now) }
{
    let mut all = Vec::new(alloc);
    let mut rest = bytes;
    while let Some((byte, others)) = meant(rest) {
        all.push(byte)?;
        rest = others;
    }
    Ok(all)
}

/// The name of a file: behind a backslash stands the byte that is meant.
pub fn unescaped(alloc: Global, text: &str) -> Result<Text, AllocError>
    ensures { IfOk result (λ t. t ≡ unescaped text.now) }
{
    let bytes = meant_bytes(alloc, text.as_bytes())?;
    match std::str::from_utf8(bytes.as_slice()) {
        Ok(name) => Text::of(alloc, name),
        Err(_) => unreachable!(),
    }
}
