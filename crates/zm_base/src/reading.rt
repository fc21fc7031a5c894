ghost use Rattle.std.specs.Prelude.{◌≡◌, ◌<◌, ◌≤◌, ◌+◌, ◌++◌, true, false, ℕ, List, [], length, drop, vec_len, IfOk, IfSome};
ghost use Rattle.zm_base.specs.Outside.{Rose, IsFront, ReadsAtMost, AtEnd};

use crate::traits::Source;
use std::alloc::Global;

/// Why the bytes of a source were not all read.
#[derive(Clone, Copy, Debug, PartialEq, Eq)]
pub enum ReadStop {
    /// The source failed.
    Failed,
    /// There is a byte past the limit.
    TooLarge,
    /// There was no memory for the bytes.
    Memory,
}

const PIECE: usize = 4096;

// Reads once, at most `most` bytes, and puts them at the end of `got`. Says whether the source was
// at its end.
fn read_once<S: Source>(source: &mut S, got: &mut Vec<u8>, most: usize) -> Result<bool, ReadStop>
    requires { 0 < most }
    ensures got { IfOk result (λ ended. (piece : List ℕ) × (got.new.items ≡ got.old.items ++ piece)
        × (length piece ≤ most) × (ended ≡ false → 0 < length piece)
        × IsFront piece (S.left source.old) (S.left source.new)) }
    ensures ended { result ≡ Ok true → (got.new.items ≡ got.old.items) × AtEnd (S.left source.new) }
    ensures not_large { result ≡ Err ReadStop.TooLarge → ⊥ }
    ensures reads { ReadsAtMost most (S.left source.old) (S.left source.new) }
    ensures later { S.faults source.old ≤ S.faults source.new }
    ensures failed { result ≡ Err ReadStop.Failed → Rose (S.faults source.old) (S.faults source.new) }
{
    let mut buffer = [0u8; PIECE];
    let most = most.min(PIECE);
    let Ok(n) = source.read(&mut buffer[..most]) else {
        return Err(ReadStop::Failed);
    };
    if n == 0 {
        return Ok(true);
    }
    match got.extend_from_slice(&buffer[..n]) {
        Ok(()) => Ok(false),
        Err(_) => Err(ReadStop::Memory),
    }
}

/// Reads a source to its end, unless it has more bytes than `limit`.
///
/// No more than `limit + 1` bytes are read, whatever comes. After an error the source stands where
/// the call left it.
pub fn read_to_limit<S: Source>(
    alloc: Global,
    source: &mut S,
    limit: usize,
) -> Result<Vec<u8>, ReadStop>
    ensures all { IfOk result (λ bytes. IfSome (S.left source.old)
        (λ left. (bytes.items ≡ left) × (S.left source.new ≡ Some []))) }
    ensures fits { IfOk result (λ bytes. vec_len bytes ≤ limit) }
    ensures too_large { result ≡ Err ReadStop.TooLarge → IfSome (S.left source.old)
        (λ left. (limit < length left) × (S.left source.new ≡ Some (drop (limit + 1) left))) }
    ensures failed { result ≡ Err ReadStop.Failed → Rose (S.faults source.old) (S.faults source.new) }

    ensures reads { ReadsAtMost (limit + 1) (S.left source.old) (S.left source.new) }
    ensures later { S.faults source.old ≤ S.faults source.new }
{
    let mut got = Vec::new(alloc);
    loop {
        let most = (limit - got.len()).saturating_add(1);
        if read_once(source, &mut got, most)? {
            return Ok(got);
        }
        if got.len() > limit {
            return Err(ReadStop::TooLarge);
        }
    }
}
