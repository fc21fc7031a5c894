// Sources in memory.
ghost use Rattle.std.specs.Prelude.{◌≡◌, ◌≤◌, ◌<◌, ◌↔◌, ◌++◌, min, take, drop, Some, length, IfOk, IsOk, IsErr, OnErr, Contains};
ghost use Rattle.zm_base.specs.Outside.{HasCause, IsFront, AtEnd, raised};

use crate::traits::{Failed, Source};
use std::marker::Model;

/// Bytes in memory that are given in pieces, with calls that fail.
///
/// A call's number is counted from 1 and stays at `u64::MAX` once it is there.
#[derive(Drop)]
pub struct MemSource {
    bytes: Vec<u8>,
    at: usize,
    piece: usize,
    fails: Vec<u64>,
    calls: u64,
    faults: u64,
}

impl Model for MemSource {
    ghost use Rattle.std.specs.Prelude.{◌≤◌, ◌<◌, drop, vec_len};
    ghost use Rattle.zm_base.specs.Memory.{MemorySource};

    ghost Value = { MemorySource };

    ghost view = { λ s. record {
      left = drop s.at s.bytes.items;
      piece = s.piece;
      fails = s.fails.items;
      calls = s.calls;
      faults = s.faults;
    } };

    ghost invariant = { λ s. (s.at ≤ vec_len s.bytes) × (0 < s.piece) };
}

/// Bytes in memory. It gives as many as fit the buffer, and never fails.
#[derive(Drop)]
pub struct QuietSource {
    bytes: Vec<u8>,
    at: usize,
}

impl Model for QuietSource {
    ghost use Rattle.std.specs.Prelude.{List, ℕ, ◌≤◌, drop, vec_len};

    ghost Value = { List ℕ };

    ghost view = { λ s. drop s.at s.bytes.items };

    ghost invariant = { λ s. s.at ≤ vec_len s.bytes };
}

// Copies a front of `from` over the front of `to`: as much as both have, but at most `most`.
fn copy_front(from: &[u8], to: &mut [u8], most: usize) -> usize
    ensures count { result ≡ min (length to.old) (min most (length from.now)) }
    ensures front { to.new ≡ take result from.now ++ drop result to.old }
{
    let n = from.len().min(to.len()).min(most);
    to[..n].copy_from_slice(&from[..n]);
    n
}

impl MemSource {
    /// A source of these bytes. `piece` is the most that one call gives, and `fails` lists the
    /// numbers of the calls that fail, the first call being 1.
    pub fn new(bytes: Vec<u8>, piece: usize, fails: Vec<u64>) -> Self
        requires { 0 < piece }
        ensures { result ≡ record {
          left = bytes.items;
          piece = piece;
          fails = fails.items;
          calls = 0;
          faults = 0;
        } }
    {
        MemSource {
            bytes,
            at: 0,
            piece,
            fails,
            calls: 0,
            faults: 0,
        }
    }
}

impl Source for MemSource {
    ghost faults = { λ s. s.faults };

    ghost left = { λ s. Some s.left };

    fn read(&mut self, buffer: &mut [u8]) -> Result<usize, Failed>
        ensures count { IfOk result (λ n. n ≤ length buffer.old) }
        ensures got { IfOk result (λ n.
            IsFront (take n buffer.new) (Some self.old.left) (Some self.new.left)) }
        ensures end { IfOk result (λ n. 0 < length buffer.old → n ≡ 0 → AtEnd (Some self.old.left)) }
        ensures err { OnErr result (Some self.new.left ≡ Some self.old.left) }
        ensures cause { HasCause self.old.faults self.new.faults result }

        // What this source does beyond what each source does.
        ensures fails { IsErr result ↔ Contains self.old.fails (raised self.old.calls) }
        ensures amount { IfOk result (λ n.
            n ≡ min (length buffer.old) (min self.old.piece (length self.old.left))) }
        ensures bytes { IfOk result (λ n. buffer.new ≡ take n self.old.left ++ drop n buffer.old) }
        ensures moves { IfOk result (λ n. self.new ≡ record self.old {
          left = drop n self.old.left;
          calls = raised self.old.calls;
        }) }
        ensures stays { OnErr result (self.new ≡ record self.old {
          calls = raised self.old.calls;
          faults = raised self.old.faults;
        }) }
        ensures untouched { OnErr result (buffer.new ≡ buffer.old) }
    {
        self.calls = self.calls.saturating_add(1);
        if self.fails.contains(&self.calls) {
            self.faults = self.faults.saturating_add(1);
            return Err(Failed);
        }
        let n = copy_front(&self.bytes[self.at..], buffer, self.piece);
        self.at += n;
        Ok(n)
    }
}

impl QuietSource {
    /// A source of these bytes.
    pub fn new(bytes: Vec<u8>) -> Self
        ensures { result ≡ bytes.items }
    {
        QuietSource { bytes, at: 0 }
    }
}

impl Source for QuietSource {
    ghost faults = { λ s. 0 };

    ghost left = { λ s. Some s };

    fn read(&mut self, buffer: &mut [u8]) -> Result<usize, Failed>
        ensures count { IfOk result (λ n. n ≤ length buffer.old) }
        ensures got { IfOk result (λ n. IsFront (take n buffer.new) (Some self.old) (Some self.new)) }
        ensures end { IfOk result (λ n. 0 < length buffer.old → n ≡ 0 → AtEnd (Some self.old)) }
        ensures err { OnErr result (Some self.new ≡ Some self.old) }
        ensures cause { HasCause 0 0 result }

        // What this source does beyond what each source does.
        ensures succeeds { IsOk result }
        ensures amount { IfOk result (λ n. n ≡ min (length buffer.old) (length self.old)) }
        ensures bytes { IfOk result (λ n. buffer.new ≡ take n self.old ++ drop n buffer.old) }
        ensures moves { IfOk result (λ n. self.new ≡ drop n self.old) }
    {
        let n = copy_front(&self.bytes[self.at..], buffer, usize::MAX);
        self.at += n;
        Ok(n)
    }
}
