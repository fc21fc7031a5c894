// A sink in memory.
ghost use Rattle.std.specs.Prelude.{◌≡◌, ◌≤◌, ◌<◌, ◌↔◌, ◌++◌, ◌-◌, min, take, [], Some, length, IfOk, IsErr, IsTrue, OnErr};
ghost use Rattle.zm_base.specs.Outside.{HasCause, Takes, Counts, number_of, raised};
ghost use Rattle.zm_base.specs.Memory.{Refuses};

use crate::traits::{Failed, Sink};
use std::alloc::{AllocError, Global};
use std::marker::Model;

/// A buffer whose capacity is taken when it is made, with calls that fail.
///
/// A write of a non-empty piece with no room left is a fault. No write takes memory. A call's
/// number is counted from 1 and stays at `u64::MAX` once it is there.
#[derive(Drop)]
pub struct MemSink {
    buffer: Vec<u8>,
    capacity: usize,
    piece: usize,
    fails: Vec<u64>,
    calls: u64,
    faults: u64,
}

impl Model for MemSink {
    ghost use Rattle.std.specs.Prelude.{◌≤◌, ◌<◌, vec_len, vec_capacity};
    ghost use Rattle.zm_base.specs.Memory.{MemorySink};

    ghost Value = { MemorySink };

    ghost view = { λ s. record {
      held = s.buffer.items;
      capacity = s.capacity;
      piece = s.piece;
      fails = s.fails.items;
      calls = s.calls;
      faults = s.faults;
    } };

    ghost invariant = { λ s. (vec_len s.buffer ≤ s.capacity)
        × (s.capacity ≤ vec_capacity s.buffer) × (0 < s.piece) };
}

impl MemSink {
    /// An empty buffer of this capacity. `piece` is the most that one call takes, and `fails`
    /// lists the numbers of the calls that fail, the first call being 1.
    ///
    /// Fails only for want of memory.
    pub fn new(
        alloc: Global,
        capacity: usize,
        piece: usize,
        fails: Vec<u64>,
    ) -> Result<Self, AllocError>
        requires { 0 < piece }
        ensures { IfOk result (λ s. s ≡ record {
          held = [];
          capacity = capacity;
          piece = piece;
          fails = fails.items;
          calls = 0;
          faults = 0;
        }) }
    {
        Ok(MemSink {
            buffer: Vec::with_capacity(alloc, capacity)?,
            capacity,
            piece,
            fails,
            calls: 0,
            faults: 0,
        })
    }

    /// The bytes that it took. There are never more than its capacity.
    pub fn held(&self) -> &[u8]
        ensures bytes { result.now ≡ self.now.held }
        ensures within { length result.now ≤ self.now.capacity }
    {
        &self.buffer
    }

    // Whether the next call fails on these bytes.
    fn refuses(&self, bytes: &[u8]) -> bool
        ensures { IsTrue result ↔ Refuses self.now bytes.now }
    {
        let number = self.calls.saturating_add(1);
        let full = self.capacity <= self.buffer.len();
        self.fails.contains(&number) || (full && !bytes.is_empty())
    }
}

impl Sink for MemSink {
    ghost use Rattle.std.proofs.Math.Nat.{min-le_right};
    ghost use Rattle.zm_base.specs.Outside.{last_count, number_of};

    ghost faults = { λ s. s.faults };

    ghost held = { λ s. Some s.held };

    ghost taken = { λ s. Some (number_of s.held) };

    ghost taken_fits = { λ s. min-le_right (length s.held) last_count };

    fn write(&mut self, bytes: &[u8]) -> Result<usize, Failed>
        ensures count { IfOk result (λ n. n ≤ length bytes.now) }
        ensures some { IfOk result (λ n. 0 < length bytes.now → 0 < n) }
        ensures held { IfOk result (λ n. Takes (take n bytes.now) (Some self.old.held) (Some self.new.held)) }
        ensures taken { IfOk result (λ n.
            Counts n (Some (number_of self.old.held)) (Some (number_of self.new.held))) }
        ensures err { OnErr result ((Some self.new.held ≡ Some self.old.held)
            × (Some (number_of self.new.held) ≡ Some (number_of self.old.held))) }
        ensures cause { HasCause self.old.faults self.new.faults result }

        // What this sink does beyond what each sink does.
        ensures fails { IsErr result ↔ Refuses self.old bytes.now }
        ensures amount { IfOk result (λ n. n ≡ min (length bytes.now)
            (min self.old.piece (self.old.capacity - length self.old.held))) }
        ensures moves { IfOk result (λ n. self.new ≡ record self.old {
          held = self.old.held ++ take n bytes.now;
          calls = raised self.old.calls;
        }) }
        ensures stays { OnErr result (self.new ≡ record self.old {
          calls = raised self.old.calls;
          faults = raised self.old.faults;
        }) }
    {
        let refused = self.refuses(bytes);
        let room = self.capacity - self.buffer.len();
        let n = bytes.len().min(self.piece).min(room);
        self.calls = self.calls.saturating_add(1);
        if refused || self.buffer.extend_from_slice(&bytes[..n]).is_err() {
            self.faults = self.faults.saturating_add(1);
            return Err(Failed);
        }
        Ok(n)
    }
}
