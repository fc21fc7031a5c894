// A sink that counts.
ghost use Rattle.std.specs.Prelude.{◌≡◌, ◌≤◌, ◌<◌, ◌+◌, min, take, length, Some, None, IfOk, IsOk, OnErr};
ghost use Rattle.zm_base.specs.Outside.{Counts, HasCause, last_count};

use crate::traits::{Failed, Sink};
use std::marker::Model;

/// Counts the bytes that it takes, and keeps none of them. The count stays at `u64::MAX` once it is
/// there. It never fails.
#[derive(Drop)]
pub struct CountSink {
    count: u64,
}

impl Model for CountSink {
    ghost use Rattle.std.specs.Prelude.{ℕ};

    ghost Value = { ℕ };

    ghost view = { λ s. s.count };
}

impl CountSink {
    /// A sink that took nothing.
    pub fn new() -> Self
        ensures { result ≡ 0 }
    {
        CountSink { count: 0 }
    }

    /// The number of the bytes that it took.
    pub fn count(&self) -> u64
        ensures value { result ≡ self.now }
        ensures taken { Some result ≡ Some (min self.now last_count) }
    {
        self.count
    }
}

impl Sink for CountSink {
    ghost use Rattle.std.specs.Prelude.{ℕ};
    ghost use Rattle.std.proofs.Math.Nat.{min-le_right};
    ghost use Rattle.zm_base.specs.Outside.{last_count};

    ghost faults = { λ s. 0 };

    ghost held = { λ s. None };

    ghost taken = { λ s. Some (min s last_count) };

    ghost taken_fits = { λ s. min-le_right s last_count };

    fn write(&mut self, bytes: &[u8]) -> Result<usize, Failed>
        ensures count { IfOk result (λ n. n ≤ length bytes.now) }
        ensures some { IfOk result (λ n. 0 < length bytes.now → 0 < n) }
        ensures taken { IfOk result (λ n.
            Counts n (Some (min self.old last_count)) (Some (min self.new last_count))) }
        ensures err { OnErr result
            (Some (min self.new last_count) ≡ Some (min self.old last_count)) }
        ensures cause { HasCause 0 0 result }

        // What this sink does beyond what each sink does.
        ensures succeeds { IsOk result }
        ensures amount { IfOk result (λ n. n ≡ length bytes.now) }
        ensures moves { self.new ≡ min (self.old + length bytes.now) last_count }
    {
        self.count = self.count.saturating_add(bytes.len() as u64);
        Ok(bytes.len())
    }
}
