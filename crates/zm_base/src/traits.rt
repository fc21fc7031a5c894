ghost use Rattle.std.specs.Prelude.{◌≡◌, ◌<◌, ◌≤◌, ℕ, List, Option, length, take, IfOk, IfSome, OnOk, OnErr};
ghost use Rattle.zm_base.specs.Outside.{HasCause, IsFront, AtEnd, Takes, Counts, TakesPrefix, last_count};

/// The outside failed.
#[derive(Clone, Copy, Debug, PartialEq, Eq)]
pub struct Failed;

/// Where bytes come from.
pub trait Source {
    /// How many faults there were. It never falls, and stays at `u64::MAX` once it is there.
    ghost faults: { Self → ℕ };

    /// The bytes that are not read yet, where the source tells them.
    ghost left: { Self → Option (List ℕ) };

    /// Reads some bytes into the front of the buffer, and says how many they are. For a buffer
    /// that is not empty it is 0 only at the end.
    ///
    /// Fails only where there was a fault in this call. The bytes that are left are then as before.
    fn read(&mut self, buffer: &mut [u8]) -> Result<usize, Failed>
        ensures count { IfOk result (λ n. n ≤ length buffer.old) }
        ensures got { IfOk result (λ n. IsFront (take n buffer.new) (left self.old) (left self.new)) }
        ensures end { IfOk result (λ n. 0 < length buffer.old → n ≡ 0 → AtEnd (left self.old)) }
        ensures err { OnErr result (left self.new ≡ left self.old) }
        ensures cause { HasCause (faults self.old) (faults self.new) result };
}

/// Where bytes go.
pub trait Sink {
    /// How many faults there were. It never falls, and stays at `u64::MAX` once it is there.
    ghost faults: { Self → ℕ };

    /// The bytes that it took, where the sink tells them.
    ghost held: { Self → Option (List ℕ) };

    /// The number of the bytes that it took, where the sink tells it.
    ghost taken: { Self → Option ℕ };

    /// Takes a front of the bytes, and says how many they are: at least one, if there is one. A
    /// write that could take nothing of a piece that is not empty is a fault.
    ///
    /// Fails only where there was a fault in this call. What the sink holds is then as before.
    fn write(&mut self, bytes: &[u8]) -> Result<usize, Failed>
        ensures count { IfOk result (λ n. n ≤ length bytes.now) }
        ensures some { IfOk result (λ n. 0 < length bytes.now → 0 < n) }
        ensures held { IfOk result (λ n. Takes (take n bytes.now) (held self.old) (held self.new)) }
        ensures taken { IfOk result (λ n. Counts n (taken self.old) (taken self.new)) }
        ensures err { OnErr result
            ((held self.new ≡ held self.old) × (taken self.new ≡ taken self.old)) }
        ensures cause { HasCause (faults self.old) (faults self.new) result };

    /// The number of the bytes that it took stays at the last value of a count.
    ghost taken_fits: { (s : Self) → IfSome (taken s) (λ t. t ≤ last_count) };
}

/// Writes all of the bytes, in as many calls as the sink needs. It takes no memory.
///
/// Fails where a write failed. The sink then holds what it held and a proper prefix of the bytes.
pub fn write_all<K: Sink>(sink: &mut K, bytes: &[u8]) -> Result<(), Failed>
    ensures held { OnOk result (Takes bytes.now (K.held sink.old) (K.held sink.new)) }
    ensures taken { OnOk result (Counts (length bytes.now) (K.taken sink.old) (K.taken sink.new)) }
    ensures prefix { OnErr result (TakesPrefix bytes.now
        (K.held sink.old) (K.held sink.new) (K.taken sink.old) (K.taken sink.new)) }
    ensures cause { HasCause (K.faults sink.old) (K.faults sink.new) result }
{
    let mut at = 0;
    while at < bytes.len() {
        at += sink.write(&bytes[at..])?;
    }
    Ok(())
}
