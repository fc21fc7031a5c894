// Where files come from.
ghost use Rattle.std.specs.Prelude.{◌≡◌, ◌≤◌, ℕ, List, Option, IfOk, IfSome, length};
ghost use Rattle.zm_base.specs.Outside.{Rose};
ghost use Rattle.zm_base.specs.Library.{NamedFile, bytes_of, front_of};

use std::alloc::Global;

/// What a library answers for a name.
#[derive(Debug, Drop)]
pub enum Got {
    /// The first bytes of the file with that name, or all of them.
    Bytes(Vec<u8>),
    /// There is no file with that name.
    Missing,
}

/// Why a library gave no answer.
#[derive(Clone, Copy, Debug, PartialEq, Eq)]
pub enum LibFail {
    /// The library failed.
    Failed,
    /// There was no memory for the bytes.
    Memory,
}

/// Where files come from, each by its name.
pub trait Library {
    /// How many faults there were. It never falls, and stays at `u64::MAX` once it is there.
    ghost faults: { Self → ℕ };

    /// The files that it holds, where the library tells them.
    ghost files: { Self → Option (List NamedFile) };

    /// Gives the first `limit` bytes of the file with this name, or all of them where it is shorter.
    ///
    /// The files stay as they are, whatever the answer. Fails only where there was a fault in this
    /// call, or for want of memory.
    fn get(&mut self, alloc: Global, name: &str, limit: usize) -> Result<Got, LibFail>
        ensures got { IfOk result (λ got. IfSome (files self.old)
            (λ fs. bytes_of got ≡ front_of fs name.now limit)) }
        ensures within { IfOk result (λ got. IfSome (bytes_of got) (λ bytes. length bytes ≤ limit)) }
        ensures files { files self.new ≡ files self.old }
        ensures later { faults self.old ≤ faults self.new }
        ensures failed { result ≡ Err LibFail.Failed → Rose (faults self.old) (faults self.new) };
}
