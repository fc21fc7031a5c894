ghost use Rattle.std.specs.Prelude.{◌≡◌};
ghost use Rattle.term_store.specs.declared.fault.EnterFault.TheVariants.{Memory};

use crate::ids::FormId;
use std::alloc::{AllocError, AllocFailed};

/// Why a node wasn't stored.
#[derive(Drop)]
pub enum MkFault<N> {
    /// Memory is wanting.
    Memory,
    /// The tree would be deeper than 2,000. The node is handed back.
    Deep(N),
}

/// Why a formula wasn't opened or closed.
#[derive(Clone, Copy, Debug, PartialEq, Eq)]
pub enum OpenFault {
    /// Memory is wanting.
    Memory,
    /// The opened or closed formula would be deeper than 2,000. The given formula is named.
    Deep { at: FormId },
}

/// Why a tree wasn't stored.
#[derive(Clone, Copy, Debug, PartialEq, Eq)]
pub enum EnterFault {
    /// Memory is wanting.
    Memory,
    /// The tree is deeper than 2,000.
    Deep,
}

impl From<AllocError> for EnterFault {
    ghost from_gives = { λ _ e. e ≡ Memory };

    fn from(_e: AllocError) -> EnterFault {
        EnterFault::Memory
    }
}

impl<T: Drop> From<AllocFailed<T>> for EnterFault {
    ghost from_gives = { λ _ e. e ≡ Memory };

    fn from(_e: AllocFailed<T>) -> EnterFault {
        EnterFault::Memory
    }
}
