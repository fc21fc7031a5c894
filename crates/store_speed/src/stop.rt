use std::alloc::AllocError;
use term_store::MkFault;
use unify::MguFault;

/// Why nothing was timed.
#[derive(Clone, Copy, Debug, PartialEq, Eq)]
pub enum Stop {
    /// Memory is wanting.
    Memory,
    /// A term is deeper than a store takes.
    Deep,
    /// Two terms have no unifier.
    Apart,
}

impl From<AllocError> for Stop {
    fn from(_e: AllocError) -> Stop {
        Stop::Memory
    }
}

impl From<MguFault> for Stop {
    fn from(e: MguFault) -> Stop {
        match e {
            MguFault::Memory => Stop::Memory,
            MguFault::Deep { at: _ } => Stop::Deep,
        }
    }
}

/// Why a node wasn't stored.
pub fn of_node<N: Drop>(fault: MkFault<N>) -> Stop {
    match fault {
        MkFault::Memory => Stop::Memory,
        MkFault::Deep(_) => Stop::Deep,
    }
}
