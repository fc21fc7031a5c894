ghost use Rattle.std.specs.Prelude.{◌≡◌};
ghost use Rattle.branch.specs.declared.stop.BranchStop.TheVariants.{Memory};
ghost use Rattle.branch.specs.Listed.{stop_of};

use param_store::OfferFault;
use std::alloc::{AllocError, AllocFailed};
use term_store::{FormId, Redex};

/// Why the offers of a branch can't be made.
#[derive(Clone, Copy, Debug, PartialEq, Eq)]
pub enum BranchStop {
    /// Memory is wanting.
    Memory,
    /// The formula takes more steps to its normal form than it may.
    Spent { from: FormId },
    /// A binding or a formula of a child would be deeper than 2,000. Of the first in order, the binding's right side is
    /// named, or the formula acted on.
    Deep { at: Redex },
}

impl From<AllocError> for BranchStop {
    ghost from_gives = { λ _ e. e ≡ Memory };

    fn from(_e: AllocError) -> BranchStop {
        BranchStop::Memory
    }
}

impl<T: Drop> From<AllocFailed<T>> for BranchStop {
    ghost from_gives = { λ _ e. e ≡ Memory };

    fn from(_e: AllocFailed<T>) -> BranchStop {
        BranchStop::Memory
    }
}

impl From<OfferFault> for BranchStop {
    ghost from_gives = { λ fault e. e ≡ stop_of fault };

    fn from(fault: OfferFault) -> BranchStop {
        match fault {
            OfferFault::Memory => BranchStop::Memory,
            OfferFault::Deep { at } => BranchStop::Deep { at },
        }
    }
}
