ghost use Rattle.std.specs.Prelude.{◌≡◌};
ghost use Rattle.param_store.specs.declared.fault.OfferFault.TheVariants.{Memory};

use std::alloc::{AllocError, AllocFailed};
use term_store::Redex;

/// Why offers weren't listed.
#[derive(Clone, Copy, Debug, PartialEq, Eq)]
pub enum OfferFault {
    /// Memory is wanting.
    Memory,
    /// A binding or a formula of a child would be deeper than 2,000. Of the first in order, the binding's right side is
    /// named, or the formula acted on.
    Deep { at: Redex },
}

impl From<AllocError> for OfferFault {
    ghost from_gives = { λ _ e. e ≡ Memory };

    fn from(_e: AllocError) -> OfferFault {
        OfferFault::Memory
    }
}

impl<T: Drop> From<AllocFailed<T>> for OfferFault {
    ghost from_gives = { λ _ e. e ≡ Memory };

    fn from(_e: AllocFailed<T>) -> OfferFault {
        OfferFault::Memory
    }
}
