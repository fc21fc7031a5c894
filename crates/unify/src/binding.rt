ghost use Rattle.std.specs.Prelude.{◌≡◌};
ghost use Rattle.unify.specs.declared.binding.MguFault.TheVariants.{Memory};

use sqlite_items::Items;
use std::alloc::{AllocError, AllocFailed};
use term_store::{TermId, TyId};

/// A metavariable with the tree that it stands for.
#[derive(Clone, Copy, Debug, PartialEq, Eq)]
pub enum Binding {
    /// A metavariable over terms, which is a number with a type.
    OfTerm { meta: u64, ty: TyId, to: TermId },
    /// A metavariable over types.
    OfType { meta: u64, to: TyId },
}

/// A list of bindings. Contracts see it as a list.
pub type Bindings = Items<Binding>;

/// Why no answer was given.
#[derive(Clone, Copy, Debug, PartialEq, Eq)]
pub enum MguFault {
    /// Memory is wanting.
    Memory,
    /// With all bindings put in, a right side would be deeper than 2,000. The first such binding is named: one of a term
    /// by its right side as it was made, and one of a type metavariable by the metavariable over terms that has its
    /// number and, as its type, the right side as it was made.
    Deep { at: TermId },
}

impl From<AllocError> for MguFault {
    ghost from_gives = { λ _ e. e ≡ Memory };

    fn from(_e: AllocError) -> MguFault {
        MguFault::Memory
    }
}

impl<T: Drop> From<AllocFailed<T>> for MguFault {
    ghost from_gives = { λ _ e. e ≡ Memory };

    fn from(_e: AllocFailed<T>) -> MguFault {
        MguFault::Memory
    }
}
