ghost use Rattle.std.specs.Prelude.{◌≡◌};
ghost use Rattle.tff_typing.specs.declared.fault.Stop.TheVariants.{Memory};

use std::alloc::{AllocError, AllocFailed};
use zm_logic::Ty;

/// What stands in a place, or is wanted there.
#[derive(Drop)]
pub enum Found {
    /// A formula, `$o`.
    Truth,
    /// A term of the type. A type variable is `Bound(n)`, where `n` is the number of binders round its own binder.
    OfType(Ty),
}

/// What is wrong with a statement.
#[derive(Drop)]
pub enum Fault {
    /// A conjecture stands before it.
    SecondConjecture,
    /// The declared name was declared or used before.
    Redeclared,
    /// It needs symbol number 65,537.
    TooManySymbols,
    /// A variable isn't bound.
    Unbound,
    /// A declared symbol has another number of arguments.
    Arity,
    /// What stands in a type's place is no type.
    NotAType,
    /// What stands in a term's or a formula's place is a type.
    NotATerm,
    /// Something else is wanted in the place than what was found.
    Mismatch { wanted: Found, got: Found },
}

/// Why nothing was typed.
#[derive(Drop)]
pub enum Stop {
    /// Memory ran out.
    Memory,
    /// The fault that stands first.
    Refused(Fault),
}

impl From<AllocError> for Stop {
    ghost from_gives = { λ _ e. e ≡ Memory };

    fn from(_e: AllocError) -> Stop {
        Stop::Memory
    }
}

impl<T: Drop> From<AllocFailed<T>> for Stop {
    ghost from_gives = { λ _ e. e ≡ Memory };

    fn from(_e: AllocFailed<T>) -> Stop {
        Stop::Memory
    }
}
