ghost use Rattle.std.specs.Prelude.{◌≡◌, IfOk, []};
ghost use Rattle.dk_checker.specs.Found as plain;
ghost use Rattle.dk_checker.specs.View.{refusal_of, halt_of, IsStop, IsInPart, InPart};
ghost use Rattle.dk_checker.specs.declared.stop.Stop.TheVariants.{Memory};

use crate::verdict::Class;
use lp_terms::Lp;
use sqlite_items::Items;
use std::alloc::{AllocError, Global};

/// What a refusal says of its place.
#[derive(Drop)]
pub enum Refusal {
    Mismatch {
        found: Class,
        wanted: Class,
        found_normal: Class,
        wanted_normal: Class,
    },
    NotProduct {
        found: Class,
        normal: Class,
    },
    NotSort {
        found: Class,
        normal: Class,
    },
    BodyKind,
    RuleHead,
}

/// Why a check stops, but for memory.
#[derive(Drop)]
pub enum Halt {
    /// A refusal at a place, which is a list of numbers of parts, the innermost first.
    Refused { path: Items<usize>, why: Refusal },
    /// More steps than the limit can be made from the term.
    Spent(Lp),
    /// A name or variable has no type.
    Unbound,
}

/// Why a check stops.
#[derive(Drop)]
pub enum Stop {
    Memory,
    Halted(Halt),
}

impl From<AllocError> for Stop {
    ghost from_gives = { λ _ e. e ≡ Memory };

    fn from(_e: AllocError) -> Stop {
        Stop::Memory
    }
}

/// The refusal of a place itself.
pub fn refused(alloc: Global, why: Refusal) -> Halt
    ensures { halt_of result ≡ plain.Stop.refused [] (refusal_of why) }
{
    Halt::Refused {
        path: Items::new(alloc),
        why,
    }
}

/// The same answer, or the stop in the part of that number.
pub fn in_part<T: Drop>(given: Result<T, Stop>, part: usize) -> Result<T, Stop>
    ensures { InPart part given result }
{
    match given {
        Ok(value) => Ok(value),
        Err(stop) => Err(stop_in_part(stop, part)),
    }
}

fn stop_in_part(stop: Stop, part: usize) -> Stop
    ensures { IsInPart part stop result }
{
    match stop {
        Stop::Memory => Stop::Memory,
        Stop::Halted(halt) => match halt_in_part(halt, part) {
            Ok(halt) => Stop::Halted(halt),
            Err(_) => Stop::Memory,
        },
    }
}

#[tactic(auto, using(crate::proofs::Told::path_grows))]
fn halt_in_part(halt: Halt, part: usize) -> Result<Halt, AllocError>
    ensures { IfOk result (λ h. halt_of h ≡ plain.in_part part (halt_of halt)) }
{
    match halt {
        Halt::Refused { path, why } => {
            let mut longer = path;
            longer.push(part)?;
            Ok(Halt::Refused { path: longer, why })
        }
        Halt::Spent(from) => Ok(Halt::Spent(from)),
        Halt::Unbound => Ok(Halt::Unbound),
    }
}

/// The stop at this place: a refusal's path is forgotten.
pub fn stop_here(alloc: Global, stop: Stop) -> Stop
    ensures { (s : plain.Stop) → IsStop s stop → IsStop (plain.at_place s) result }
{
    match stop {
        Stop::Memory => Stop::Memory,
        Stop::Halted(halt) => Stop::Halted(halt_here(alloc, halt)),
    }
}

fn halt_here(alloc: Global, halt: Halt) -> Halt
    ensures { halt_of result ≡ plain.at_place (halt_of halt) }
{
    match halt {
        Halt::Refused { path: _, why } => Halt::Refused {
            path: Items::new(alloc),
            why,
        },
        Halt::Spent(from) => Halt::Spent(from),
        Halt::Unbound => Halt::Unbound,
    }
}
