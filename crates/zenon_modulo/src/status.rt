ghost use Rattle.std.specs.Prelude.{◌≡◌};
ghost use Rattle.zenon_modulo.specs.Outcome.{status};

use crate::outcome::Outcome;

/// The exit status of an answer: 0 proved, 1 falsified, 2 unknown, 3 refused, 4 usage, 5 a fault of the source or the library,
/// 6 a fault of a sink, 7 want of memory.
pub fn status_of(outcome: &Outcome) -> u8
    ensures { result ≡ status outcome.now }
{
    match outcome {
        Outcome::Proved { .. } => 0,
        Outcome::Falsified { .. } => 1,
        Outcome::Unknown { .. } => 2,
        Outcome::Refused(_) => 3,
        Outcome::Usage(_) => 4,
        Outcome::ReadFault | Outcome::LibraryFault => 5,
        Outcome::WriteFault => 6,
        Outcome::Memory => 7,
    }
}
