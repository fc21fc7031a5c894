ghost use Rattle.std.specs.Prelude.{◌≡◌};
ghost use Rattle.tptp_include.specs.declared.refusal.GatherRefusal.TheVariants.{Memory};

use std::alloc::AllocError;
use tptp_reader::{Text, UnsupportedForm};

/// A place in a file.
#[derive(Debug, Drop)]
pub struct Place {
    /// The name of the file.
    pub file: Text,
    /// The number of the bytes before the place.
    pub at: usize,
}

/// Why no list was gathered.
#[derive(Debug, Drop)]
pub enum GatherRefusal {
    /// No statement of the grammar stands there.
    Syntax { place: Place },
    /// The statement there nests too deep.
    TooDeep { place: Place },
    /// A form that isn't read stands there.
    Unsupported { form: UnsupportedForm, place: Place },
    /// Sixteen includes lead to the include of this file.
    IncludeDepth { name: Text },
    /// The file includes itself, through others or at once.
    Cycle { name: Text },
    /// There is no such file.
    Missing { name: Text },
    /// The library failed.
    LibraryFault,
    /// The files have more than 16,777,216 bytes, each counted each time it is read.
    TooLarge,
    /// An include asks for this name, and no statement of its file has it.
    NoSuchFormula { name: Text },
    /// Memory ran out.
    Memory,
}

impl From<AllocError> for GatherRefusal {
    ghost from_gives = { λ _ e. e ≡ Memory };

    fn from(_e: AllocError) -> GatherRefusal {
        GatherRefusal::Memory
    }
}
