// The next statement of a file.
ghost use Rattle.std.specs.Prelude.{◌≡◌, ◌≤◌, ℕ, List, length, IfErr, IfOk, IfSome};
ghost use Rattle.zm_base.specs.Library.{NamedFile};
ghost use Rattle.tptp_reader.specs.Raw.{Name};
ghost use Rattle.tptp_include.specs.Gathering.{Gathers};
ghost use Rattle.tptp_include.specs.Outcomes.{IsRead, refusal_of, refusal_told, told_in};

use crate::file_name::FileName;
use crate::refusal::{GatherRefusal, Place};
use std::alloc::{AllocError, Global};
use tptp_reader::{Read, ReadRefusal, Text, read_statement};

// The place in the file.
fn place_in(alloc: Global, name: &FileName, at: usize) -> Result<Place, AllocError>
    ensures { IfOk result (λ place. (place.file ≡ name.now) × (place.at ≡ at)) }
{
    let file = Text::of(alloc, name.text())?;
    Ok(Place { file, at })
}

// The reader's refusal, told with the name of the file.
fn refusal_in(
    alloc: Global,
    name: &FileName,
    refusal: ReadRefusal,
) -> Result<GatherRefusal, AllocError>
    ensures refused { IfOk result (λ told. refusal_of told ≡ told_in name.now refusal) }
    ensures no_fault { IfOk result (λ told. told ≡ GatherRefusal.LibraryFault → ⊥) }
{
    Ok(match refusal {
        ReadRefusal::Syntax { at } => GatherRefusal::Syntax {
            place: place_in(alloc, name, at)?,
        },
        ReadRefusal::TooDeep { at } => GatherRefusal::TooDeep {
            place: place_in(alloc, name, at)?,
        },
        ReadRefusal::Unsupported { form, at } => GatherRefusal::Unsupported {
            form,
            place: place_in(alloc, name, at)?,
        },
        ReadRefusal::Memory => GatherRefusal::Memory,
    })
}

// Reads the next statement of a file from one place on.
pub(crate) fn next_statement(
    alloc: Global,
    name: &FileName,
    bytes: &[u8],
    at: usize,
) -> Result<Read, GatherRefusal>
    requires { at ≤ length bytes.now }
    ensures read { IfOk result (IsRead bytes.now at) }
    ensures refused { IfErr result (λ e. (fs : List NamedFile) (path : List Name) (count : ℕ) →
        IfSome (refusal_told (refusal_of e)) (Gathers fs path name.now bytes.now at count)) }
    ensures no_fault { result ≡ Err GatherRefusal.LibraryFault → ⊥ }
{
    match read_statement(alloc, bytes, at) {
        Ok(read) => Ok(read),
        Err(refusal) => Err(refusal_in(alloc, name, refusal)?),
    }
}
