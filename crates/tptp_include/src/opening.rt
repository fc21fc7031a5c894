// The file that an include names.
ghost use Rattle.std.specs.Prelude.{◌≡◌, ◌≤◌, ◌+◌, ℕ, List, length, IfOk, IfSome, Some, None, Ok, Err, vec_len};
ghost use Rattle.std.specs.List.{list_any};
ghost use Rattle.std.specs.Str.{bytes_eq};
ghost use Rattle.zm_base.specs.Library.{NamedFile};
ghost use Rattle.zm_base.specs.Outside.{Rose};
ghost use Rattle.tptp_include.specs.Gathering.{most_bytes, opened};
ghost use Rattle.tptp_include.specs.Outcomes.{bytes_told};

use crate::file_name::FileName;
use crate::refusal::GatherRefusal;
use std::alloc::Global;
use tptp_reader::Text;
use zm_base::{Got, LibFail, Library};

/// The most bytes of all files, each counted each time it is read.
pub const MOST_BYTES: usize = 16_777_216;

// The most includes on a path.
const MOST_INCLUDES: usize = 16;

// Whether the name is one of these.
fn is_on_path(path: &[FileName], name: &str) -> bool
    ensures { result ≡ list_any (bytes_eq name.now) path.now }
{
    path.iter().any(|on_path| name == on_path.text())
}

// Reads the file that an include names. `path` leads to the file that has the include, and `count` bytes were read before.
pub(crate) fn open_file<L: Library>(
    alloc: Global,
    library: &mut L,
    path: &[FileName],
    name: &str,
    count: usize,
) -> Result<Vec<u8>, GatherRefusal>
    requires { count ≤ most_bytes }
    ensures told { (fs : List NamedFile) → L.files library.old ≡ Some fs →
        IfSome (bytes_told result) (λ told. opened fs path.now name.now count ≡ told) }
    ensures within { IfOk result (λ bytes. count + vec_len bytes ≤ most_bytes) }
    ensures includes { IfOk result (λ _. length path.now ≤ 16) }
    ensures files { L.files library.new ≡ L.files library.old }
    ensures later { L.faults library.old ≤ L.faults library.new }
    ensures failed { result ≡ Err GatherRefusal.LibraryFault → Rose (L.faults library.old) (L.faults library.new) }
{
    if path.len() > MOST_INCLUDES {
        return Err(GatherRefusal::IncludeDepth {
            name: Text::of(alloc, name)?,
        });
    }
    if is_on_path(path, name) {
        return Err(GatherRefusal::Cycle {
            name: Text::of(alloc, name)?,
        });
    }
    let most = MOST_BYTES - count;
    match library.get(alloc, name, most + 1) {
        Ok(Got::Bytes(bytes)) if bytes.len() <= most => Ok(bytes),
        Ok(Got::Bytes(_)) => Err(GatherRefusal::TooLarge),
        Ok(Got::Missing) => Err(GatherRefusal::Missing {
            name: Text::of(alloc, name)?,
        }),
        Err(LibFail::Failed) => Err(GatherRefusal::LibraryFault),
        Err(LibFail::Memory) => Err(GatherRefusal::Memory),
    }
}
