ghost use Rattle.std.specs.Prelude.{◌≢◌};

use std::alloc::{AllocError, Global};
use std::test::Fail;
use zm_base::{FileLibrary, Got, LibFail, Library, MemLibrary, QuietLibrary};

fn two_files(alloc: Global) -> Result<Vec<(String, Vec<u8>)>, AllocError> {
    let mut files = Vec::new(alloc);
    let first = (
        String::from_str(alloc, "a.ax")?,
        Vec::from_slice(alloc, b"hello")?,
    );
    let second = (
        String::from_str(alloc, "b.ax")?,
        Vec::from_slice(alloc, b"")?,
    );
    files.push(first)?;
    files.push(second)?;
    Ok(files)
}

fn is_bytes(got: &Result<Got, LibFail>, wanted: &[u8]) -> bool {
    match got {
        Ok(Got::Bytes(bytes)) => bytes.as_slice() == wanted,
        _ => false,
    }
}

fn is_missing(got: &Result<Got, LibFail>) -> bool {
    matches!(got, Ok(Got::Missing))
}

fn is_failed(got: &Result<Got, LibFail>) -> bool {
    matches!(got, Err(LibFail::Failed))
}

fn gives_fronts(a: Global, library: &mut MemLibrary) -> bool {
    is_bytes(&library.get(a, "a.ax", 4), b"hell")
        && is_failed(&library.get(a, "a.ax", 9))
        && is_bytes(&library.get(a, "a.ax", 9), b"hello")
        && is_bytes(&library.get(a, "a.ax", 0), b"")
        && is_bytes(&library.get(a, "b.ax", 9), b"")
        && is_missing(&library.get(a, "c.ax", 9))
}

#[test]
fn gives_fronts_of_files_round_a_failing_call(rt: HostRuntime) -> Result<(), Fail> {
    let files = two_files(rt.alloc())?;
    let mut library = MemLibrary::new(files, vec![in rt.alloc(); 2u64]?);
    let given = gives_fronts(rt.alloc(), &mut library);
    assert!(rt; given);
    Ok(())
}

// What a library with no faults answers: never that it failed.
fn get_quietly(alloc: Global, library: &mut QuietLibrary, name: &str) -> Result<Got, LibFail>
    ensures { result ≢ Err LibFail.Failed }
{
    library.get(alloc, name, 5)
}

#[test]
fn gives_files_quietly(rt: HostRuntime) -> Result<(), Fail> {
    let mut library = QuietLibrary::new(two_files(rt.alloc())?);
    assert!(rt; is_bytes(&get_quietly(rt.alloc(), &mut library, "a.ax"), b"hello"));
    assert!(rt; is_missing(&get_quietly(rt.alloc(), &mut library, "")));
    Ok(())
}

#[test]
fn reads_files_of_the_system(rt: HostRuntime) {
    let mut library = FileLibrary::new(rt);
    assert!(rt; is_bytes(&library.get(rt.alloc(), "/dev/zero", 5000), &[0u8; 5000]));
    assert!(rt; is_bytes(&library.get(rt.alloc(), "/dev/null", 5000), b""));
    assert!(rt; is_missing(&library.get(rt.alloc(), "no such folder/a.ax", 5)));
    assert!(rt; is_missing(&library.get(rt.alloc(), "", 5)));
    assert!(rt; is_failed(&library.get(rt.alloc(), "/", 5)));
}
