// Files of the system.
ghost use Rattle.std.specs.Prelude.{◌≡◌, ◌≢◌, ◌≤◌, None, length, vec_len, IfOk, IfSome};
ghost use Rattle.zm_base.specs.Outside.{Rose, raised};
ghost use Rattle.zm_base.specs.Library.{bytes_of};

use crate::library::{Got, LibFail, Library};
use crate::standard::read_counted;
use std::alloc::Global;
use std::fs::File;
use std::io::{ErrorKind, Read};
use std::marker::Model;
use std::rt::Files;

/// The files of the system, each by its path. It counts its errors and tells nothing of the files.
#[derive(Drop)]
pub struct FileLibrary<R: Files + Drop> {
    files: R,
    faults: u64,
}

impl<R: Files + Drop> Model for FileLibrary<R> {
    ghost use Rattle.std.specs.Prelude.{ℕ};

    ghost Value = { ℕ };

    ghost view = { λ s. s.faults };
}

const PIECE: usize = 4096;

// Reads to the end of the stream, but at most `limit` bytes.
pub(crate) fn read_front<R: Read>(
    alloc: Global,
    stream: &mut R,
    limit: usize,
    faults: &mut u64,
) -> Result<Vec<u8>, LibFail>
    ensures within { IfOk result (λ bytes. vec_len bytes ≤ limit) }
    ensures later { faults.old ≤ faults.new }
    ensures failed { result ≡ Err LibFail.Failed → faults.new ≡ raised faults.old }
    ensures stays { result ≢ Err LibFail.Failed → faults.new ≡ faults.old }
{
    let mut front = Vec::new(alloc);
    let mut buffer = [0u8; PIECE];
    while front.len() < limit {
        let most = PIECE.min(limit - front.len());
        let Ok(n) = read_counted(stream, &mut buffer[..most], faults) else {
            return Err(LibFail::Failed);
        };
        if n == 0 {
            break;
        }
        if front.extend_from_slice(&buffer[..n]).is_err() {
            return Err(LibFail::Memory);
        }
    }
    Ok(front)
}

impl<R: Files + Drop> FileLibrary<R> {
    /// The files that this runtime opens, with no fault so far.
    pub fn new(files: R) -> Self
        ensures { result ≡ 0 }
    {
        FileLibrary { files, faults: 0 }
    }
}

impl<R: Files + Drop> Library for FileLibrary<R> {
    ghost faults = { λ s. s };

    ghost files = { λ s. None };

    /// Opens the name as it is given, relative to the working folder. A name that is not found is
    /// missing, and every other error is a fault.
    fn get(&mut self, alloc: Global, name: &str, limit: usize) -> Result<Got, LibFail>
        ensures within { IfOk result (λ got. IfSome (bytes_of got) (λ bytes. length bytes ≤ limit)) }
        ensures later { self.old ≤ self.new }
        ensures failed { result ≡ Err LibFail.Failed → Rose self.old self.new }

        // What this library does beyond what each library does.
        ensures fault { result ≡ Err LibFail.Failed → self.new ≡ raised self.old }
        ensures stays { result ≢ Err LibFail.Failed → self.new ≡ self.old }
    {
        match File::open(&self.files, name) {
            Ok(mut file) => {
                let front = read_front(alloc, &mut file, limit, &mut self.faults)?;
                Ok(Got::Bytes(front))
            }
            Err(e) if e.kind() == ErrorKind::NotFound => Ok(Got::Missing),
            Err(_) => {
                self.faults = self.faults.saturating_add(1);
                Err(LibFail::Failed)
            }
        }
    }
}
