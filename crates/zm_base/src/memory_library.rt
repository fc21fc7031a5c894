// Libraries in memory.
ghost use Rattle.std.specs.Prelude.{◌≡◌, ◌≢◌, ◌≤◌, ◌↔◌, map, length, Some, IfOk, IfSome, OnErr, Contains};
ghost use Rattle.zm_base.specs.Outside.{Rose, raised};
ghost use Rattle.zm_base.specs.Library.{bytes_of, file_named, front_of};

use crate::library::{Got, LibFail, Library};
use std::alloc::{AllocError, Global};
use std::marker::Model;

/// Named files in memory, with calls that fail. Where two files have one name, the first counts.
///
/// A call's number is counted from 1 and stays at `u64::MAX` once it is there.
#[derive(Drop)]
pub struct MemLibrary {
    files: Vec<(String, Vec<u8>)>,
    fails: Vec<u64>,
    calls: u64,
    faults: u64,
}

impl Model for MemLibrary {
    ghost use Rattle.std.specs.Prelude.{map};
    ghost use Rattle.zm_base.specs.Library.{MemoryLibrary, file_named};

    ghost Value = { MemoryLibrary };

    ghost view = { λ s. record {
      files = map file_named s.files.items;
      fails = s.fails.items;
      calls = s.calls;
      faults = s.faults;
    } };
}

/// Named files in memory. It never fails. Where two files have one name, the first counts.
#[derive(Drop)]
pub struct QuietLibrary {
    files: Vec<(String, Vec<u8>)>,
}

impl Model for QuietLibrary {
    ghost use Rattle.std.specs.Prelude.{List, map};
    ghost use Rattle.zm_base.specs.Library.{NamedFile, file_named};

    ghost Value = { List NamedFile };

    ghost view = { λ s. map file_named s.files.items };
}

// Copies the first bytes, at most `limit`, of the first file with this name.
fn copy_of(
    alloc: Global,
    files: &[(String, Vec<u8>)],
    name: &str,
    limit: usize,
) -> Result<Got, AllocError>
    ensures { IfOk result (λ got. bytes_of got ≡ front_of (map file_named files.now) name.now limit) }
{
    for (file, bytes) in files {
        if file.as_str() == name {
            let front = &bytes[..bytes.len().min(limit)];
            return Ok(Got::Bytes(Vec::from_slice(alloc, front)?));
        }
    }
    Ok(Got::Missing)
}

impl MemLibrary {
    /// A library of these files, each with its name. `fails` lists the numbers of the calls that
    /// fail, the first call being 1.
    pub fn new(files: Vec<(String, Vec<u8>)>, fails: Vec<u64>) -> Self
        ensures { result ≡ record {
          files = map file_named files.items;
          fails = fails.items;
          calls = 0;
          faults = 0;
        } }
    {
        MemLibrary {
            files,
            fails,
            calls: 0,
            faults: 0,
        }
    }
}

impl Library for MemLibrary {
    ghost faults = { λ s. s.faults };

    ghost files = { λ s. Some s.files };

    fn get(&mut self, alloc: Global, name: &str, limit: usize) -> Result<Got, LibFail>
        ensures got { IfOk result (λ got. bytes_of got ≡ front_of self.old.files name.now limit) }
        ensures within { IfOk result (λ got. IfSome (bytes_of got) (λ bytes. length bytes ≤ limit)) }
        ensures files { Some self.new.files ≡ Some self.old.files }
        ensures later { self.old.faults ≤ self.new.faults }
        ensures failed { result ≡ Err LibFail.Failed → Rose self.old.faults self.new.faults }

        // What this library does beyond what each library does.
        ensures fails { (result ≡ Err LibFail.Failed) ↔ Contains self.old.fails (raised self.old.calls) }
        ensures fault { result ≡ Err LibFail.Failed → self.new ≡ record self.old {
          calls = raised self.old.calls;
          faults = raised self.old.faults;
        } }
        ensures stays { result ≢ Err LibFail.Failed → self.new ≡ record self.old {
          calls = raised self.old.calls;
        } }
    {
        self.calls = self.calls.saturating_add(1);
        if self.fails.contains(&self.calls) {
            self.faults = self.faults.saturating_add(1);
            return Err(LibFail::Failed);
        }
        copy_of(alloc, &self.files, name, limit).map_err(|_| LibFail::Memory)
    }
}

impl QuietLibrary {
    /// A library of these files, each with its name.
    pub fn new(files: Vec<(String, Vec<u8>)>) -> Self
        ensures { result ≡ map file_named files.items }
    {
        QuietLibrary { files }
    }
}

impl Library for QuietLibrary {
    ghost faults = { λ s. 0 };

    ghost files = { λ s. Some s };

    fn get(&mut self, alloc: Global, name: &str, limit: usize) -> Result<Got, LibFail>
        ensures got { IfOk result (λ got. bytes_of got ≡ front_of self.old name.now limit) }
        ensures within { IfOk result (λ got. IfSome (bytes_of got) (λ bytes. length bytes ≤ limit)) }
        ensures files { Some self.new ≡ Some self.old }
        ensures later { 0 ≤ 0 }
        ensures failed { result ≡ Err LibFail.Failed → Rose 0 0 }

        // What this library does beyond what each library does.
        ensures succeeds { result ≢ Err LibFail.Failed }
        ensures stays { self.new ≡ self.old }
    {
        copy_of(alloc, &self.files, name, limit).map_err(|_| LibFail::Memory)
    }
}
