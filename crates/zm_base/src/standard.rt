// The standard streams of the process.
ghost use Rattle.std.specs.Prelude.{◌≡◌, ◌≤◌, ◌<◌, None, length, IfOk, OnOk, OnErr};
ghost use Rattle.zm_base.specs.Outside.{HasCause, raised};

use crate::traits::{Failed, Sink, Source};
use std::io::{ErrorKind, Read, Stderr, Stdin, Stdout, Write};
use std::marker::Model;

/// Standard input. It counts its errors and tells nothing of its bytes.
#[derive(Drop)]
pub struct StdSource {
    stream: Stdin,
    faults: u64,
}

impl Model for StdSource {
    ghost use Rattle.std.specs.Prelude.{ℕ};

    ghost Value = { ℕ };

    ghost view = { λ s. s.faults };
}

/// Standard output or standard error. It counts its errors and tells nothing of its bytes.
#[derive(Drop)]
pub struct StdSink {
    stream: Stream,
    faults: u64,
}

impl Model for StdSink {
    ghost use Rattle.std.specs.Prelude.{ℕ};

    ghost Value = { ℕ };

    ghost view = { λ s. s.faults };
}

#[derive(Clone, Copy)]
enum Stream {
    Output(Stdout),
    Error(Stderr),
}

// Reads once, and again where a signal cut the read short. Any other error is a fault.
pub(crate) fn read_counted<R: Read>(
    stream: &mut R,
    buffer: &mut [u8],
    faults: &mut u64,
) -> Result<usize, Failed>
    ensures count { IfOk result (λ n. n ≤ length buffer.old) }
    ensures cause { HasCause faults.old faults.new result }
    ensures ok { OnOk result (faults.new ≡ faults.old) }
    ensures err { OnErr result (faults.new ≡ raised faults.old) }
{
    for _ in 0..u64::MAX {
        match stream.read(buffer) {
            Ok(n) => return Ok(n),
            Err(e) if e.kind() == ErrorKind::Interrupted => {}
            Err(_) => break,
        }
    }
    *faults = faults.saturating_add(1);
    Err(Failed)
}

// Writes once, and again where a signal cut the write short. Any other error is a fault, and so is
// a write that takes nothing of a non-empty piece.
pub(crate) fn write_counted<W: Write>(
    stream: &mut W,
    bytes: &[u8],
    faults: &mut u64,
) -> Result<usize, Failed>
    ensures count { IfOk result (λ n. n ≤ length bytes.now) }
    ensures some { IfOk result (λ n. 0 < length bytes.now → 0 < n) }
    ensures cause { HasCause faults.old faults.new result }
    ensures ok { OnOk result (faults.new ≡ faults.old) }
    ensures err { OnErr result (faults.new ≡ raised faults.old) }
{
    for _ in 0..u64::MAX {
        match stream.write(bytes) {
            Ok(0) if !bytes.is_empty() => break,
            Ok(n) => return Ok(n),
            Err(e) if e.kind() == ErrorKind::Interrupted => {}
            Err(_) => break,
        }
    }
    *faults = faults.saturating_add(1);
    Err(Failed)
}

impl StdSource {
    /// Standard input, with no fault so far.
    pub fn new(stream: Stdin) -> Self
        ensures { result ≡ 0 }
    {
        StdSource { stream, faults: 0 }
    }
}

impl Source for StdSource {
    ghost faults = { λ s. s };

    ghost left = { λ s. None };

    fn read(&mut self, buffer: &mut [u8]) -> Result<usize, Failed>
        ensures count { IfOk result (λ n. n ≤ length buffer.old) }
        ensures cause { HasCause self.old self.new result }

        // What this source does beyond what each source does.
        ensures ok { OnOk result (self.new ≡ self.old) }
        ensures fault { OnErr result (self.new ≡ raised self.old) }
    {
        read_counted(&mut self.stream, buffer, &mut self.faults)
    }
}

impl StdSink {
    /// Standard output, with no fault so far.
    pub fn stdout(stream: Stdout) -> Self
        ensures { result ≡ 0 }
    {
        StdSink {
            stream: Stream::Output(stream),
            faults: 0,
        }
    }

    /// Standard error, with no fault so far.
    pub fn stderr(stream: Stderr) -> Self
        ensures { result ≡ 0 }
    {
        StdSink {
            stream: Stream::Error(stream),
            faults: 0,
        }
    }
}

impl Sink for StdSink {
    ghost faults = { λ s. s };

    ghost held = { λ s. None };

    ghost taken = { λ s. None };

    ghost taken_fits = { λ s. tt };

    fn write(&mut self, bytes: &[u8]) -> Result<usize, Failed>
        ensures count { IfOk result (λ n. n ≤ length bytes.now) }
        ensures some { IfOk result (λ n. 0 < length bytes.now → 0 < n) }
        ensures cause { HasCause self.old self.new result }

        // What this sink does beyond what each sink does.
        ensures ok { OnOk result (self.new ≡ self.old) }
        ensures fault { OnErr result (self.new ≡ raised self.old) }
    {
        match self.stream {
            Stream::Output(mut output) => write_counted(&mut output, bytes, &mut self.faults),
            Stream::Error(mut error) => write_counted(&mut error, bytes, &mut self.faults),
        }
    }
}
