// What no public call shows: a stream that is interrupted, or fails between calls that move bytes.
ghost use Rattle.std.specs.Prelude.{◌≤◌, IfOk};

use crate::file_library::read_front;
use crate::standard::{read_counted, write_counted};
use crate::{Failed, LibFail};
use std::io;
use std::io::{Error, ErrorKind, Read, Write};

// A stream that is interrupted, then moves one byte, then fails, and then moves nothing.
#[derive(Drop)]
struct Unsteady {
    calls: u8,
}

impl Unsteady {
    fn call(&mut self) -> io::Result<usize>
        ensures { IfOk result (λ n. n ≤ 1) }
    {
        self.calls = self.calls.saturating_add(1);
        match self.calls {
            1 => Err(Error::from(ErrorKind::Interrupted)),
            2 => Ok(1),
            3 => Err(Error::from(ErrorKind::BrokenPipe)),
            _ => Ok(0),
        }
    }
}

impl Read for Unsteady {
    fn read(&mut self, buffer: &mut [u8]) -> io::Result<usize> {
        let n = self.call()?;
        Ok(n.min(buffer.len()))
    }
}

impl Write for Unsteady {
    fn write(&mut self, bytes: &[u8]) -> io::Result<usize> {
        let n = self.call()?;
        Ok(n.min(bytes.len()))
    }

    fn flush(&mut self) -> io::Result<()> {
        Ok(())
    }
}

#[test]
fn counts_faults_and_no_interruptions(rt: HostRuntime) {
    let mut faults = 0;
    let mut stream = Unsteady { calls: 0 };
    let mut buffer = [0u8; 4];
    assert_eq!(rt; read_counted(&mut stream, &mut buffer, &mut faults), Ok(1));
    assert_eq!(rt; faults, 0);
    assert_eq!(rt;
        read_counted(&mut stream, &mut buffer, &mut faults),
        Err(Failed)
    );
    assert_eq!(rt; faults, 1);
    assert_eq!(rt; read_counted(&mut stream, &mut buffer, &mut faults), Ok(0));
    let mut stream = Unsteady { calls: 0 };
    assert_eq!(rt; write_counted(&mut stream, b"a", &mut faults), Ok(1));
    assert_eq!(rt; write_counted(&mut stream, b"a", &mut faults), Err(Failed));
    assert_eq!(rt; write_counted(&mut stream, b"a", &mut faults), Err(Failed));
    assert_eq!(rt; faults, 3);
}

#[test]
fn counts_a_fault_in_mid_stream(rt: HostRuntime) {
    let mut faults = 0;
    let front = read_front(rt.alloc(), &mut Unsteady { calls: 0 }, 1, &mut faults);
    assert!(rt; matches!(&front, Ok(_)));
    assert_eq!(rt; faults, 0);
    let front = read_front(rt.alloc(), &mut Unsteady { calls: 0 }, 2, &mut faults);
    assert!(rt; matches!(&front, Err(LibFail::Failed)));
    assert_eq!(rt; faults, 1);
}
