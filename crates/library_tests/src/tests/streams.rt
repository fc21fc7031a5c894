ghost use Rattle.std.specs.Prelude.{◌≡◌};

use std::alloc::{AllocError, Global};
use std::test::Fail;
use zm_base::{
    CountSink, Failed, MemSink, MemSource, QuietSource, ReadStop, Sink, Source, StdSink, StdSource,
    read_to_limit, write_all,
};

// Whether so many bytes are read, after which the buffer holds these.
fn reads(source: &mut MemSource, buffer: &mut [u8; 4], count: usize, held: &[u8; 4]) -> bool {
    source.read(buffer) == Ok(count) && *buffer == *held
}

fn reads_pieces(source: &mut MemSource, buffer: &mut [u8; 4]) -> bool {
    reads(source, buffer, 2, b"he\0\0")
        && source.read(buffer) == Err(Failed)
        && reads(source, buffer, 2, b"ll\0\0")
        && reads(source, buffer, 1, b"ol\0\0")
        && source.read(buffer) == Ok(0)
}

#[test]
fn reads_pieces_round_a_failing_call(rt: HostRuntime) -> Result<(), Fail> {
    let bytes = Vec::from_slice(rt.alloc(), b"hello")?;
    let mut source = MemSource::new(bytes, 2, vec![in rt.alloc(); 2u64]?);
    let mut buffer = [0u8; 4];
    let pieces = reads_pieces(&mut source, &mut buffer);
    assert!(rt; pieces);
    Ok(())
}

// What a source with no faults answers: never that it failed.
fn read_quietly(alloc: Global, source: &mut QuietSource) -> Result<Vec<u8>, ReadStop>
    ensures { result ≡ Err ReadStop.Failed → ⊥ }
{
    read_to_limit(alloc, source, 5)
}

fn is_bytes(got: Result<Vec<u8>, ReadStop>, wanted: &[u8]) -> bool {
    match got {
        Ok(bytes) => bytes.as_slice() == wanted,
        Err(_) => false,
    }
}

fn is_too_large(got: Result<Vec<u8>, ReadStop>) -> bool {
    matches!(&got, Err(ReadStop::TooLarge))
}

fn is_failed(got: Result<Vec<u8>, ReadStop>) -> bool {
    matches!(&got, Err(ReadStop::Failed))
}

fn quiet(alloc: Global) -> Result<QuietSource, AllocError> {
    Ok(QuietSource::new(Vec::from_slice(alloc, b"hello")?))
}

fn reads_all(alloc: Global) -> Result<bool, AllocError> {
    let mut quiet = quiet(alloc)?;
    Ok(is_bytes(read_quietly(alloc, &mut quiet), b"hello"))
}

fn stops_at_the_limit(alloc: Global) -> Result<bool, AllocError> {
    let mut quiet = quiet(alloc)?;
    Ok(is_too_large(read_to_limit(alloc, &mut quiet, 4)))
}

fn stops_at_a_failure(alloc: Global) -> Result<bool, AllocError> {
    let bytes = Vec::from_slice(alloc, b"hello")?;
    let mut source = MemSource::new(bytes, 3, vec![in alloc; 2u64]?);
    Ok(is_failed(read_to_limit(alloc, &mut source, 5)))
}

#[test]
fn reads_to_the_limit(rt: HostRuntime) -> Result<(), Fail> {
    assert!(rt; reads_all(rt.alloc())?);
    assert!(rt; stops_at_the_limit(rt.alloc())?);
    assert!(rt; stops_at_a_failure(rt.alloc())?);
    Ok(())
}

// Whether the bytes are written or not, as told, after which the sink holds these.
fn writes(sink: &mut MemSink, bytes: &[u8], told: Result<(), Failed>, held: &[u8]) -> bool {
    write_all(sink, bytes) == told && sink.held() == held
}

fn fills(sink: &mut MemSink) -> bool {
    writes(sink, b"abc", Err(Failed), b"ab")
        && writes(sink, b"cde", Ok(()), b"abcde")
        && sink.write(b"") == Ok(0)
        && writes(sink, b"f", Err(Failed), b"abcde")
}

#[test]
fn writes_until_no_room_is_left(rt: HostRuntime) -> Result<(), Fail> {
    let mut sink = MemSink::new(rt.alloc(), 5, 2, vec![in rt.alloc(); 2u64]?)?;
    let filled = fills(&mut sink);
    assert!(rt; filled);
    Ok(())
}

fn counts(sink: &mut CountSink) -> bool {
    sink.count() == 0
        && write_all(sink, b"abc") == Ok(())
        && write_all(sink, b"") == Ok(())
        && write_all(sink, b"de") == Ok(())
        && sink.count() == 5
}

#[test]
fn counts_bytes(rt: HostRuntime) {
    let counted = counts(&mut CountSink::new());
    assert!(rt; counted);
}

#[test]
fn uses_the_standard_streams(rt: HostRuntime) {
    assert_eq!(rt; StdSource::new(rt.stdin()).read(&mut []), Ok(0));
    assert_eq!(rt; StdSink::stdout(rt.stdout()).write(b""), Ok(0));
    assert_eq!(rt;
        write_all(&mut StdSink::stderr(rt.stderr()), b"standard error\n"),
        Ok(())
    );
}
