ghost use Rattle.std.specs.Prelude.{◌<◌};
ghost use Rattle.text_io.specs.Bytes.{read_bound};

use super::*;
use std::io::{self, Read, Write};
use std::test::Fail;

#[test]
fn adapters_over_streams(rt: HostRuntime) -> Result<(), Fail> {
    let (reader, writer) = io::pipe(&rt)?;
    let mut sink = StdSink::new(writer);
    assert!(rt; write_whole(&mut sink, b"q = 2\n").is_ok());
    drop(sink);
    let mut source = StdSource::new(reader);
    let bytes = read_limited(rt.alloc(), &mut source, 6)?;
    assert_eq!(rt; bytes.as_slice(), b"q = 2\n".as_slice());

    let mut long = StdSource::new(b"base 2".as_slice());
    let stop = read_limited(rt.alloc(), &mut long, 5);
    assert!(rt; matches!(stop, Err(ReadStop::TooLong)));

    // A write into a slice that is full takes no byte, which is a fault.
    let mut room = [0u8; 2];
    let mut full = StdSink::new(room.as_mut_slice());
    assert!(rt; write_whole(&mut full, b"abc").is_err());
    drop(full);
    assert_eq!(rt; room.as_slice(), b"ab".as_slice());
    Ok(())
}

/// A writer into a slice that takes at most so many bytes at a call, and whose flushes may fail.
#[derive(Drop)]
struct Slow<'a> {
    room: &'a mut [u8],
    most: usize,
    flushes: bool,
}

impl io::Write for Slow<'_> {
    fn write(&mut self, buf: &[u8]) -> io::Result<usize> {
        let most = self.most.min(buf.len());
        self.room.write(&buf[..most])
    }

    fn flush(&mut self) -> io::Result<()> {
        if self.flushes {
            return Ok(());
        }
        Err(io::Error::from(io::ErrorKind::Other))
    }
}

#[test]
fn writers_that_fail_or_take_less(rt: HostRuntime) -> Result<(), Fail> {
    for (most, flushes, succeeds, expected) in [
        (8, true, true, b"q = 2"),
        (1, true, true, b"q = 2"),
        (8, false, false, b"q = 2"),
        (1, false, false, b"q...."),
    ] {
        let mut bytes = *b".....";
        let mut sink = StdSink::new(Slow {
            room: bytes.as_mut_slice(),
            most,
            flushes,
        });
        let written = write_whole(&mut sink, b"q = 2");
        drop(sink);
        assert_eq!(rt; written.is_ok(), succeeds);
        assert_eq!(rt; bytes.as_slice(), expected.as_slice());
    }
    Ok(())
}

/// A reader of bytes whose first read fails.
#[derive(Drop)]
struct Late<'a> {
    bytes: &'a [u8],
    failed: bool,
}

impl io::Read for Late<'_> {
    fn read(&mut self, into: &mut [u8]) -> io::Result<usize> {
        if self.failed {
            return self.bytes.read(into);
        }
        self.failed = true;
        Err(io::Error::from(io::ErrorKind::Other))
    }
}

#[test]
fn reader_whose_first_read_fails(rt: HostRuntime) -> Result<(), Fail> {
    let mut source = StdSource::new(Late {
        bytes: b"base 2".as_slice(),
        failed: false,
    });
    let stop = read_limited(rt.alloc(), &mut source, 6);
    assert!(rt; matches!(stop, Err(ReadStop::Failed)));
    let bytes = read_limited(rt.alloc(), &mut source, 6)?;
    assert_eq!(rt; bytes.as_slice(), b"base 2".as_slice());
    Ok(())
}

#[test]
fn texts_of_faults(rt: HostRuntime) -> Result<(), Fail> {
    for (stop, text) in [
        (ReadStop::Failed, "a read failed"),
        (ReadStop::TooLong, "more bytes came than are read"),
        (ReadStop::NoMemory, "out of memory"),
    ] {
        assert_eq!(rt; format!(in rt.alloc(); "{stop}")?.as_str(), text);
    }
    Ok(())
}

// Reads `base 2`, two bytes at a call, from a source whose calls with these numbers fail.
fn reading(rt: &HostRuntime, limit: usize, fails: &[u32]) -> Result<Result<Vec<u8>, ReadStop>, Fail>
    requires { limit < read_bound }
{
    let bytes = b"base 2".to_vec(rt.alloc())?;
    let mut source = FailSource::new(bytes, 2, fails.to_vec(rt.alloc())?);
    Ok(read_limited(rt.alloc(), &mut source, limit))
}

#[test]
fn reads_in_memory(rt: HostRuntime) -> Result<(), Fail> {
    assert_eq!(rt; reading(&rt, 6, &[])??.as_slice(), b"base 2".as_slice());
    let stop = reading(&rt, 5, &[])?;
    assert!(rt; matches!(stop, Err(ReadStop::TooLong)));
    // The fourth call sees the end.
    let stop = reading(&rt, 6, &[4])?;
    assert!(rt; matches!(stop, Err(ReadStop::Failed)));
    assert_eq!(rt; reading(&rt, 6, &[5])??.len(), 6);

    let mut plain = PlainSource::new(b"yes".to_vec(rt.alloc())?);
    let bytes = read_limited(rt.alloc(), &mut plain, 100)?;
    assert_eq!(rt; bytes.as_slice(), b"yes".as_slice());
    Ok(())
}

#[test]
fn writes_in_memory(rt: HostRuntime) -> Result<(), Fail> {
    for (room, most, fail, expected) in [
        (9, 9, 2, b"degree 1".as_slice()),
        (8, 3, 4, b"degree 1".as_slice()),
        (9, 3, 2, b"deg".as_slice()),
        (4, 3, 9, b"degr".as_slice()),
    ] {
        let fails = [fail].to_vec(rt.alloc())?;
        let mut sink = MemSink::new(rt.alloc(), room, most, fails)?;
        let written = write_whole(&mut sink, b"degree 1");
        assert_eq!(rt; written.is_ok(), expected.len() == 8);
        assert_eq!(rt; sink.bytes(), expected);
    }
    Ok(())
}
