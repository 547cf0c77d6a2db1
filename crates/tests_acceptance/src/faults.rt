//! Words, reading and writing: whose fault a status is.

use super::runs::{check_run, sink_of, source_of};
use std::alloc::Global;
use std::process::Abort;
use std::test::Fail;
use text_io::{MemSink, Source};

const SCRIPT: &[u8] = b"base 2\nover 2 z^2+z+1\nchar [z, 1]\n";

/// Runs a comment of this many bytes.
fn check_comment(
    rt: &impl Abort,
    alloc: Global,
    bytes: usize,
    errors: MemSink,
    want: (u8, &[u8]),
) -> Result<(), Fail> {
    let script = vec![in alloc; b'#'; bytes]?;
    let mut input = source_of(alloc, &script, 4096, &[])?;
    let sinks = (sink_of(alloc, &[])?, errors);
    check_run(rt, alloc, &[], &mut input, sinks, (want.0, b"", want.1))
}

#[test]
fn refuses_a_long_script(rt: HostRuntime) -> Result<(), Fail> {
    let alloc = rt.alloc();
    let line = b"too large: script\n";
    check_comment(&rt, alloc, 65537, sink_of(alloc, &[])?, (4, line))?;
    check_comment(&rt, alloc, 65537, sink_of(alloc, &[1])?, (4, b""))?;
    check_comment(&rt, alloc, 65536, sink_of(alloc, &[])?, (0, b""))?;
    check_comment(&rt, alloc, 65536, sink_of(alloc, &[1])?, (0, b""))
}

/// Runs with a word, and sees that the first call of the source is still to come.
fn check_words(rt: &impl Abort, alloc: Global, errors: MemSink, line: &[u8]) -> Result<(), Fail> {
    let words = vec![in alloc; String::from_str(alloc, "x")?]?;
    let mut input = source_of(alloc, SCRIPT, 1, &[1])?;
    check_run(
        rt,
        alloc,
        &words,
        &mut input,
        (sink_of(alloc, &[])?, errors),
        (2, b"", line),
    )?;
    assert!(rt; input.read(&mut [0; 1]).is_err());
    Ok(())
}

#[test]
fn refuses_words_and_reads_nothing(rt: HostRuntime) -> Result<(), Fail> {
    check_words(
        &rt,
        rt.alloc(),
        sink_of(rt.alloc(), &[])?,
        b"words refused\n",
    )?;
    check_words(&rt, rt.alloc(), sink_of(rt.alloc(), &[1])?, b"")
}

/// A source gives one byte a call, so the script takes as many calls as it has bytes, and one more that
/// sees the end.
const READS: u32 = 35;

/// Runs over a source whose call with this number fails.
fn check_read(
    rt: &impl Abort,
    alloc: Global,
    call: u32,
    errors: MemSink,
    want: (u8, &[u8], &[u8]),
) -> Result<(), Fail> {
    let mut input = source_of(alloc, SCRIPT, 1, &[call])?;
    let sinks = (sink_of(alloc, &[])?, errors);
    check_run(rt, alloc, &[], &mut input, sinks, want)
}

#[test]
fn tells_a_failed_read(rt: HostRuntime) -> Result<(), Fail> {
    let alloc = rt.alloc();
    for call in 1..READS + 1 {
        let errors = sink_of(alloc, &[])?;
        check_read(&rt, alloc, call, errors, (7, b"", b"read failed\n"))?;
    }
    check_read(&rt, alloc, 1, sink_of(alloc, &[1])?, (7, b"", b""))?;
    check_read(
        &rt,
        alloc,
        READS + 1,
        sink_of(alloc, &[])?,
        (0, OUTPUT, b""),
    )
}

/// What the script writes, in three texts.
const OUTPUT: &[u8] = b"q = 2\nn = 2\nT^2+T+1\n";

/// Runs with this sink.
fn check_write(
    rt: &impl Abort,
    alloc: Global,
    output: MemSink,
    errors: MemSink,
    want: (u8, &[u8], &[u8]),
) -> Result<(), Fail> {
    let mut input = source_of(alloc, SCRIPT, 3, &[])?;
    check_run(rt, alloc, &[], &mut input, (output, errors), want)
}

/// The sink takes one byte a call: where a call fails, the bytes of the calls before it are written.
#[test]
fn tells_a_failed_write(rt: HostRuntime) -> Result<(), Fail> {
    let alloc = rt.alloc();
    for call in 1..21u32 {
        let sink = MemSink::new(alloc, 100, 1, vec![in alloc; call]?)?;
        let written = &OUTPUT[..call as usize - 1];
        let want = (8, written, b"write failed\n".as_slice());
        check_write(&rt, alloc, sink, sink_of(alloc, &[])?, want)?;
    }
    let past = MemSink::new(alloc, 100, 1, vec![in alloc; 21]?)?;
    check_write(&rt, alloc, past, sink_of(alloc, &[])?, (0, OUTPUT, b""))?;
    let second = sink_of(alloc, &[2])?;
    let want = (8, b"q = 2\n".as_slice(), b"".as_slice());
    check_write(&rt, alloc, second, sink_of(alloc, &[1])?, want)
}

/// A sink that is full has gained as many bytes as it has room for.
#[test]
fn fills_a_small_sink(rt: HostRuntime) -> Result<(), Fail> {
    let alloc = rt.alloc();
    for room in 0..20 {
        let small = MemSink::new(alloc, room, 4096, Vec::new(alloc))?;
        let want = (8, &OUTPUT[..room], b"write failed\n".as_slice());
        check_write(&rt, alloc, small, sink_of(alloc, &[])?, want)?;
    }
    Ok(())
}

/// The third call of writing is the last: each text is one call, and one that would come after them all
/// fails without being seen.
#[test]
fn writes_each_text_by_one_call(rt: HostRuntime) -> Result<(), Fail> {
    let alloc = rt.alloc();
    let errors = sink_of(alloc, &[])?;
    check_write(&rt, alloc, sink_of(alloc, &[4])?, errors, (0, OUTPUT, b""))?;
    let errors = sink_of(alloc, &[])?;
    let want = (
        8,
        b"q = 2\nn = 2\n".as_slice(),
        b"write failed\n".as_slice(),
    );
    check_write(&rt, alloc, sink_of(alloc, &[3])?, errors, want)
}

/// The line of a fault is told or not; the status stays.
#[test]
fn keeps_the_status_where_errors_fail(rt: HostRuntime) -> Result<(), Fail> {
    let alloc = rt.alloc();
    for call in 1..5u32 {
        let mut input = source_of(alloc, b"rank phi", 4096, &[])?;
        let sinks = (sink_of(alloc, &[])?, sink_of(alloc, &[call])?);
        let told: [&[u8]; 4] = [b"", b"line ", b"line 1", b"line 1: "];
        let want = (5, b"".as_slice(), told[call as usize - 1]);
        check_run(&rt, alloc, &[], &mut input, sinks, want)?;
    }
    Ok(())
}
