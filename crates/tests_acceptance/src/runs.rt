ghost use Rattle.std.specs.Prelude.{◌<◌};

use drinfeld_cli::{run, run_bytes};
use ring_core::NoMemory;
use std::alloc::Global;
use std::process::Abort;
use std::test::Fail;
use text_io::{FailSource, MemSink};

/// A sink with ample room whose calls with these numbers fail.
pub fn sink_of(alloc: Global, fails: &[u32]) -> Result<MemSink, NoMemory> {
    let fails = fails.to_vec(alloc)?;
    MemSink::new(alloc, 4096, 4096, fails)
}

/// A source of the script that gives at most `most` bytes a call, whose calls with these numbers fail.
pub fn source_of(
    alloc: Global,
    script: &[u8],
    most: usize,
    fails: &[u32],
) -> Result<FailSource, NoMemory>
    requires { 0 < most }
{
    let bytes = script.to_vec(alloc)?;
    let fails = fails.to_vec(alloc)?;
    Ok(FailSource::new(bytes, most, fails))
}

/// Runs, and compares the status and what was written to both sinks.
pub fn check_run(
    rt: &impl Abort,
    alloc: Global,
    words: &[String],
    input: &mut FailSource,
    sinks: (MemSink, MemSink),
    want: (u8, &[u8], &[u8]),
) -> Result<(), Fail> {
    let (mut output, mut errors) = sinks;
    let status = run(alloc, words, input, &mut output, &mut errors);
    assert_eq!(rt; output.bytes(), want.1);
    assert_eq!(rt; errors.bytes(), want.2);
    assert_eq!(rt; status.code(), want.0);
    Ok(())
}

/// The words of a row, which stand in it between spaces; none where the row is empty.
pub fn words_of(alloc: Global, row: &str) -> Result<Vec<String>, NoMemory> {
    let mut words = Vec::new(alloc);
    if row.is_empty() {
        return Ok(words);
    }
    for word in row.split(' ') {
        words.push(String::from_str(alloc, word)?)?;
    }
    Ok(words)
}

/// Runs the bytes of a script with these words and without faults, and compares.
pub fn check_words(
    rt: &impl Abort,
    alloc: Global,
    words: &str,
    script: &[u8],
    want: (u8, &[u8], &[u8]),
) -> Result<(), Fail> {
    let words = words_of(alloc, words)?;
    let (mut output, mut errors) = (sink_of(alloc, &[])?, sink_of(alloc, &[])?);
    let bytes = script.to_vec(alloc)?;
    let status = run_bytes(alloc, &words, bytes, &mut output, &mut errors);
    assert_eq!(rt; output.bytes(), want.1);
    assert_eq!(rt; errors.bytes(), want.2);
    assert_eq!(rt; status.code(), want.0);
    Ok(())
}

/// Runs a script without words or faults, and compares.
pub fn check_script(
    rt: &impl Abort,
    alloc: Global,
    script: &[u8],
    want: (u8, &[u8], &[u8]),
) -> Result<(), Fail> {
    check_words(rt, alloc, "", script, want)
}

/// The lines of a row, which stand in it between semicolons; none where the row is empty.
pub fn lines_of(alloc: Global, row: &str) -> Result<Vec<u8>, NoMemory> {
    let mut text = Vec::new(alloc);
    if row.is_empty() {
        return Ok(text);
    }
    for byte in row.as_bytes() {
        text.push(if *byte == b';' { b'\n' } else { *byte })?;
    }
    text.push(b'\n')?;
    Ok(text)
}

/// Runs the rows of a table. Each has a script, what it writes, and, where it ends with another status than
/// 0, that status and the line that it tells, parted by arrows. In front of the script may stand words, parted from it
/// by a colon.
pub fn check_rows(rt: &impl Abort, alloc: Global, table: &str) -> Result<(), Fail> {
    for row in table.split('\n') {
        let (words, row) = row.split_once(" : ").unwrap_or(("", row));
        let (script, rest) = row.split_once(" => ").ok_or("a script")?;
        let script = lines_of(alloc, script)?;
        match rest.split_once(" => ") {
            None => check_words(rt, alloc, words, &script, (0, &lines_of(alloc, rest)?, b""))?,
            Some((output, end)) => {
                let (code, told) = end.split_once(" ").ok_or("a status")?;
                let code = code.parse::<u8>().or(Err("a number"))?;
                let output = lines_of(alloc, output)?;
                let want = (code, output.as_slice(), lines_of(alloc, told)?);
                check_words(rt, alloc, words, &script, (want.0, want.1, &want.2))?;
            }
        }
    }
    Ok(())
}
