//! How long the reader of scripts takes.

use super::invalid;
use script_parse::{Limits, parse};
use std::io;
use std::time::Instant;
use text_io::{StdSource, read_limited};

/// Prints what one call of `parse` takes on the script that standard input gives.
pub(super) fn print_parse(rt: &HostRuntime) -> io::Result<()> {
    let mut input = StdSource::new(rt.stdin());
    let Ok(bytes) = read_limited(rt.alloc(), &mut input, Limits::version_1().script) else {
        return Err(invalid());
    };
    let start = Instant::now(rt)?;
    let answer = parse(rt.alloc(), &bytes);
    let time = start.elapsed(rt)?;
    match answer {
        Ok(script) => {
            println!(rt;
                "{} bytes, {} statements: {} us",
                bytes.len(),
                script.list.len(),
                time.as_micros()
            )
        }
        Err(_) => println!(rt; "{} bytes, refused: {} us", bytes.len(), time.as_micros()),
    }
}
