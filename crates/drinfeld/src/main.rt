//! The command `drinfeld`: it runs the script on standard input, writes the answers to standard
//! output and a fault's line to standard error, and ends with the status of the run.
#![tactic(auto)]

use drinfeld_cli::{Status, run};
use std::process::ExitCode;
use std::{env, io};
use text_io::{StdSink, StdSource};

/// The exit status where the system gives no words for another cause. No run ends with it.
const NO_WORDS: u8 = 10;

fn main(rt: HostRuntime) -> ExitCode {
    let words = match words_of_command(&rt) {
        Ok(words) => words,
        Err(error) if error.kind() == io::ErrorKind::OutOfMemory => {
            return ExitCode::from(Status::NoMemory.code());
        }
        Err(_) => return ExitCode::from(NO_WORDS),
    };
    let mut input = StdSource::new(rt.stdin());
    let mut output = StdSink::new(rt.stdout());
    let mut errors = StdSink::new(rt.stderr());
    let status = run(rt.alloc(), &words, &mut input, &mut output, &mut errors);
    ExitCode::from(status.code())
}

/// The words of the command line, without the program's name.
fn words_of_command(rt: &HostRuntime) -> io::Result<Vec<String>> {
    Ok(env::args(rt)?.skip(1).collect(rt.alloc())?)
}
