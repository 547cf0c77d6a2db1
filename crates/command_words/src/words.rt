ghost use Rattle.std.specs.Prelude.{◌≡◌, ◌≢◌, false, [], codes, map, option_map, IfOk};
ghost use Rattle.std.specs.Option.{option_map_or};
ghost use Rattle.std.specs.Str.{bytes_eq};
ghost use Rattle.clap.specs.Words.{app_of, kind_of};
ghost use Rattle.command_words.specs.Words.{command, line_of, options_of, refusals, texts_of};
ghost use Rattle.command_words.specs.steps.Found.{HasNumber, options_in};

use clap::error::ErrorKind;
use clap::{Arg, ArgAction, ArgMatches, Command, Error};
use ring_core::NoMemory;
use std::alloc::Global;

/// What the words ask for.
#[derive(Clone, Copy, Debug)]
pub struct Options {
    /// Each answer follows the line of its statement.
    pub echo: bool,
    /// The script is the sample of this number, and nothing is read.
    pub sample: Option<u32>,
}

/// Why words ask for nothing.
#[derive(Clone, Copy, Debug)]
pub enum WordsStop {
    /// They aren't the command's.
    Refused,
    /// Memory was refused.
    NoMemory,
}

/// The command.
fn command<'a>(alloc: Global) -> Result<Command<'a>, NoMemory>
    ensures { IfOk result (λ c. app_of c ≡ command) }
{
    let echo = Arg::new(alloc, "echo")
        .long("echo")
        .action(ArgAction::SetTrue);
    let sample = Arg::new(alloc, "sample")
        .long("sample")
        .action(ArgAction::Set)
        .value_parser(clap::value_parser!(u32));
    let bare = Command::new(alloc, "drinfeld")
        .disable_help_flag(true)
        .disable_version_flag(true);
    Ok(bare.arg(echo)?.arg(sample)?)
}

/// The program's name and the words.
fn line_of<'a>(alloc: Global, words: &'a [String]) -> Result<Vec<&'a str>, NoMemory>
    ensures { IfOk result (λ v. map (λ s. s.now) v.items ≡ line_of (texts_of words.now)) }
{
    let mut line: Vec<&'a str> = Vec::new(alloc);
    line.push("drinfeld")?;
    for word in words {
        line.push(word.as_str())?;
    }
    Ok(line)
}

/// What is found in words that the command takes.
fn options_in(matches: &ArgMatches<'_>) -> Options
    requires { HasNumber matches.now }
    ensures { result ≡ options_in matches.now }
{
    Options {
        echo: is_true(matches.get_str("echo")),
        sample: matches.get_one::<u32>("sample"),
    }
}

fn is_true(text: Option<&str>) -> bool
    ensures { result ≡ option_map_or (λ t. bytes_eq t (codes "true")) (option_map (λ s. s.now) text.entry) false }
{
    match text {
        Some(text) => text == "true",
        None => false,
    }
}

/// Reads the words behind the program's name: the flag `--echo`, and the option `--sample` with a number from 0 to
/// 4,294,967,295, each at most once.
///
/// `Refused` comes exactly where `clap` refuses the words, and `NoMemory` where memory was refused.
pub fn read_words(alloc: Global, words: &[String]) -> Result<Options, WordsStop>
    ensures taken { IfOk result (λ o. refusals (texts_of words.now) ≡ []) }
    ensures options { IfOk result (λ o. o ≡ options_of (texts_of words.now)) }
    ensures refused { result ≡ Err WordsStop.Refused → refusals (texts_of words.now) ≢ [] }
{
    let Ok(command) = command(alloc) else {
        return Err(WordsStop::NoMemory);
    };
    let Ok(line) = line_of(alloc, words) else {
        return Err(WordsStop::NoMemory);
    };
    match command.try_get_matches_from(line.as_slice()) {
        Ok(matches) => Ok(options_in(&matches)),
        Err(error) => Err(stop_of(&error)),
    }
}

/// The cause of an error of `clap`.
fn stop_of(error: &Error) -> WordsStop
    ensures { result ≡ WordsStop.Refused → kind_of error.now ≢ ErrorKind.OutOfMemory }
{
    if error.kind() == ErrorKind::OutOfMemory {
        return WordsStop::NoMemory;
    }
    WordsStop::Refused
}
