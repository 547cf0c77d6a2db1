ghost use Rattle.std.specs.Prelude.{◌≡◌, ◌≢◌, ◌++◌, ℕ, ◌≤◌, Option, List, [], length, take, IsSome, IfOk};
ghost use Rattle.std.specs.List.{All};
ghost use Rattle.text_io.specs.Bytes.{Rose, with_back};
ghost use Rattle.command_words.specs.Words.{options_of, refusals, texts_of};
ghost use Rattle.sample_script.specs.Sample.{sample_text};
ghost use Rattle.session.specs.State.{first_state};
ghost use Rattle.session.specs.Of.{state_of};
ghost use Rattle.drinfeld_cli.specs.Runs.{echo_text, piece_of, Ended};
ghost use Rattle.script_parse.specs.Version.{version_1};
ghost use Rattle.script_parse.specs.Within.{IsWithin};
ghost use Rattle.script_parse.specs.Scripts.{IsPlaceOf};
ghost use Rattle.drinfeld_cli.specs.Run.{OfBytes, Says, SaysRefused};
ghost use Rattle.drinfeld_cli.specs.Complete.{IsComplete, IsCompleteStop};
ghost use Rattle.drinfeld_cli.specs.StatusTexts.{fault_text};
ghost use Rattle.drinfeld_cli.specs.steps.One.{OneSays};

use super::fault_line::write_fault;
use super::status::Status;
use answer_print::write_answer;
use command_words::{WordsStop, read_words};
use ring_core::NoMemory;
use sample_script::sample;
use script_parse::{Limits, Refused, SizeKind, Statement, parse};
use session::{Session, Stop};
use std::alloc::Global;
use text_io::{MemSink, PlainSource, ReadStop, Sink, Source, read_limited, write_whole};

/// Why a script isn't answered further.
#[derive(Clone, Copy, Debug)]
pub(crate) enum Halt {
    /// The statement stops.
    Stopped(Stop),
    /// A write failed.
    WriteFault,
}

/// The text that stands before an answer: the line of its statement, where lines are echoed.
fn echo_of(
    alloc: Global,
    echo: bool,
    bytes: &[u8],
    statement: &Statement,
) -> Result<Vec<u8>, NoMemory>
    requires { IsPlaceOf bytes.now statement.now }
    ensures { IfOk result (λ v. v.items ≡ echo_text echo bytes.now statement.now) }
{
    let mut text = Vec::new(alloc);
    if !echo {
        return Ok(text);
    }
    text.extend_from_slice(b"> ")?;
    text.extend_from_slice(&bytes[statement.start..statement.stop])?;
    text.extend_from_slice(b"\n")?;
    Ok(text)
}

/// Answers a statement, and writes its text, and the line before it where lines are echoed, as one piece.
fn answer_one<O: Sink>(
    alloc: Global,
    echo: bool,
    bytes: &[u8],
    session: &mut Session,
    statement: &Statement,
    output: &mut O,
) -> Result<(), Halt>
    requires within { IsWithin version_1 statement.now.form }
    requires place { IsPlaceOf bytes.now statement.now }
    ensures says { OneSays (piece_of echo bytes.now) (state_of session.old) statement.now (state_of session.new)
        (O.written output.old) (O.written output.new) (Rose (O.faults output.old) (O.faults output.new)) result }
    ensures sound { result ≢ Err Halt.WriteFault → O.faults output.new ≡ O.faults output.old }
{
    let answer = match session.step(statement) {
        Ok(answer) => answer,
        Err(stop) => return Err(Halt::Stopped(stop)),
    };
    let Ok(mut text) = echo_of(alloc, echo, bytes, statement) else {
        return Err(Halt::Stopped(Stop::NoMemory));
    };
    let Ok(()) = write_answer(alloc, session.printing(), &answer, &mut text) else {
        return Err(Halt::Stopped(Stop::NoMemory));
    };
    let Ok(()) = write_whole(output, &text) else {
        return Err(Halt::WriteFault);
    };
    Ok(())
}

/// Answers the statements of the bytes in order.
fn answer_all<O: Sink>(
    alloc: Global,
    echo: bool,
    bytes: &[u8],
    session: &mut Session,
    list: &[Statement],
    output: &mut O,
) -> Status
    requires first { state_of session.old ≡ first_state }
    requires within { All (λ s. IsWithin version_1 s.form) list.now }
    requires places { All (λ s. IsPlaceOf bytes.now s) list.now }
    ensures ended { Ended (piece_of echo bytes.now) list.now (O.written output.old) (O.written output.new) (Rose (O.faults output.old) (O.faults output.new)) result }
    ensures sound { result ≢ Status.WriteFault → O.faults output.new ≡ O.faults output.old }
{
    for statement in list {
        match answer_one(alloc, echo, bytes, session, statement, output) {
            Ok(()) => {}
            Err(Halt::Stopped(stop)) => return Status::of_stop(stop, statement.line),
            Err(Halt::WriteFault) => return Status::WriteFault,
        }
    }
    Status::Done
}

/// Answers the script that the bytes are.
fn answer_bytes<O: Sink>(alloc: Global, echo: bool, bytes: &[u8], output: &mut O) -> Status
    requires { length bytes.now ≤ version_1.script }
    ensures of_bytes { OfBytes echo bytes.now (O.written output.old) (O.written output.new) (Rose (O.faults output.old) (O.faults output.new)) result }
    ensures sound { result ≢ Status.WriteFault → O.faults output.new ≡ O.faults output.old }
{
    let script = match parse(alloc, bytes) {
        Ok(script) => script,
        Err(Refused::Syntax(line)) => return Status::Syntax { line },
        Err(Refused::Size(which, line)) => return Status::Size { which, line },
        Err(Refused::NoMemory) => return Status::NoMemory,
    };
    let mut session = Session::new(alloc);
    answer_all(
        alloc,
        echo,
        bytes,
        &mut session,
        script.list.as_slice(),
        output,
    )
}

/// Answers the sample of a number.
fn answer_sample<O: Sink>(alloc: Global, echo: bool, n: u32, output: &mut O) -> Status
    ensures of_bytes { OfBytes echo (sample_text n) (O.written output.old) (O.written output.new) (Rose (O.faults output.old) (O.faults output.new)) result }
    ensures sound { result ≢ Status.WriteFault → O.faults output.new ≡ O.faults output.old }
{
    let Ok(bytes) = sample(alloc, n) else {
        return Status::NoMemory;
    };
    answer_bytes(alloc, echo, &bytes, output)
}

/// Reads the script, and answers it.
fn answer_input<I: Source, O: Sink>(
    alloc: Global,
    echo: bool,
    input: &mut I,
    output: &mut O,
) -> Status
    ensures says { Says (record { echo = echo; sample = None }) (record {
      coming = I.coming input.old;
      left = I.coming input.new;
      before = O.written output.old;
      after = O.written output.new;
      read_failed = Rose (I.faults input.old) (I.faults input.new);
      write_failed = Rose (O.faults output.old) (O.faults output.new);
    }) result }
    ensures reads { result ≢ Status.ReadFault → I.faults input.new ≡ I.faults input.old }
    ensures writes { result ≢ Status.WriteFault → O.faults output.new ≡ O.faults output.old }
{
    let bytes = match read_limited(alloc, input, Limits::version_1().script) {
        Ok(bytes) => bytes,
        Err(ReadStop::Failed) => return Status::ReadFault,
        Err(ReadStop::TooLong) => {
            return Status::Size {
                which: SizeKind::Script,
                line: 0,
            };
        }
        Err(ReadStop::NoMemory) => return Status::NoMemory,
    };
    answer_bytes(alloc, echo, &bytes, output)
}

/// `run` but for its completeness and the line on the sink of errors.
fn answer<I: Source, O: Sink>(
    alloc: Global,
    words: &[String],
    input: &mut I,
    output: &mut O,
) -> Status
    ensures words { result ≡ Status.Words → refusals (texts_of words.now) ≢ [] }
    ensures refused { refusals (texts_of words.now) ≢ [] → SaysRefused (record {
      coming = I.coming input.old;
      left = I.coming input.new;
      before = O.written output.old;
      after = O.written output.new;
      read_failed = Rose (I.faults input.old) (I.faults input.new);
      write_failed = Rose (O.faults output.old) (O.faults output.new);
    }) result }
    ensures untouched { refusals (texts_of words.now) ≢ [] → input.new ≡ input.old }
    ensures sampled { IsSome (options_of (texts_of words.now)).sample → input.new ≡ input.old }
    ensures says { refusals (texts_of words.now) ≡ [] → Says (options_of (texts_of words.now)) (record {
      coming = I.coming input.old;
      left = I.coming input.new;
      before = O.written output.old;
      after = O.written output.new;
      read_failed = Rose (I.faults input.old) (I.faults input.new);
      write_failed = Rose (O.faults output.old) (O.faults output.new);
    }) result }
    ensures reads { result ≢ Status.ReadFault → I.faults input.new ≡ I.faults input.old }
    ensures writes { result ≢ Status.WriteFault → O.faults output.new ≡ O.faults output.old }
{
    let options = match read_words(alloc, words) {
        Ok(options) => options,
        Err(WordsStop::Refused) => return Status::Words,
        Err(WordsStop::NoMemory) => return Status::NoMemory,
    };
    match options.sample {
        Some(n) => answer_sample(alloc, options.echo, n, output),
        None => answer_input(alloc, options.echo, input, output),
    }
}

/// Reads the words, and then the script from `input`, or takes the sample of the option `--sample`. Answers the
/// statements in order on `output`, each answer as soon as it is found and as one piece of writing; with the flag
/// `--echo` the line of the statement stands before its answer, behind `> `.
///
/// - `Words`: exactly where the command refuses the words; then nothing is read or written.
/// - `ReadFault`: only where the count of faults of `input` rose; nothing is written.
/// - `Size` of the script, without a line: exactly where more than 65,536 bytes came; nothing is written.
/// - `Syntax`, and `Size` with a line: the first line at fault is no statement, or passes a limit; nothing
///   is written.
/// - `Meaning`, and `Size` of a degree: the first statement that has no answer; the texts of
///   the statements before it are written.
/// - `WriteFault`: only where the count of faults of `output` rose; the texts of the statements before one of
///   them are written, and a front of that one's.
/// - `NoMemory`: memory was refused; the texts of some first statements are written.
/// - `Done`: the texts of all statements are written.
///
/// With `--sample` nothing is read. A failed write to `errors` doesn't change the status.
pub fn run<I: Source, O: Sink, E: Sink>(
    alloc: Global,
    words: &[String],
    input: &mut I,
    output: &mut O,
    errors: &mut E,
) -> Status
    ensures words { result ≡ Status.Words → refusals (texts_of words.now) ≢ [] }
    ensures refused { refusals (texts_of words.now) ≢ [] → SaysRefused (record {
      coming = I.coming input.old;
      left = I.coming input.new;
      before = O.written output.old;
      after = O.written output.new;
      read_failed = Rose (I.faults input.old) (I.faults input.new);
      write_failed = Rose (O.faults output.old) (O.faults output.new);
    }) result }
    ensures untouched { refusals (texts_of words.now) ≢ [] → input.new ≡ input.old }
    ensures sampled { IsSome (options_of (texts_of words.now)).sample → input.new ≡ input.old }
    ensures says { refusals (texts_of words.now) ≡ [] → Says (options_of (texts_of words.now)) (record {
      coming = I.coming input.old;
      left = I.coming input.new;
      before = O.written output.old;
      after = O.written output.new;
      read_failed = Rose (I.faults input.old) (I.faults input.new);
      write_failed = Rose (O.faults output.old) (O.faults output.new);
    }) result }
    ensures reads { result ≢ Status.ReadFault → I.faults input.new ≡ I.faults input.old }
    ensures writes { result ≢ Status.WriteFault → O.faults output.new ≡ O.faults output.old }
    ensures complete { refusals (texts_of words.now) ≡ [] → IsComplete (options_of (texts_of words.now)) (record {
      coming = I.coming input.old;
      left = I.coming input.new;
      before = O.written output.old;
      after = O.written output.new;
      read_failed = Rose (I.faults input.old) (I.faults input.new);
      write_failed = Rose (O.faults output.old) (O.faults output.new);
    }) result }
    ensures stopped { refusals (texts_of words.now) ≡ [] → IsCompleteStop (options_of (texts_of words.now)) (record {
      coming = I.coming input.old;
      left = I.coming input.new;
      before = O.written output.old;
      after = O.written output.new;
      read_failed = Rose (I.faults input.old) (I.faults input.new);
      write_failed = Rose (O.faults output.old) (O.faults output.new);
    }) result }
    ensures told { (n : ℕ) × (E.written errors.new ≡ with_back (E.written errors.old) (take n (fault_text result))) }
    ensures whole { (Rose (E.faults errors.old) (E.faults errors.new) → ⊥)
        → E.written errors.new ≡ with_back (E.written errors.old) (fault_text result) }
{
    let status = answer(alloc, words, input, output);
    let _ = write_fault(errors, &status);
    status
}

/// [`run`] over these bytes and sinks in memory. No read of bytes in memory fails, so `ReadFault` never comes.
pub fn run_bytes(
    alloc: Global,
    words: &[String],
    bytes: Vec<u8>,
    output: &mut MemSink,
    errors: &mut MemSink,
) -> Status
    ensures read { result ≢ Status.ReadFault }
    ensures words { result ≡ Status.Words → refusals (texts_of words.now) ≢ [] }
    ensures refused { refusals (texts_of words.now) ≢ [] → SaysRefused (record {
      coming = Some bytes.items;
      left = Some bytes.items;
      before = Some output.old.written;
      after = Some output.new.written;
      read_failed = ⊥;
      write_failed = Rose output.old.faults output.new.faults;
    }) result }
    ensures says { refusals (texts_of words.now) ≡ [] → (left : Option (List ℕ)) × Says (options_of (texts_of words.now)) (record {
      coming = Some bytes.items;
      left = left;
      before = Some output.old.written;
      after = Some output.new.written;
      read_failed = ⊥;
      write_failed = Rose output.old.faults output.new.faults;
    }) result }
    ensures writes { result ≢ Status.WriteFault → output.new.faults ≡ output.old.faults }
    ensures complete { refusals (texts_of words.now) ≡ [] → IsComplete (options_of (texts_of words.now)) (record {
      coming = Some bytes.items;
      left = None;
      before = Some output.old.written;
      after = Some output.new.written;
      read_failed = ⊥;
      write_failed = Rose output.old.faults output.new.faults;
    }) result }
    ensures stopped { refusals (texts_of words.now) ≡ [] → IsCompleteStop (options_of (texts_of words.now)) (record {
      coming = Some bytes.items;
      left = None;
      before = Some output.old.written;
      after = Some output.new.written;
      read_failed = ⊥;
      write_failed = Rose output.old.faults output.new.faults;
    }) result }
    ensures told { (n : ℕ) × (errors.new.written ≡ errors.old.written ++ take n (fault_text result)) }
    ensures whole { (Rose errors.old.faults errors.new.faults → ⊥) → errors.new.written ≡ errors.old.written ++ fault_text result }
{
    let mut input = PlainSource::new(bytes);
    run(alloc, words, &mut input, output, errors)
}
