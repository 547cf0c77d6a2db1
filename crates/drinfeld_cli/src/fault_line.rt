//! The line that tells a fault. It is written in pieces, so that it takes no memory.
ghost use Rattle.std.specs.Prelude.{◌≡◌, ◌++◌, ℕ, ◌≤◌, take, codes, decimal, OnOk, OnErr};
ghost use Rattle.text_io.specs.Bytes.{Rose, with_back};
ghost use Rattle.drinfeld_cli.specs.StatusTexts.{fault_text};

use super::status::Status;
use itoa::Buffer;
use text_io::{Failed, Sink, write_whole};

/// Writes the two texts one after the other.
fn write_both<E: Sink>(errors: &mut E, first: &[u8], second: &[u8]) -> Result<(), Failed>
    ensures ok { OnOk result (E.written errors.new ≡ with_back (E.written errors.old) (first.now ++ second.now)) }
    ensures prefix { (n : ℕ) × (E.written errors.new ≡ with_back (E.written errors.old) (take n (first.now ++ second.now))) }
    ensures failed { OnErr result (Rose (E.faults errors.old) (E.faults errors.new)) }
    ensures counted { E.faults errors.old ≤ E.faults errors.new }
{
    write_whole(errors, first)?;
    write_whole(errors, second)
}

/// Writes where the fault is, and then its text.
fn write_at_line<E: Sink>(errors: &mut E, line: u32, cause: &[u8]) -> Result<(), Failed>
    ensures ok { OnOk result (E.written errors.new
        ≡ with_back (E.written errors.old) ((codes "line " ++ decimal line) ++ (codes ": " ++ cause.now))) }
    ensures prefix { (n : ℕ) × (E.written errors.new
        ≡ with_back (E.written errors.old) (take n ((codes "line " ++ decimal line) ++ (codes ": " ++ cause.now)))) }
    ensures failed { OnErr result (Rose (E.faults errors.old) (E.faults errors.new)) }
{
    let mut buffer = Buffer::new();
    write_both(errors, b"line ", buffer.format(line).as_bytes())?;
    write_both(errors, b": ", cause)
}

/// Writes the line of a status, which is empty for `Done`.
pub(crate) fn write_fault<E: Sink>(errors: &mut E, status: &Status) -> Result<(), Failed>
    ensures ok { OnOk result (E.written errors.new ≡ with_back (E.written errors.old) (fault_text status.now)) }
    ensures prefix { (n : ℕ) × (E.written errors.new ≡ with_back (E.written errors.old) (take n (fault_text status.now))) }
    ensures failed { OnErr result (Rose (E.faults errors.old) (E.faults errors.new)) }
{
    match status.line() {
        Some(line) => write_at_line(errors, line, status.cause()),
        None => write_whole(errors, status.cause()),
    }
}
