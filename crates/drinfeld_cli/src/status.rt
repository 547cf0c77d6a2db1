ghost use Rattle.std.specs.Prelude.{◌≡◌, option_map};
ghost use Rattle.drinfeld_cli.specs.Runs.{status_of};
ghost use Rattle.drinfeld_cli.specs.StatusTexts.{cause_text, code_of, line_of, meaning_text, size_text};

use script_parse::SizeKind;
use session::{MeaningKind, Stop};

/// How a run ended.
#[derive(Clone, Copy, Debug)]
pub enum Status {
    /// The script was read to its end and every statement answered.
    Done,
    /// The words on the command line aren't the command's.
    Words,
    /// The line is no statement.
    Syntax { line: u32 },
    /// A limit was passed; `line` is 0 where no line is to blame.
    Size { which: SizeKind, line: u32 },
    /// The statement in the line has no meaning.
    Meaning { kind: MeaningKind, line: u32 },
    /// Memory was refused.
    NoMemory,
    /// A read of the script failed.
    ReadFault,
    /// A write of an answer failed.
    WriteFault,
}

impl Status {
    /// The exit status of the program.
    pub fn code(&self) -> u8
        ensures { result ≡ code_of self.now }
    {
        match self {
            Status::Done => 0,
            Status::Words => 2,
            Status::Syntax { .. } => 3,
            Status::Size { .. } => 4,
            Status::Meaning { .. } => 5,
            Status::NoMemory => 6,
            Status::ReadFault => 7,
            Status::WriteFault => 8,
        }
    }

    /// The status of a stop at a statement of this line.
    pub(crate) fn of_stop(stop: Stop, line: u32) -> Status
        ensures { result ≡ status_of stop line }
    {
        match stop {
            Stop::Meaning(kind) => Status::Meaning { kind, line },
            Stop::Size(which) => Status::Size { which, line },
            Stop::NoMemory => Status::NoMemory,
        }
    }

    /// The line that is to blame, where there is one.
    pub(crate) fn line(&self) -> Option<u32>
        ensures { result ≡ line_of self.now }
    {
        match *self {
            Status::Size { line: 0, .. } => None,
            Status::Syntax { line } | Status::Size { line, .. } | Status::Meaning { line, .. } => {
                Some(line)
            }
            _ => None,
        }
    }

    /// The text of the fault with a line feed, empty for `Done`.
    pub(crate) fn cause(&self) -> &'static [u8]
        ensures { result.now ≡ cause_text self.now }
    {
        match *self {
            Status::Done => b"",
            Status::Words => b"words refused\n",
            Status::Syntax { .. } => b"not a statement\n",
            Status::Size { which, .. } => text_of_size(which),
            Status::Meaning { kind, .. } => text_of_meaning(kind),
            Status::NoMemory => b"out of memory\n",
            Status::ReadFault => b"read failed\n",
            Status::WriteFault => b"write failed\n",
        }
    }
}

/// The text of a limit that is passed.
fn text_of_size(which: SizeKind) -> &'static [u8]
    ensures { result.now ≡ size_text which }
{
    match which {
        SizeKind::Script => b"too large: script\n",
        SizeKind::Statements => b"too large: statements\n",
        SizeKind::Names => b"too large: names\n",
        SizeKind::Name => b"too large: name\n",
        SizeKind::Number => b"too large: number\n",
        SizeKind::Exponent => b"too large: exponent\n",
        SizeKind::Prime => b"too large: prime\n",
        SizeKind::Base => b"too large: base\n",
        SizeKind::Top => b"too large: top\n",
        SizeKind::Rank => b"too large: rank\n",
        SizeKind::Degree => b"too large: degree\n",
        SizeKind::Image => b"too large: image\n",
        SizeKind::Bound => b"too large: bound\n",
    }
}

/// The text of a cause for which a statement has no meaning.
fn text_of_meaning(kind: MeaningKind) -> &'static [u8]
    ensures { result.now ≡ meaning_text kind }
{
    match kind {
        MeaningKind::FieldMissing => b"no field yet\n",
        MeaningKind::FieldSet => b"the field is already set\n",
        MeaningKind::BadModulus => b"the modulus is not monic of the stated degree\n",
        MeaningKind::BaseReducible => b"the modulus of the base is reducible\n",
        MeaningKind::TopReducible => b"the modulus of the top is reducible\n",
        MeaningKind::UnknownName => b"unknown name\n",
        MeaningKind::WrongKind => b"wrong kind of name\n",
        MeaningKind::NameTaken => b"the name is taken\n",
        MeaningKind::NoRank => b"not a module\n",
        MeaningKind::ZeroDivisor => b"division by zero\n",
        MeaningKind::OtherConstant => b"the constants differ\n",
        MeaningKind::NoInvariant => b"no such invariant\n",
    }
}
