use crate::{Failed, Source};
use std::io::Read;

/// A source over a reader of std. It tells no bytes and counts no calls; each error of the reader
/// raises its count of faults, which stands at `u64::MAX` once it reaches it.
#[derive(Drop)]
pub struct StdSource<R> {
    reader: R,
    faults: u64,
}

impl<R: Read + Drop> StdSource<R> {
    ghost use Rattle.std.specs.Prelude.{◌≡◌};
    ghost use Rattle.text_io.specs.Streams.{reader_of, reader_faults};

    /// A source over this reader, with no faults.
    pub fn new(reader: R) -> StdSource<R>
        ensures reader { reader_of result ≡ reader }
        ensures faults { reader_faults result ≡ 0 }
    {
        StdSource { reader, faults: 0 }
    }
}

impl<R: Read + Drop> Source for StdSource<R> {
    ghost use Rattle.std.specs.Prelude.{◌≡◌, ◌≤◌, length, None, IfOk, OnOk, OnErr};
    ghost use Rattle.std.specs.Io.KnownBytes.{ReadConsumes};
    ghost use Rattle.text_io.specs.Bytes.{next_count};
    ghost use Rattle.text_io.specs.Streams.{reader_of, reader_faults};

    ghost coming = { λ s. None };

    ghost faults = { λ s. s.faults };

    ghost calls = { λ s. 0 };

    /// Reads from the reader, once.
    fn read(&mut self, into: &mut [u8]) -> Result<usize, Failed>
        ensures within { IfOk result (λ k. k ≤ length into.old) }
        ensures bytes { ReadConsumes (R.remaining (reader_of self.old)) (R.remaining (reader_of self.new)) result into.new }
        ensures sound { OnOk result (reader_faults self.new ≡ reader_faults self.old) }
        ensures fault { OnErr result (reader_faults self.new ≡ next_count (reader_faults self.old)) }
        ensures counted { reader_faults self.old ≤ reader_faults self.new }
    {
        let Ok(count) = self.reader.read(into) else {
            self.faults = self.faults.saturating_add(1);
            return Err(Failed);
        };
        Ok(count)
    }
}
