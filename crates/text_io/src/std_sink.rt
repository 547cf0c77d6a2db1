ghost use Rattle.std.specs.Prelude.{◌<◌, ◌≤◌, length, take, IfSome, IfNone};
ghost use Rattle.std.specs.Io.KnownBytes.{Appends, Keeps};

use crate::{Failed, Sink};
use std::io::Write;

/// A sink over a writer of std. It tells no bytes and counts no calls. What a call wrote is flushed
/// in the same call. Each error of the write or of the flush, and each write of no byte of a piece
/// that is not empty, raises its count of faults, which stands at `u64::MAX` once it reaches it.
#[derive(Drop)]
pub struct StdSink<W> {
    writer: W,
    faults: u64,
}

impl<W: Write + Drop> StdSink<W> {
    ghost use Rattle.std.specs.Prelude.{◌≡◌};
    ghost use Rattle.text_io.specs.Streams.{writer_of, writer_faults};

    /// A sink over this writer, with no faults.
    pub fn new(writer: W) -> StdSink<W>
        ensures writer { writer_of result ≡ writer }
        ensures faults { writer_faults result ≡ 0 }
    {
        StdSink { writer, faults: 0 }
    }
}

impl<W: Write + Drop> Sink for StdSink<W> {
    ghost use Rattle.std.specs.Prelude.{◌≡◌, ◌<◌, ◌≤◌, length, take, None, IfOk, OnOk, OnErr};
    ghost use Rattle.std.specs.Io.KnownBytes.{Appends};
    ghost use Rattle.text_io.specs.Bytes.{next_count};
    ghost use Rattle.text_io.specs.Streams.{writer_of, writer_faults, HasFront};

    ghost written = { λ s. None };

    ghost faults = { λ s. s.faults };

    ghost calls = { λ s. 0 };

    /// Writes to the writer, once, and flushes it. `Failed` leaves what the writer holds, but for the front of
    /// the piece that was written where the flush failed.
    fn write(&mut self, piece: &[u8]) -> Result<usize, Failed>
        ensures within { IfOk result (λ k. k ≤ length piece.now) }
        ensures moves { IfOk result (λ k. 0 < length piece.now → 0 < k) }
        ensures bytes { IfOk result (λ k. Appends (W.contents (writer_of self.old)) (W.contents (writer_of self.new)) (take k piece.now)) }
        ensures kept { OnErr result (HasFront (W.contents (writer_of self.old)) (W.contents (writer_of self.new)) piece.now) }
        ensures sound { OnOk result (writer_faults self.new ≡ writer_faults self.old) }
        ensures fault { OnErr result (writer_faults self.new ≡ next_count (writer_faults self.old)) }
        ensures counted { writer_faults self.old ≤ writer_faults self.new }
    {
        if let Some(count) = send(&mut self.writer, piece) {
            if self.writer.flush().is_ok() {
                return Ok(count);
            }
        }
        self.faults = self.faults.saturating_add(1);
        Err(Failed)
    }
}

// Writes a front of `piece`. None says that the write failed, or that nothing of a piece that is not empty was
// written; then the writer holds what it held.
fn send<W: Write>(writer: &mut W, piece: &[u8]) -> Option<usize>
    ensures within { IfSome result (λ k. k ≤ length piece.now) }
    ensures moves { IfSome result (λ k. 0 < length piece.now → 0 < k) }
    ensures bytes { IfSome result (λ k. Appends (W.contents writer.old) (W.contents writer.new) (take k piece.now)) }
    ensures kept { IfNone result (Keeps (W.contents writer.old) (W.contents writer.new)) }
{
    let count = writer.write(piece).ok()?;
    if count == 0 && !piece.is_empty() {
        return None;
    }
    Some(count)
}
