ghost use Rattle.std.specs.Prelude.{◌≡◌, ℕ, ◌+◌, ◌<◌, ◌≤◌, Option, List, length, take, IfOk, OnOk, OnErr};
ghost use Rattle.text_io.specs.Bytes.{Rose, with_back};

use crate::Failed;

/// Where bytes go.
///
/// A sink has three meanings: `written`, the bytes that it gained, which it need not tell (`None`);
/// `faults`, a count of faults, at most `u64::MAX`, which never falls; and `calls`, a number of
/// calls, which never falls and which one call raises by at most 1. No call changes whether the
/// bytes are told.
pub trait Sink {
    ghost written: { Self → Option (List ℕ) };

    ghost faults: { Self → ℕ };

    ghost calls: { Self → ℕ };

    /// Appends a front of `piece`, and gives its length: at least 1 for a piece that is not empty.
    /// `Failed` says that nothing was appended, and that the count of faults rose or stands at its
    /// last value.
    fn write(&mut self, piece: &[u8]) -> Result<usize, Failed>
        ensures within { IfOk result (λ k. k ≤ length piece.now) }
        ensures moves { IfOk result (λ k. 0 < length piece.now → 0 < k) }
        ensures appended { IfOk result (λ k. written self.new ≡ with_back (written self.old) (take k piece.now)) }
        ensures same { OnErr result (written self.new ≡ written self.old) }
        ensures sound { OnOk result (faults self.new ≡ faults self.old) }
        ensures failed { OnErr result (Rose (faults self.old) (faults self.new)) }
        ensures counted { faults self.old ≤ faults self.new }
        ensures later { calls self.old ≤ calls self.new }
        ensures once { calls self.new ≤ calls self.old + 1 };
}
