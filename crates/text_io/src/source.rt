ghost use Rattle.std.specs.Prelude.{◌≡◌, ℕ, ◌+◌, ◌<◌, ◌≤◌, Option, List, length, take, is_some, IfOk, OnOk, OnErr};
ghost use Rattle.text_io.specs.Bytes.{Rose, with_front, AtEnd};

use crate::Failed;

/// Where bytes come from.
///
/// A source has three meanings: `coming`, the bytes still to come, which it need not tell (`None`);
/// `faults`, a count of faults, at most `u64::MAX`, which never falls; and `calls`, a number of
/// calls, which never falls and which one call raises by at most 1. No call changes whether the
/// bytes are told.
pub trait Source {
    ghost coming: { Self → Option (List ℕ) };

    ghost faults: { Self → ℕ };

    ghost calls: { Self → ℕ };

    /// Puts the next bytes at the front of `into`, and gives their number. For an `into` that is
    /// not empty, 0 says that the source is at its end. `Failed` says that the count of faults
    /// rose, or stands at its last value.
    fn read(&mut self, into: &mut [u8]) -> Result<usize, Failed>
        ensures within { IfOk result (λ k. k ≤ length into.old) }
        ensures taken { IfOk result (λ k. with_front (take k into.new) (coming self.new) ≡ coming self.old) }
        ensures end { IfOk result (λ k. k ≡ 0 → 0 < length into.old → AtEnd (coming self.old)) }
        ensures told { is_some (coming self.new) ≡ is_some (coming self.old) }
        ensures sound { OnOk result (faults self.new ≡ faults self.old) }
        ensures failed { OnErr result (Rose (faults self.old) (faults self.new)) }
        ensures counted { faults self.old ≤ faults self.new }
        ensures later { calls self.old ≤ calls self.new }
        ensures once { calls self.new ≤ calls self.old + 1 };
}
