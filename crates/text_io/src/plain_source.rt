ghost use Rattle.std.specs.Prelude.{◌≡◌, ◌<◌, ◌≤◌, length, take, drop, min, Some, Ok, IfOk};
ghost use Rattle.text_io.specs.Bytes.{with_front, AtEnd};

use crate::{Failed, Source};
use std::marker::Model;

/// A source over bytes in memory, which never fails and counts no calls. A contract sees it as the
/// list of the bytes still to come.
#[derive(Drop)]
pub struct PlainSource {
    bytes: Vec<u8>,
    at: usize,
}

impl Model for PlainSource {
    ghost use Rattle.std.specs.Prelude.{ℕ, ◌≤◌, List, length, drop};

    ghost Value = { List ℕ };

    ghost view = { λ s. drop s.at s.bytes.items };

    ghost invariant = { λ s. s.at ≤ length s.bytes.items };
}

impl PlainSource {
    /// A source from which these bytes come.
    pub fn new(bytes: Vec<u8>) -> PlainSource
        ensures { result ≡ bytes.items }
    {
        PlainSource { bytes, at: 0 }
    }
}

impl Source for PlainSource {
    ghost coming = { λ s. Some s };

    ghost faults = { λ s. 0 };

    ghost calls = { λ s. 0 };

    /// Gives the least of the buffer's length and the bytes left.
    fn read(&mut self, into: &mut [u8]) -> Result<usize, Failed>
        ensures given { result ≡ Ok (min (length into.old) (length self.old)) }
        ensures front { IfOk result (λ k. take k into.new ≡ take k self.old) }
        ensures rest { IfOk result (λ k. self.new ≡ drop k self.old) }

        ensures within { IfOk result (λ k. k ≤ length into.old) }
        ensures taken { IfOk result (λ k. with_front (take k into.new) (Some self.new) ≡ Some self.old) }
        ensures end { IfOk result (λ k. k ≡ 0 → 0 < length into.old → AtEnd (Some self.old)) }
    {
        let count = give(&self.bytes[self.at..], into);
        self.at += count;
        Ok(count)
    }
}

// Copies as many of `bytes` as fit to the front of `into`, and gives their number.
pub(crate) fn give(bytes: &[u8], into: &mut [u8]) -> usize
    ensures given { result ≡ min (length into.old) (length bytes.now) }
    ensures front { take result into.new ≡ take result bytes.now }
{
    let count = into.len().min(bytes.len());
    into[..count].copy_from_slice(&bytes[..count]);
    count
}
