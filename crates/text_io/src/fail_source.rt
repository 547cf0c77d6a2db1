ghost use Rattle.std.specs.Prelude.{◌≡◌, ◌+◌, ◌<◌, ◌≤◌, length, take, drop, min, is_some, is_err, Some, IfOk, OnOk, OnErr};
ghost use Rattle.text_io.specs.Bytes.{Rose, with_front, AtEnd, next_count};
ghost use Rattle.text_io.specs.Memory.{is_due};

use crate::faults::is_listed;
use crate::plain_source::give;
use crate::{Failed, Source};
use std::marker::Model;

/// A source over bytes in memory that gives at most so many bytes at a call, and fails at chosen
/// calls. Its count of faults and its number of calls stand at `u64::MAX` once they reach it.
#[derive(Drop)]
pub struct FailSource {
    bytes: Vec<u8>,
    at: usize,
    most: usize,
    fails: Vec<u32>,
    faults: u64,
    calls: u64,
}

impl Model for FailSource {
    ghost use Rattle.std.specs.Prelude.{◌<◌, ◌≤◌, length, drop};
    ghost use Rattle.text_io.specs.Memory.{SourceState};

    ghost Value = { SourceState };

    ghost view = { λ s. record { coming = drop s.at s.bytes.items; most = s.most; fails = s.fails.items; faults = s.faults; calls = s.calls } };

    ghost invariant = { λ s. (s.at ≤ length s.bytes.items) × (0 < s.most) };
}

impl FailSource {
    /// A source from which these bytes come, at most `most` at a call, and whose calls with a
    /// number in `fails`, counted from 1, fail. It starts with no faults and no calls.
    pub fn new(bytes: Vec<u8>, most: usize, fails: Vec<u32>) -> FailSource
        requires { 0 < most }
        ensures coming { result.coming ≡ bytes.items }
        ensures most { result.most ≡ most }
        ensures fails { result.fails ≡ fails.items }
        ensures faults { result.faults ≡ 0 }
        ensures calls { result.calls ≡ 0 }
    {
        FailSource {
            bytes,
            at: 0,
            most,
            fails,
            faults: 0,
            calls: 0,
        }
    }
}

impl Source for FailSource {
    ghost coming = { λ s. Some s.coming };

    ghost faults = { λ s. s.faults };

    ghost calls = { λ s. s.calls };

    /// A call whose number is listed takes nothing, and raises the count of faults. Every other
    /// call gives the least of `most`, the buffer's length and the bytes left.
    fn read(&mut self, into: &mut [u8]) -> Result<usize, Failed>
        ensures number { self.new.calls ≡ next_count self.old.calls }
        ensures fails { is_err result ≡ is_due self.old.fails self.old.calls }
        ensures given { IfOk result (λ k. k ≡ min self.old.most (min (length into.old) (length self.old.coming))) }
        ensures front { IfOk result (λ k. take k into.new ≡ take k self.old.coming) }
        ensures rest { IfOk result (λ k. self.new.coming ≡ drop k self.old.coming) }
        ensures untouched { OnErr result (self.new.coming ≡ self.old.coming) }
        ensures fault { OnErr result (self.new.faults ≡ next_count self.old.faults) }
        ensures same_most { self.new.most ≡ self.old.most }
        ensures same_fails { self.new.fails ≡ self.old.fails }

        ensures within { IfOk result (λ k. k ≤ length into.old) }
        ensures taken { IfOk result (λ k. with_front (take k into.new) (Some self.new.coming) ≡ Some self.old.coming) }
        ensures end { IfOk result (λ k. k ≡ 0 → 0 < length into.old → AtEnd (Some self.old.coming)) }
        ensures told { is_some (Some self.new.coming) ≡ is_some (Some self.old.coming) }
        ensures sound { OnOk result (self.new.faults ≡ self.old.faults) }
        ensures failed { OnErr result (Rose self.old.faults self.new.faults) }
        ensures counted { self.old.faults ≤ self.new.faults }
        ensures later { self.old.calls ≤ self.new.calls }
        ensures once { self.new.calls ≤ self.old.calls + 1 }
    {
        self.calls = self.calls.saturating_add(1);
        if is_listed(&self.fails, self.calls) {
            self.faults = self.faults.saturating_add(1);
            return Err(Failed);
        }
        let most = self.most.min(self.bytes.len() - self.at);
        let count = give(&self.bytes[self.at..self.at + most], into);
        self.at += count;
        Ok(count)
    }
}
