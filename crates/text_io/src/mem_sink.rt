ghost use Rattle.std.specs.Prelude.{◌≡◌, ◌+◌, ◌-◌, ◌<◌, ◌≤◌, ◌&&◌, ◌||◌, not, ◌==◌, [], ◌++◌, length, take, min, is_err, Some, IfOk, OnOk, OnErr};
ghost use Rattle.text_io.specs.Bytes.{Rose, with_back, next_count};
ghost use Rattle.text_io.specs.Memory.{is_due};

use crate::faults::is_listed;
use crate::{Failed, Sink};
use ring_core::NoMemory;
use std::alloc::Global;
use std::marker::Model;

/// A sink in memory that takes at most so many bytes at a call and in all, and fails at chosen
/// calls. Its count of faults and its number of calls stand at `u64::MAX` once they reach it.
#[derive(Drop)]
pub struct MemSink {
    bytes: Vec<u8>,
    room: usize,
    most: usize,
    fails: Vec<u32>,
    faults: u64,
    calls: u64,
}

impl Model for MemSink {
    ghost use Rattle.std.specs.Prelude.{◌<◌, ◌≤◌, length, vec_capacity};
    ghost use Rattle.text_io.specs.Memory.{SinkState};

    ghost Value = { SinkState };

    ghost view = { λ s. record { written = s.bytes.items; room = s.room; most = s.most; fails = s.fails.items; faults = s.faults; calls = s.calls } };

    ghost invariant = { λ s. (length s.bytes.items ≤ s.room) × (s.room ≤ vec_capacity s.bytes) × (0 < s.most) };
}

impl MemSink {
    /// A sink that holds at most `room` bytes, takes at most `most` at a call, and whose calls with
    /// a number in `fails`, counted from 1, fail. The room is taken here. It starts with no bytes,
    /// no faults and no calls. It answers `NoMemory` where memory was refused.
    pub fn new(
        alloc: Global,
        room: usize,
        most: usize,
        fails: Vec<u32>,
    ) -> Result<MemSink, NoMemory>
        requires { 0 < most }
        ensures written { IfOk result (λ s. s.written ≡ []) }
        ensures room { IfOk result (λ s. s.room ≡ room) }
        ensures most { IfOk result (λ s. s.most ≡ most) }
        ensures fails { IfOk result (λ s. s.fails ≡ fails.items) }
        ensures faults { IfOk result (λ s. s.faults ≡ 0) }
        ensures calls { IfOk result (λ s. s.calls ≡ 0) }
    {
        let Ok(bytes) = Vec::with_capacity(alloc, room) else {
            return Err(NoMemory);
        };
        Ok(MemSink {
            bytes,
            room,
            most,
            fails,
            faults: 0,
            calls: 0,
        })
    }

    /// The bytes that the sink gained, in order.
    pub fn bytes(&self) -> &[u8]
        ensures { result.now ≡ self.now.written }
    {
        &self.bytes
    }
}

impl Sink for MemSink {
    ghost written = { λ s. Some s.written };

    ghost faults = { λ s. s.faults };

    ghost calls = { λ s. s.calls };

    /// A call whose number is listed, or one with a piece that is not empty where the room is used
    /// up, appends nothing and raises the count of faults. Every other call takes the least of
    /// `most`, the piece's length and the room left.
    fn write(&mut self, piece: &[u8]) -> Result<usize, Failed>
        ensures number { self.new.calls ≡ next_count self.old.calls }
        ensures fails { is_err result ≡ (is_due self.old.fails self.old.calls || (length self.old.written == self.old.room && not (length piece.now == 0))) }
        ensures given { IfOk result (λ k. k ≡ min self.old.most (min (length piece.now) (self.old.room - length self.old.written))) }
        ensures front { IfOk result (λ k. self.new.written ≡ self.old.written ++ take k piece.now) }
        ensures untouched { OnErr result (self.new.written ≡ self.old.written) }
        ensures fault { OnErr result (self.new.faults ≡ next_count self.old.faults) }
        ensures same_room { self.new.room ≡ self.old.room }
        ensures same_most { self.new.most ≡ self.old.most }
        ensures same_fails { self.new.fails ≡ self.old.fails }

        ensures within { IfOk result (λ k. k ≤ length piece.now) }
        ensures moves { IfOk result (λ k. 0 < length piece.now → 0 < k) }
        ensures appended { IfOk result (λ k. Some self.new.written ≡ with_back (Some self.old.written) (take k piece.now)) }
        ensures same { OnErr result (Some self.new.written ≡ Some self.old.written) }
        ensures sound { OnOk result (self.new.faults ≡ self.old.faults) }
        ensures failed { OnErr result (Rose self.old.faults self.new.faults) }
        ensures counted { self.old.faults ≤ self.new.faults }
        ensures later { self.old.calls ≤ self.new.calls }
        ensures once { self.new.calls ≤ self.old.calls + 1 }
    {
        self.calls = self.calls.saturating_add(1);
        let left = self.room - self.bytes.len();
        let is_full = left == 0 && !piece.is_empty();
        if is_listed(&self.fails, self.calls) || is_full {
            self.faults = self.faults.saturating_add(1);
            return Err(Failed);
        }
        let count = self.most.min(piece.len()).min(left);
        self.bytes.extend_from_slice(&piece[..count]).unwrap();
        Ok(count)
    }
}
