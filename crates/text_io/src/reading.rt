ghost use Rattle.std.specs.Prelude.{◌≡◌, ℕ, ◌+◌, ◌<◌, ◌≤◌, ◌⊎◌, length, take, is_some, IfSome, IfOk, OnOk, OnErr, IsErr, IsErrOf};
ghost use Rattle.text_io.specs.Bytes.{Rose, with_front, AtEnd, read_bound};

use crate::{Failed, Source};
use std::alloc::Global;
use thiserror::Error;

/// Why [`read_limited`] gave no bytes.
#[derive(Debug, Drop, Error)]
pub enum ReadStop {
    /// A read failed: the source's count of faults rose, or stands at its last value.
    #[error("a read failed")]
    Failed,
    /// More bytes came than the limit.
    #[error("more bytes came than are read")]
    TooLong,
    /// Memory was refused, before the first read.
    #[error("out of memory")]
    NoMemory,
}

/// Reads a source to its end, which is seen, and gives all its bytes, at most `limit`, which is below
/// 1,000,000. The room for `limit + 1` bytes is taken before the first read.
///
/// It answers `Failed` only where the source's count of faults rose, `TooLong` exactly where more
/// than `limit` bytes came, and `NoMemory` where memory was refused, with the source as it was.
pub fn read_limited<I: Source>(
    alloc: Global,
    source: &mut I,
    limit: usize,
) -> Result<Vec<u8>, ReadStop>
    requires { limit < read_bound }

    // Ok: all bytes, which are few enough, and the end was seen.
    ensures all { IfOk result (λ v. IfSome (I.coming source.old) (λ bytes. v.items ≡ bytes)) }
    ensures fits { IfOk result (λ v. length v.items ≤ limit) }
    ensures end { OnOk result (AtEnd (I.coming source.new)) }
    ensures sound { OnOk result (I.faults source.new ≡ I.faults source.old) }

    // TooLong comes where more bytes came, and only there: then no other answer than a failure comes.
    ensures too_long { IsErrOf result ReadStop.TooLong → IfSome (I.coming source.old) (λ bytes. limit < length bytes) }
    ensures too_long_sound { IsErrOf result ReadStop.TooLong → I.faults source.new ≡ I.faults source.old }
    ensures refused { IfSome (I.coming source.old) (λ bytes. limit < length bytes → IsErr result) }

    ensures failed { IsErrOf result ReadStop.Failed → Rose (I.faults source.old) (I.faults source.new) }
    ensures no_memory { IsErrOf result ReadStop.NoMemory → source.new ≡ source.old }

    ensures told { is_some (I.coming source.new) ≡ is_some (I.coming source.old) }
    ensures counted { I.faults source.old ≤ I.faults source.new }
    ensures later { I.calls source.old ≤ I.calls source.new }
    ensures calls { I.calls source.new ≤ I.calls source.old + limit + 2 }
{
    let Ok(mut buffer) = vec![in alloc; 0u8; limit + 1] else {
        return Err(ReadStop::NoMemory);
    };
    let Ok(filled) = fill(source, &mut buffer) else {
        return Err(ReadStop::Failed);
    };
    if filled > limit {
        return Err(ReadStop::TooLong);
    }
    buffer.truncate(filled);
    Ok(buffer)
}

// Reads until the buffer is full or the end is seen, and gives the number of bytes.
fn fill<I: Source>(source: &mut I, buffer: &mut [u8]) -> Result<usize, Failed>
    ensures within { IfOk result (λ n. n ≤ length buffer.old) }
    ensures taken { IfOk result (λ n. with_front (take n buffer.new) (I.coming source.new) ≡ I.coming source.old) }
    ensures end { IfOk result (λ n. n < length buffer.old → AtEnd (I.coming source.new)) }
    ensures told { is_some (I.coming source.new) ≡ is_some (I.coming source.old) }
    ensures sound { OnOk result (I.faults source.new ≡ I.faults source.old) }
    ensures failed { OnErr result (Rose (I.faults source.old) (I.faults source.new)) }
    ensures counted { I.faults source.old ≤ I.faults source.new }
    ensures later { I.calls source.old ≤ I.calls source.new }
    ensures calls { I.calls source.new ≤ I.calls source.old + length buffer.old }
{
    let mut filled = 0;
    while filled < buffer.len() {
        let Ok(count) = source.read(&mut buffer[filled..]) else {
            return Err(Failed);
        };
        if count == 0 {
            return Ok(filled);
        }
        filled += count;
    }
    Ok(filled)
}
