ghost use Rattle.std.specs.Prelude.{◌≡◌, ℕ, ◌+◌, ◌≤◌, length, take, is_some, OnOk, OnErr};
ghost use Rattle.text_io.specs.Bytes.{Rose, with_back};

use crate::{Failed, Sink};

/// Writes all of `bytes`, in as many calls as it takes, and takes no memory. `Failed` comes only
/// where the sink's count of faults rose; then a front of the bytes was written.
pub fn write_whole<O: Sink>(sink: &mut O, bytes: &[u8]) -> Result<(), Failed>
    ensures ok { OnOk result (O.written sink.new ≡ with_back (O.written sink.old) bytes.now) }
    // This holds after Ok too, where the front is the whole.
    ensures prefix { (n : ℕ) × (O.written sink.new ≡ with_back (O.written sink.old) (take n bytes.now)) }
    ensures told { is_some (O.written sink.new) ≡ is_some (O.written sink.old) }
    ensures sound { OnOk result (O.faults sink.new ≡ O.faults sink.old) }
    ensures failed { OnErr result (Rose (O.faults sink.old) (O.faults sink.new)) }
    ensures counted { O.faults sink.old ≤ O.faults sink.new }
    ensures later { O.calls sink.old ≤ O.calls sink.new }
    ensures calls { O.calls sink.new ≤ O.calls sink.old + length bytes.now }
{
    let mut sent = 0;
    while sent < bytes.len() {
        sent += sink.write(&bytes[sent..])?;
    }
    Ok(())
}
