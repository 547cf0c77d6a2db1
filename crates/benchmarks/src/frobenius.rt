//! What the least relation of Frobenius takes, for modules of rank 2 and 8 over fields of degree 12.
ghost use Rattle.std.specs.Prelude.{◌≡◌};
ghost use Rattle.ring_core.specs.Ring.{IsElem};

use super::fields::{BITS_OF_TWELVE, BYTES_OF_TWELVE, FieldData, first_top};
use super::modules::module;
use super::{invalid, no_memory};
use frobenius_rel::least_relation;
use ring_core::{E, Field, FrobField};
use std::io;
use std::time::Instant;

/// Prints the time that the least relation of the module with `count` such coefficients takes.
fn print_time<K: FrobField>(rt: &HostRuntime, k: &K, c: E<K>, count: usize) -> io::Result<()>
    requires { IsElem (K.ops k.now) c }
{
    let phi = module(rt, k, c, count)?;
    let start = Instant::now(rt)?;
    let made = least_relation(rt.alloc(), k, &phi);
    let time = start.elapsed(rt)?;
    let Ok(relation) = made else {
        return Err(no_memory());
    };
    println!(rt;
        "  rank {}: degree {}, {} us",
        phi.rank(),
        relation.len().saturating_sub(1),
        time.as_micros()
    )
}

/// Measures modules over the top field of the data. The constant is the letter.
fn print_field(rt: &HostRuntime, data: &FieldData) -> io::Result<()> {
    let made = first_top(rt, data)?;
    let k = &made.tower;
    println!(rt; "{} elements, degree {}", k.base().q(), k.degree())?;
    let z = k.letter();
    if !k.is_elem(z) {
        return Err(invalid());
    }
    print_time(rt, k, z, 3)?;
    print_time(rt, k, z, 9)
}

/// Measures the fields of degree 12 over 2 and over 256 elements.
pub(super) fn print_all(rt: &HostRuntime) -> io::Result<()> {
    print_field(rt, &BITS_OF_TWELVE)?;
    print_field(rt, &BYTES_OF_TWELVE)
}
