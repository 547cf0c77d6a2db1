//! Modules to measure, and what the height and an image of a module of rank 8 over the field of 4,096 elements take.
ghost use Rattle.std.specs.Prelude.{◌≡◌, IfOk};
ghost use Rattle.ring_core.specs.Ring.{IsElem};
ghost use Rattle.drinfeld_mod.specs.Module.{IsModule};

use super::fields::{BITS_OF_TWELVE, first_top};
use super::{invalid, no_memory};
use drinfeld_mod::{Module, height, image_of, make};
use fq_poly::PolyRing;
use ring_core::lists::all_elems;
use ring_core::{E, Field, FrobField};
use std::io;
use std::time::{Duration, Instant};

/// `c`, and then elements of which each is one more than `c` times the square of the one before it.
pub(super) fn coefficients<K: Field>(
    rt: &HostRuntime,
    k: &K,
    c: E<K>,
    count: usize,
) -> io::Result<Vec<E<K>>>
    requires { IsElem (K.ops k.now) c }
{
    let mut list = Vec::new(rt.alloc());
    let mut x = c;
    for _i in 0..count {
        list.push(x)?;
        x = k.add(k.mul(k.mul(x, x), c), k.one());
    }
    Ok(list)
}

/// The module with `count` such coefficients, lowest first.
pub(super) fn module<K: FrobField>(
    rt: &HostRuntime,
    k: &K,
    c: E<K>,
    count: usize,
) -> io::Result<Module<E<K>>>
    requires { IsElem (K.ops k.now) c }
    ensures { IfOk result (IsModule (K.ops k.now)) }
{
    let list = coefficients(rt, k, c, count)?;
    if !all_elems(k, &list) {
        return Err(invalid());
    }
    match make(rt.alloc(), k, &list) {
        Ok(phi) => Ok(phi),
        Err(_) => Err(invalid()),
    }
}

/// How many calls are measured, of which the shortest counts.
const CALLS: u32 = 20;

/// The time of a call of `height`.
fn height_time<K: FrobField>(
    rt: &HostRuntime,
    k: &K,
    phi: &Module<E<K>>,
) -> io::Result<(usize, Duration)>
    requires { IsModule (K.ops k.now) phi.now }
{
    let start = Instant::now(rt)?;
    let made = height(rt.alloc(), k, phi);
    let time = start.elapsed(rt)?;
    match made {
        Ok(h) => Ok((h, time)),
        Err(_) => Err(no_memory()),
    }
}

/// The degree of the image of `1 + T + .. + T^16`, and the time of the call.
fn image_time<K: FrobField>(
    rt: &HostRuntime,
    k: &K,
    phi: &Module<E<K>>,
) -> io::Result<(usize, Duration)>
    requires { IsModule (K.ops k.now) phi.now }
{
    let ones = vec![in rt.alloc(); k.base().one(); 17]?;
    if !all_elems(k.base(), &ones) {
        return Err(invalid());
    }
    let Ok(a) = PolyRing::new(k.base()).make(rt.alloc(), &ones) else {
        return Err(no_memory());
    };
    let start = Instant::now(rt)?;
    let made = image_of(rt.alloc(), k, phi, &a);
    let time = start.elapsed(rt)?;
    match made {
        Ok(image) => Ok((image.len().saturating_sub(1), time)),
        Err(_) => Err(no_memory()),
    }
}

/// Prints the shortest times of both calls.
fn print_times<K: FrobField>(rt: &HostRuntime, k: &K, phi: &Module<E<K>>) -> io::Result<()>
    requires { IsModule (K.ops k.now) phi.now }
{
    let (h, mut of_height) = height_time(rt, k, phi)?;
    let (degree, mut of_image) = image_time(rt, k, phi)?;
    for _i in 1..CALLS {
        let (_, time) = height_time(rt, k, phi)?;
        of_height = of_height.min(time);
        let (_, time) = image_time(rt, k, phi)?;
        of_image = of_image.min(time);
    }
    println!(rt;
        "  height {h} of rank {}: {} us",
        phi.rank(),
        of_height.as_micros()
    )?;
    println!(rt; "  image of degree {degree}: {} us", of_image.as_micros())
}

/// Measures a module of rank 8 over the top field of degree 12 over two elements. The constant is the letter.
pub(super) fn print_all(rt: &HostRuntime) -> io::Result<()> {
    let made = first_top(rt, &BITS_OF_TWELVE)?;
    let k = &made.tower;
    println!(rt; "{} elements, degree {}", k.base().q(), k.degree())?;
    let z = k.letter();
    if !k.is_elem(z) {
        return Err(invalid());
    }
    let phi = module(rt, k, z, 9)?;
    print_times(rt, k, &phi)
}
