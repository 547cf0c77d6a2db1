//! What products, the Frobenius, inverses, twisted products and acceptance cost in fields of several sizes.
ghost use Rattle.std.specs.Prelude.{◌≡◌};
ghost use Rattle.ring_core.specs.Ring.{IsElem};

use super::modules::coefficients;
use super::{invalid, no_memory};
use field_tower::{BaseField, Code, Tower, WIDTH};
use ore_poly::OreRing;
use ring_core::lists::all_elems;
use ring_core::{E, Field, FrobField, Ring};
use std::io;
use std::time::{Duration, Instant};

/// How many calls are made of what takes less than a microsecond.
const CALLS: u32 = 1_000_000;

/// How many inverses are taken.
const INVERSES: u32 = 10_000;

/// How many twisted products are made.
const TWISTED: u32 = 10;

/// A base field, by its prime and the coefficients of its modulus, and the powers of `z` in the modulus of the top field,
/// the highest first.
#[derive(Drop)]
pub(super) struct FieldData {
    p: u32,
    modulus: &'static [u32],
    powers: &'static [usize],
}

/// `a`: the residues are the numbers modulo the prime.
pub(super) const LETTER: &[u32] = &[0, 1];

/// `a^8 + a^4 + a^3 + a + 1`: over two elements there are 256 residues.
pub(super) const BYTES: &[u32] = &[1, 1, 0, 1, 1, 0, 0, 0, 1];

/// `a^2 + 1`: over three elements there are nine residues.
pub(super) const NINE: &[u32] = &[1, 0, 1];

/// `a^16 + a^5 + a^3 + a + 1`.
const WORDS: &[u32] = &[1, 1, 0, 1, 0, 1, 0, 0, 0, 0, 0, 0, 0, 0, 0, 0, 1];

/// Two elements and degree 8.
pub(super) const SMALL: FieldData = FieldData {
    p: 2,
    modulus: LETTER,
    powers: &[8, 4, 3, 1],
};

/// Two elements and degree 12.
pub(super) const BITS_OF_TWELVE: FieldData = FieldData {
    p: 2,
    modulus: LETTER,
    powers: &[12, 3],
};

/// 256 elements and degree 12.
pub(super) const BYTES_OF_TWELVE: FieldData = FieldData {
    p: 2,
    modulus: BYTES,
    powers: &[12, 3, 1],
};

/// Three elements, 251, nine and 65,536.
const OTHERS: [FieldData; 4] = [
    FieldData {
        p: 3,
        modulus: LETTER,
        powers: &[12, 2],
    },
    FieldData {
        p: 251,
        modulus: LETTER,
        powers: &[12, 1],
    },
    FieldData {
        p: 3,
        modulus: NINE,
        powers: &[12, 4],
    },
    FieldData {
        p: 2,
        modulus: WORDS,
        powers: &[16, 5, 3, 1],
    },
];

/// A top field, and what it took to make it.
#[derive(Drop)]
pub(super) struct Made {
    pub(super) tower: Tower,
    /// The call that made the base.
    base: Duration,
    /// The call that made the tower.
    accepted: Duration,
    /// The longest call that refused a modulus.
    refused: Duration,
}

/// The last of `CALLS` products, each by `c`.
fn products<K: Field>(k: &K, c: E<K>) -> E<K>
    requires { IsElem (K.ops k.now) c }
    ensures { IsElem (K.ops k.now) result }
{
    let mut x = c;
    for _i in 0..CALLS {
        x = k.mul(x, c);
    }
    x
}

/// The last of `CALLS` powers by the Frobenius, by each number of steps in turn.
fn frobenius_powers<K: FrobField>(k: &K, c: E<K>) -> E<K>
    requires { IsElem (K.ops k.now) c }
    ensures { IsElem (K.ops k.now) result }
{
    let mut x = c;
    for i in 0..CALLS {
        x = k.frob(x, i as usize);
    }
    x
}

/// The last of `INVERSES` inverses, each of the one before; one after an inverse of zero.
fn inverses<K: Field>(k: &K, c: E<K>) -> E<K>
    requires { IsElem (K.ops k.now) c }
    ensures { IsElem (K.ops k.now) result }
{
    let mut x = c;
    for _i in 0..INVERSES {
        x = match k.inv(x) {
            Some(inverse) => inverse,
            None => k.one(),
        };
    }
    x
}

/// What a product of two twisted polynomials of degree 64 takes.
fn twisted_time<K: FrobField>(rt: &HostRuntime, k: &K, c: E<K>) -> io::Result<Duration>
    requires { IsElem (K.ops k.now) c }
{
    let list = coefficients(rt, k, c, 65)?;
    if !all_elems(k, &list) {
        return Err(invalid());
    }
    let ring = OreRing::new(k);
    let Ok(u) = ring.make(rt.alloc(), &list) else {
        return Err(no_memory());
    };
    let start = Instant::now(rt)?;
    for _i in 0..TWISTED {
        let Ok(_) = ring.mul(rt.alloc(), &u, &u) else {
            return Err(no_memory());
        };
    }
    Ok(start.elapsed(rt)?)
}

/// `c` and these powers of `z`, lowest coefficient first.
fn polynomial(powers: &[usize], c: Code) -> [Code; WIDTH + 1] {
    let mut list = [0; WIDTH + 1];
    list[0] = c;
    for power in powers {
        if let Some(place) = list.get_mut(*power) {
            *place = 1;
        }
    }
    list
}

/// The degree of the polynomial with these coefficients.
pub(super) fn degree(modulus: &[u32]) -> u32 {
    u32::try_from(modulus.len()).unwrap_or(0).saturating_sub(1)
}

/// The top field modulo the first polynomial `c` and the data's powers of `z` that is accepted, for codes `c` from 0 up.
pub(super) fn first_top(rt: &HostRuntime, data: &FieldData) -> io::Result<Made> {
    let n = data.powers.first().copied().unwrap_or(0).min(WIDTH);
    let s = degree(data.modulus);
    let start = Instant::now(rt)?;
    let made = BaseField::make(rt.alloc(), data.p, s, data.modulus);
    let base_time = start.elapsed(rt)?;
    let Ok(mut base) = made else {
        return Err(no_memory());
    };
    let mut refused = Duration::ZERO;
    for c in 0..base.q() {
        let list = polynomial(data.powers, c as Code);
        let top = &list[..n + 1];
        if !all_elems(&base, top) {
            break;
        }
        let start = Instant::now(rt)?;
        let made = Tower::make(rt.alloc(), base, n as u32, top);
        let time = start.elapsed(rt)?;
        match made {
            Ok(tower) => {
                return Ok(Made {
                    tower,
                    base: base_time,
                    accepted: time,
                    refused,
                });
            }
            Err(back) => {
                refused = refused.max(time);
                base = back.base;
            }
        }
    }
    Err(invalid())
}

/// What the call takes that refuses `a^s` as the modulus of a base over the numbers modulo the prime.
fn refused_base(rt: &HostRuntime, data: &FieldData) -> io::Result<Duration> {
    let s = degree(data.modulus);
    let mut list = vec![in rt.alloc(); 0u32; s as usize]?;
    list.push(1)?;
    let start = Instant::now(rt)?;
    let made = BaseField::make(rt.alloc(), data.p, s, &list);
    let time = start.elapsed(rt)?;
    if made.is_ok() && 1 < s {
        return Err(invalid());
    }
    Ok(time)
}

/// Prints what the making of the field took.
fn print_made(rt: &HostRuntime, data: &FieldData, made: &Made) -> io::Result<()> {
    let k = &made.tower;
    println!(rt; "{} elements, degree {}", k.base().q(), k.degree())?;
    let refused = refused_base(rt, data)?;
    println!(rt;
        "  BaseField::make accepted {} ns, modulo a power of a {} ns",
        made.base.as_nanos(),
        refused.as_nanos()
    )?;
    println!(rt;
        "  Tower::make accepted {} ns, refused {} ns",
        made.accepted.as_nanos(),
        made.refused.as_nanos()
    )
}

/// Prints the times of the calls of the field of the data.
fn print_times(rt: &HostRuntime, data: &FieldData) -> io::Result<()> {
    let made = first_top(rt, data)?;
    print_made(rt, data, &made)?;
    let k = &made.tower;
    let z = k.letter();
    if !k.is_elem(z) {
        return Err(invalid());
    }
    let start = Instant::now(rt)?;
    let product = products(k, z);
    let product_time = start.elapsed(rt)?;
    let start = Instant::now(rt)?;
    let power = frobenius_powers(k, z);
    let power_time = start.elapsed(rt)?;
    let start = Instant::now(rt)?;
    let inverse = inverses(k, z);
    let inverse_time = start.elapsed(rt)?;
    println!(rt;
        "  a product {} ns, a Frobenius power {} ns, an inverse {} ns, a twisted product of degrees 64 and 64 {} us",
        product_time.as_nanos() / CALLS as u128,
        power_time.as_nanos() / CALLS as u128,
        inverse_time.as_nanos() / INVERSES as u128,
        twisted_time(rt, k, z)?.as_micros() / TWISTED as u128
    )?;
    let start = Instant::now(rt)?;
    let Ok(polynomial) = k.min_poly(rt.alloc(), z) else {
        return Err(no_memory());
    };
    let polynomial_time = start.elapsed(rt)?;
    println!(rt;
        "  Tower::min_poly of the letter {} us, {} coefficients",
        polynomial_time.as_micros(),
        polynomial.len()
    )?;
    // what was computed is used
    println!(rt;
        "  equal: {} {}",
        k.equal(product, power),
        k.equal(inverse, power)
    )
}

/// Measures fields over 2, 3, 9, 251, 256 and 65,536 elements, of degree 8, 12 and 16.
pub(super) fn print_all(rt: &HostRuntime) -> io::Result<()> {
    print_times(rt, &SMALL)?;
    print_times(rt, &BITS_OF_TWELVE)?;
    print_times(rt, &BYTES_OF_TWELVE)?;
    for data in &OTHERS {
        print_times(rt, data)?;
    }
    Ok(())
}
