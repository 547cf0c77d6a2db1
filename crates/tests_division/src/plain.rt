//! What an answer must meet, by plain products.
use ore_divide::{Common, Division, Multiple};
use ore_poly::Ore;
use ring_core::{E, Field, FrobField};
use std::alloc::Global;
use std::test::Fail;
use tests_support::plain::{are_same, plain_product, plain_sum};
use tests_support::rings::elem;

/// Whether `a b + c` is `want`.
fn is_sum<K: FrobField>(
    alloc: Global,
    field: &K,
    (a, b): (&[E<K>], &[E<K>]),
    c: &[E<K>],
    want: &[E<K>],
) -> Result<bool, Fail> {
    let product = plain_product(alloc, field, a, b)?;
    let sum = plain_sum(alloc, field, &product, c)?;
    are_same(field, &sum, want)
}

/// Whether the last coefficient is one.
fn is_monic<K: Field>(field: &K, u: &Ore<E<K>>) -> Result<bool, Fail> {
    let Some(last) = u.as_slice().last() else {
        return Ok(false);
    };
    let top = elem(field, *last)?;
    Ok(field.equal(top, elem(field, field.one())?))
}

/// Whether `a = c b + r` with the quotient `c` and a remainder `r` that is zero or of lower degree than `b`.
pub fn is_right_division<K: FrobField>(
    alloc: Global,
    field: &K,
    a: &Ore<E<K>>,
    b: &Ore<E<K>>,
    v: &Division<E<K>>,
) -> Result<bool, Fail> {
    let factors = (v.quotient.as_slice(), b.as_slice());
    let holds = is_sum(alloc, field, factors, v.remainder.as_slice(), a.as_slice())?;
    Ok(holds && v.remainder.len() < b.len())
}

/// Whether `a = b c + r` with such an `r`.
pub fn is_left_division<K: FrobField>(
    alloc: Global,
    field: &K,
    a: &Ore<E<K>>,
    b: &Ore<E<K>>,
    v: &Division<E<K>>,
) -> Result<bool, Fail> {
    let factors = (b.as_slice(), v.quotient.as_slice());
    let holds = is_sum(alloc, field, factors, v.remainder.as_slice(), a.as_slice())?;
    Ok(holds && v.remainder.len() < b.len())
}

/// Whether the cofactors have the degrees that fix them, by the numbers of coefficients.
fn are_small<C: Copy>(a: &Ore<C>, b: &Ore<C>, v: &Common<C>) -> bool {
    if a.len() == 0 {
        return v.s.len() == 0 && v.w.len() == b.len().min(1);
    }
    if b.len() == 0 {
        return v.w.len() == 0 && v.s.len() == 1;
    }
    v.s.len() == 0 || v.s.len().saturating_add(v.d.len()) <= b.len()
}

/// Whether `d = s a + w b`, which is monic where it isn't zero, with cofactors of small degrees.
pub fn is_combination<K: FrobField>(
    alloc: Global,
    field: &K,
    a: &Ore<E<K>>,
    b: &Ore<E<K>>,
    v: &Common<E<K>>,
) -> Result<bool, Fail> {
    let right = plain_product(alloc, field, v.w.as_slice(), b.as_slice())?;
    let factors = (v.s.as_slice(), a.as_slice());
    let holds = is_sum(alloc, field, factors, &right, v.d.as_slice())?;
    let monic = v.d.len() == 0 || is_monic(field, &v.d)?;
    Ok(holds && monic && are_small(a, b, v))
}

/// Whether `m = s a = w b` is monic of degree `deg a + deg b - deg d` for the common divisor `d`, which is the
/// least; or all three are zero where an operand is.
pub fn is_multiple<K: FrobField>(
    alloc: Global,
    field: &K,
    a: &Ore<E<K>>,
    b: &Ore<E<K>>,
    d: &Ore<E<K>>,
    v: &Multiple<E<K>>,
) -> Result<bool, Fail> {
    if a.len() == 0 || b.len() == 0 {
        return Ok(v.m.len() == 0 && v.s.len() == 0 && v.w.len() == 0);
    }
    let left = is_sum(
        alloc,
        field,
        (v.s.as_slice(), a.as_slice()),
        &[],
        v.m.as_slice(),
    )?;
    let right = is_sum(
        alloc,
        field,
        (v.w.as_slice(), b.as_slice()),
        &[],
        v.m.as_slice(),
    )?;
    let least = v.m.len().saturating_add(d.len()) == a.len().saturating_add(b.len());
    Ok(left && right && least && is_monic(field, &v.m)?)
}
