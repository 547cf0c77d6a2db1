//! Twisted polynomials and polynomials from lists and rows of text, whose numbers are those of named elements.
ghost use Rattle.std.specs.Prelude.{◌≡◌, IfOk, true};
ghost use Rattle.ring_core.specs.Coeffs.{is_canonical};

use super::fields::numbers;
use super::plain::listed;
use fq_poly::{Poly, PolyRing};
use ore_poly::{Ore, OreRing};
use ring_core::lists::all_elems;
use ring_core::{E, Field, FrobField};
use std::alloc::Global;
use std::test::Fail;

/// The elements whose numbers the text has.
pub fn row<C: Copy>(alloc: Global, names: &[C], text: &str) -> Result<Vec<C>, Fail> {
    let mut places = Vec::new(alloc);
    for number in numbers(alloc, text)? {
        places.push(number as usize)?;
    }
    listed(alloc, names, &places)
}

/// The twisted polynomial with these coefficients, lowest first, without the zeros at the top.
pub fn made<K: FrobField>(alloc: Global, field: &K, list: &[E<K>]) -> Result<Ore<E<K>>, Fail>
    ensures { IfOk result (λ u. is_canonical (K.ops field.now) u ≡ true) }
{
    if !all_elems(field, list) {
        return Err(Fail::new("elements of the field"));
    }
    Ok(OreRing::new(field).make(alloc, list)?)
}

/// The twisted polynomial whose coefficients have the numbers of the text, lowest first.
pub fn ore<K: FrobField>(
    alloc: Global,
    field: &K,
    names: &[E<K>],
    text: &str,
) -> Result<Ore<E<K>>, Fail>
    ensures { IfOk result (λ u. is_canonical (K.ops field.now) u ≡ true) }
{
    made(alloc, field, &row(alloc, names, text)?)
}

/// The polynomial with these coefficients, lowest first, without the zeros at the top.
pub fn poly<F: Field>(alloc: Global, field: &F, list: &[E<F>]) -> Result<Poly<E<F>>, Fail>
    ensures { IfOk result (λ u. is_canonical (F.ops field.now) u ≡ true) }
{
    if !all_elems(field, list) {
        return Err(Fail::new("elements of the field"));
    }
    Ok(PolyRing::new(field).make(alloc, list)?)
}
