//! Expansions in powers of the image of T, by repeated division on the right.
ghost use Rattle.std.specs.Prelude.{◌≡◌, ◌≤◌, IfOk, length, true};
ghost use Rattle.ring_core.specs.Coeffs.{are_elems, is_canonical, first_values};
ghost use Rattle.ring_core.specs.Twisted.{twisted_ops};
ghost use Rattle.ore_divide.specs.Division.{IsRightDivision};
ghost use Rattle.motive_coords.specs.steps.Expansion.{IsExpansion, column_at};

use fq_poly::Poly;
use ore_divide::{Division, OreFault, right_divide};
use ore_poly::{Ore, OreRing};
use ring_core::lists::{coeff_at, trimmed};
use ring_core::{E, FrobField, NoMemory, Ring};
use std::alloc::Global;

/// Division on the right by `letter`, which isn't zero.
fn divided<K: FrobField>(
    alloc: Global,
    field: &K,
    u: &Ore<E<K>>,
    letter: &Ore<E<K>>,
) -> Result<Division<E<K>>, NoMemory>
    requires letter { is_canonical (K.ops field.now) letter.now ≡ true }
    requires long { 2 ≤ length letter.now }
    requires elem { is_canonical (K.ops field.now) u.now ≡ true }
    ensures { IfOk result (λ v. IsRightDivision (K.ops field.now) (K.frob_ops field.now).frob u.now letter.now v.quotient v.remainder) }
{
    match right_divide(alloc, field, u, letter) {
        Ok(division) => Ok(division),
        Err(OreFault::NoMemory) => Err(NoMemory),
        Err(OreFault::ZeroDivisor) => unreachable!(),
    }
}

/// The digits of `u` to the base `letter`, lowest first: the remainders of repeated division on the right.
pub(super) fn digits_of<K: FrobField>(
    alloc: Global,
    field: &K,
    letter: &Ore<E<K>>,
    u: &Ore<E<K>>,
) -> Result<Vec<Ore<E<K>>>, NoMemory>
    requires letter { is_canonical (K.ops field.now) letter.now ≡ true }
    requires long { 2 ≤ length letter.now }
    requires elem { is_canonical (K.ops field.now) u.now ≡ true }
    ensures { IfOk result
        (λ v. IsExpansion (K.ops field.now) (K.frob_ops field.now).frob letter.now u.now v.items) }
{
    let mut rest = OreRing::new(field).copy(alloc, u)?;
    let mut digits = Vec::new(alloc);
    while rest.len() > 0 {
        let division = divided(alloc, field, &rest, letter)?;
        let Division {
            quotient,
            remainder,
        } = division;
        digits.push(remainder)?;
        rest = quotient;
    }
    Ok(digits)
}

/// The coefficients at `i` of the members, as a polynomial.
fn column<K: FrobField>(
    alloc: Global,
    field: &K,
    digits: &[Ore<E<K>>],
    i: usize,
) -> Result<Poly<E<K>>, NoMemory>
    requires { are_elems (twisted_ops (K.ops field.now) (K.frob_ops field.now).frob) digits.now ≡ true }
    ensures { IfOk result (λ v. v ≡ column_at (K.ops field.now) (K.frob_ops field.now).frob digits.now i) }
{
    let mut values = Vec::new(alloc);
    for j in 0..digits.len() {
        let member = coeff_at(field, digits[j].as_slice(), i);
        values.push(member)?;
    }
    Ok(Poly::from_vec(trimmed(field, values)))
}

/// The columns, as many as the rank.
pub(super) fn columns<K: FrobField>(
    alloc: Global,
    field: &K,
    digits: &[Ore<E<K>>],
    rank: usize,
) -> Result<Vec<Poly<E<K>>>, NoMemory>
    requires { are_elems (twisted_ops (K.ops field.now) (K.frob_ops field.now).frob) digits.now ≡ true }
    ensures { IfOk result (λ v. v.items ≡ first_values rank (column_at (K.ops field.now) (K.frob_ops field.now).frob digits.now)) }
{
    let mut list = Vec::new(alloc);
    for i in 0..rank {
        let one = column(alloc, field, digits, i)?;
        list.push(one)?;
    }
    Ok(list)
}
