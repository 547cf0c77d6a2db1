ghost use Rattle.std.specs.Prelude.{◌≡◌, IfOk, true};
ghost use Rattle.ring_core.specs.Ring.{IsElem};
ghost use Rattle.ring_core.specs.Coeffs.{are_elems};
ghost use Rattle.ring_core.specs.Powers.{power_of, value_at};

use super::field::{E, Field};
use super::lists::coeff_at;
use super::memory::NoMemory;
use super::ring::Ring;
use std::alloc::Global;

/// The product of `k` times `a`, one for `k = 0`. Squares the power at half of `k`, so it makes at
/// most two products for each binary digit of `k`.
pub fn power<R: Ring>(alloc: Global, r: &R, a: &R::Elem, k: u128) -> Result<R::Elem, NoMemory>
    requires { IsElem (R.ops r.now) a.now }
    ensures value { IfOk result (λ v. v ≡ power_of (R.ops r.now) a.now k) }
    ensures elem { IfOk result (IsElem (R.ops r.now)) }
{
    if k == 0 {
        return Ok(r.one(alloc)?);
    }
    let half = power(alloc, r, a, k / 2)?;
    let square = r.mul(alloc, &half, &half)?;
    if k % 2 == 0 {
        Ok(square)
    } else {
        Ok(r.mul(alloc, &square, a)?)
    }
}

/// The product of `k` times `a` in a field, one for `k = 0`, by squares as in `power`. Takes no memory.
pub fn field_power<F: Field>(field: &F, a: E<F>, k: u128) -> E<F>
    requires { IsElem (F.ops field.now) a }
    ensures value { result ≡ power_of (F.ops field.now) a k }
    ensures elem { IsElem (F.ops field.now) result }
{
    if k == 0 {
        return field.one();
    }
    let half = field_power(field, a, k / 2);
    let square = field.mul(half, half);
    if k % 2 == 0 {
        square
    } else {
        field.mul(square, a)
    }
}

/// The value at `x` of the polynomial with these coefficients, lowest first, by Horner's rule. Takes no
/// memory.
pub fn value_of<F: Field>(field: &F, list: &[E<F>], x: E<F>) -> E<F>
    requires list { are_elems (F.ops field.now) list.now ≡ true }
    requires point { IsElem (F.ops field.now) x }
    ensures value { result ≡ value_at (F.ops field.now) list.now x }
    ensures elem { IsElem (F.ops field.now) result }
{
    let mut sum = field.zero();
    for i in (0..list.len()).rev() {
        let coeff = coeff_at(field, list, i);
        let shifted = field.mul(sum, x);
        sum = field.add(coeff, shifted);
    }
    sum
}

/// The sum of `coeffs[i] * a^i`, by Horner's rule. No coefficient need commute with `a`.
pub fn eval<R: Ring>(
    alloc: Global,
    r: &R,
    coeffs: &[R::Elem],
    a: &R::Elem,
) -> Result<R::Elem, NoMemory>
    requires coeffs { are_elems (R.ops r.now) coeffs.now ≡ true }
    requires point { IsElem (R.ops r.now) a.now }
    ensures value { IfOk result (λ v. v ≡ value_at (R.ops r.now) coeffs.now a.now) }
    ensures elem { IfOk result (IsElem (R.ops r.now)) }
{
    let mut sum = r.zero(alloc)?;
    for i in (0..coeffs.len()).rev() {
        let shifted = r.mul(alloc, &sum, a)?;
        sum = r.add(alloc, &coeffs[i], &shifted)?;
    }
    Ok(sum)
}
