//! Polynomials over the fields of two and of three elements, whose elements are numbered as they are
//! written. The examples are generic, since the proof of each then goes by the bound alone.
ghost use Rattle.std.specs.Prelude.{◌≡◌, IfOk, true};
ghost use Rattle.ring_core.specs.Coeffs.{is_canonical};

use super::fields::{listed, member};
use fq_poly::{Poly, PolyFault, PolyRing};
use ring_core::lists::all_elems;
use ring_core::{E, Field, Ring, eval, power};
use std::alloc::Global;
use std::test::Fail;
use tests_support::fields::prime_field;
use tests_support::rings::{check_calls, checked, is_same};

/// The polynomial with the coefficients of these numbers, lowest first, as they stand.
fn poly<F: Field>(
    alloc: Global,
    ring: &PolyRing<F>,
    names: &[E<F>],
    numbers: &[usize],
) -> Result<Poly<E<F>>, Fail>
    ensures { IfOk result (λ u. is_canonical (F.ops ring.now) u ≡ true) }
{
    let u = Poly::from_vec(listed(alloc, names, numbers)?);
    checked(ring, u)
}

fn ring_example<F: Field>(alloc: Global, field: &F, names: &[E<F>]) -> Result<(), Fail> {
    let ring = PolyRing::new(field);
    // (x + 1) (x + 2) = x^2 + 2 over three elements
    let a = poly(alloc, &ring, names, &[1, 1])?;
    let b = poly(alloc, &ring, names, &[2, 1])?;
    let sum = poly(alloc, &ring, names, &[0, 2])?;
    let product = poly(alloc, &ring, names, &[2, 0, 1])?;
    check_calls(alloc, &ring, &a, &b, &sum, &product)
}

fn power_example<F: Field>(alloc: Global, field: &F, names: &[E<F>]) -> Result<(), Fail> {
    let ring = PolyRing::new(field);
    // (x + 1)^3 = x^3 + 1 over three elements
    let a = poly(alloc, &ring, names, &[1, 1])?;
    let cube = poly(alloc, &ring, names, &[1, 0, 0, 1])?;
    is_same(&ring, &power(alloc, &ring, &a, 3)?, &cube, "(x + 1)^3")
}

fn value_example<F: Field>(alloc: Global, field: &F, names: &[E<F>]) -> Result<(), Fail> {
    let ring = PolyRing::new(field);
    // (x + 1) + (x + 1)^2 = x^2 + 2 over three elements
    let a = poly(alloc, &ring, names, &[1, 1])?;
    let coeffs = [ring.zero(alloc)?, ring.one(alloc)?, ring.one(alloc)?];
    let value = poly(alloc, &ring, names, &[2, 0, 1])?;
    is_same(
        &ring,
        &eval(alloc, &ring, &coeffs, &a)?,
        &value,
        "y + y^2 at x + 1",
    )
}

fn division_example<F: Field>(alloc: Global, field: &F, names: &[E<F>]) -> Result<(), Fail> {
    let ring = PolyRing::new(field);
    let a = poly(alloc, &ring, names, &[1, 0, 1])?;
    let b = poly(alloc, &ring, names, &[1, 1])?;
    let zero = ring.zero(alloc)?;
    let (quotient, rest) = ring.divide(alloc, &a, &b)?;
    is_same(&ring, &checked(&ring, quotient)?, &b, "the quotient")?;
    is_same(&ring, &checked(&ring, rest)?, &zero, "the remainder")?;
    match ring.divide(alloc, &a, &zero) {
        Err(PolyFault::ZeroDivisor) => Ok(()),
        _ => Err(Fail::new("a division by zero")),
    }
}

fn monic_example<F: Field>(alloc: Global, field: &F, names: &[E<F>]) -> Result<(), Fail> {
    let ring = PolyRing::new(field);
    let a = poly(alloc, &ring, names, &[1, 2])?;
    let want = poly(alloc, &ring, names, &[2, 1])?;
    let monic = ring.monic(alloc, &a)?;
    is_same(&ring, &checked(&ring, monic)?, &want, "the monic multiple")?;
    let zero = ring.zero(alloc)?;
    match ring.monic(alloc, &zero) {
        Err(PolyFault::ZeroDivisor) => Ok(()),
        _ => Err(Fail::new("a monic multiple of zero")),
    }
}

fn shift_example<F: Field>(alloc: Global, field: &F, names: &[E<F>]) -> Result<(), Fail> {
    let ring = PolyRing::new(field);
    let a = poly(alloc, &ring, names, &[2, 1])?;
    let want = poly(alloc, &ring, names, &[0, 2, 1])?;
    is_same(&ring, &ring.shift(alloc, &a, 1)?, &want, "x (x + 2)")
}

fn make_example<F: Field>(alloc: Global, field: &F, names: &[E<F>]) -> Result<(), Fail> {
    let ring = PolyRing::new(field);
    let list = listed(alloc, names, &[1, 2, 0])?;
    if !all_elems(field, &list) {
        return Err(Fail::new("elements of the field"));
    }
    let want = poly(alloc, &ring, names, &[1, 2])?;
    is_same(
        &ring,
        &ring.make(alloc, &list)?,
        &want,
        "1 + 2 x with a zero at the top",
    )
}

fn point_example<F: Field>(alloc: Global, field: &F, names: &[E<F>]) -> Result<bool, Fail> {
    let ring = PolyRing::new(field);
    let two = member(field, names, 2)?;
    let a = poly(alloc, &ring, names, &[1, 0, 1])?;
    let value = ring.eval(&a, two);
    Ok(field.equal(value, two))
}

#[test]
fn polynomials_over_two_elements(rt: HostRuntime) -> Result<(), Fail> {
    let alloc = rt.alloc();
    let field = prime_field(alloc, 2)?;
    division_example(alloc, &field, &[0, 1])
}

#[test]
fn polynomials_over_three_elements(rt: HostRuntime) -> Result<(), Fail> {
    let alloc = rt.alloc();
    let field = prime_field(alloc, 3)?;
    let names = [0, 1, 2];
    ring_example(alloc, &field, &names)?;
    power_example(alloc, &field, &names)?;
    value_example(alloc, &field, &names)?;
    monic_example(alloc, &field, &names)?;
    shift_example(alloc, &field, &names)?;
    make_example(alloc, &field, &names)?;
    assert!(rt; point_example(alloc, &field, &names)?);
    Ok(())
}
