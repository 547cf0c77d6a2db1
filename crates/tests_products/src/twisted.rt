//! Twisted polynomials over the field of four elements, whose elements are numbered 0, 1, 2 for `z` and
//! 3 for `z + 1`: `z^2 = z + 1` and `tau z = (z + 1) tau`. The examples are generic, since the proof of
//! each then goes by the bound alone.
ghost use Rattle.std.specs.Prelude.{◌≡◌, IfOk, true};
ghost use Rattle.ring_core.specs.Coeffs.{is_canonical};

use super::fields::{FOUR, four_elements, listed, member};
use ore_poly::{Ore, OreRing};
use ring_core::lists::all_elems;
use ring_core::{E, Field, FrobField, Ring, eval, power};
use std::alloc::Global;
use std::test::Fail;
use tests_support::fields::tower;
use tests_support::rings::{check_calls, checked, is_same};

/// The twisted polynomial with the coefficients of these numbers, as they stand.
fn ore<K: FrobField>(
    alloc: Global,
    ring: &OreRing<K>,
    names: &[E<K>],
    numbers: &[usize],
) -> Result<Ore<E<K>>, Fail>
    ensures { IfOk result (λ u. is_canonical (K.ops ring.now) u ≡ true) }
{
    let u = Ore::from_vec(listed(alloc, names, numbers)?);
    checked(ring, u)
}

fn ring_examples<K: FrobField>(alloc: Global, field: &K, names: &[E<K>]) -> Result<(), Fail> {
    let ring = OreRing::new(field);
    let a = ore(alloc, &ring, names, &[2, 1])?;
    let b = ore(alloc, &ring, names, &[2])?;
    let sum = ore(alloc, &ring, names, &[0, 1])?;
    // (z + tau) z = (z + 1) + (z + 1) tau
    let product = ore(alloc, &ring, names, &[3, 3])?;
    check_calls(alloc, &ring, &a, &b, &sum, &product)?;
    // z (z + tau) = (z + 1) + z tau
    let other = ore(alloc, &ring, names, &[3, 2])?;
    check_calls(alloc, &ring, &b, &a, &sum, &other)
}

fn power_example<K: FrobField>(alloc: Global, field: &K, names: &[E<K>]) -> Result<(), Fail> {
    let ring = OreRing::new(field);
    let a = ore(alloc, &ring, names, &[2, 1])?;
    let square = ore(alloc, &ring, names, &[3, 1, 1])?;
    is_same(&ring, &power(alloc, &ring, &a, 2)?, &square, "(z + tau)^2")
}

fn value_example<K: FrobField>(alloc: Global, field: &K, names: &[E<K>]) -> Result<(), Fail> {
    let ring = OreRing::new(field);
    let a = ore(alloc, &ring, names, &[2, 1])?;
    let coeffs = [ring.zero(alloc)?, ring.one(alloc)?, ring.one(alloc)?];
    let value = ore(alloc, &ring, names, &[1, 0, 1])?;
    is_same(
        &ring,
        &eval(alloc, &ring, &coeffs, &a)?,
        &value,
        "x + x^2 at z + tau",
    )
}

fn scale_example<K: FrobField>(alloc: Global, field: &K, names: &[E<K>]) -> Result<(), Fail> {
    let ring = OreRing::new(field);
    let z = member(field, names, 2)?;
    let u = ore(alloc, &ring, names, &[2, 1])?;
    let want = ore(alloc, &ring, names, &[3, 2])?;
    is_same(&ring, &ring.scale(alloc, z, &u)?, &want, "z (z + tau)")
}

fn term_examples<K: FrobField>(alloc: Global, field: &K, names: &[E<K>]) -> Result<(), Fail> {
    let ring = OreRing::new(field);
    let z = ore(alloc, &ring, names, &[2])?;
    let shifted = ore(alloc, &ring, names, &[0, 3])?;
    is_same(&ring, &ring.tau_shift(alloc, &z, 1)?, &shifted, "tau z")?;
    is_same(&ring, &ring.neg(alloc, &z)?, &z, "-z")?;
    let list = listed(alloc, names, &[2, 0])?;
    if !all_elems(field, &list) {
        return Err(Fail::new("elements of the field"));
    }
    is_same(
        &ring,
        &ring.make(alloc, &list)?,
        &z,
        "z with a zero at the top",
    )
}

fn apply_example<K: FrobField>(alloc: Global, field: &K, names: &[E<K>]) -> Result<bool, Fail> {
    let ring = OreRing::new(field);
    let z = member(field, names, 2)?;
    let u = ore(alloc, &ring, names, &[2, 1])?;
    let value = ring.apply(&u, z);
    Ok(field.equal(value, field.zero()))
}

#[test]
fn twisted_polynomials_over_four_elements(rt: HostRuntime) -> Result<(), Fail> {
    let alloc = rt.alloc();
    let field = tower(alloc, FOUR)?;
    let names = four_elements();
    ring_examples(alloc, &field, &names)?;
    power_example(alloc, &field, &names)?;
    value_example(alloc, &field, &names)?;
    scale_example(alloc, &field, &names)?;
    term_examples(alloc, &field, &names)?;
    assert!(rt; apply_example(alloc, &field, &names)?);
    Ok(())
}
