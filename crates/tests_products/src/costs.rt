//! How many operations of the field a product of lists makes, and how many products a power.
use super::fields::{FOUR, SIXTY_FOUR, four_elements, sixty_four_elements};
use fq_poly::{Poly, PolyRing};
use ore_poly::{Ore, OreRing};
use ring_core::{E, FrobField, Ring, power};
use std::alloc::Global;
use std::test::Fail;
use tests_support::counting::{CountingField, CountingRing};
use tests_support::fields::{prime_field, tower};
use tests_support::rings::{checked, is_same};

/// `n` times the element `c`.
fn copies<C: Copy>(alloc: Global, c: C, n: usize) -> Result<Vec<C>, Fail> {
    let mut list = Vec::new(alloc);
    for _ in 0..n {
        let Ok(()) = list.push(c) else {
            return Err(Fail::new("memory for a list"));
        };
    }
    Ok(list)
}

/// The products, and the steps of the Frobenius, that a product of polynomials makes, of lists of `m`
/// and `n` members that are all `c`.
fn polynomial_cost<K: FrobField>(
    alloc: Global,
    field: &K,
    c: E<K>,
    m: usize,
    n: usize,
) -> Result<(u64, u64), Fail> {
    let counting = CountingField::new(field);
    let ring = PolyRing::new(&counting);
    let a = checked(&ring, Poly::from_vec(copies(alloc, c, m)?))?;
    let b = checked(&ring, Poly::from_vec(copies(alloc, c, n)?))?;
    ring.mul(alloc, &a, &b)?;
    Ok((counting.products(), counting.steps()))
}

/// The same of a product of twisted polynomials.
fn twisted_cost<K: FrobField>(
    alloc: Global,
    field: &K,
    c: E<K>,
    m: usize,
    n: usize,
) -> Result<(u64, u64), Fail> {
    let counting = CountingField::new(field);
    let ring = OreRing::new(&counting);
    let a = checked(&ring, Ore::from_vec(copies(alloc, c, m)?))?;
    let b = checked(&ring, Ore::from_vec(copies(alloc, c, n)?))?;
    ring.mul(alloc, &a, &b)?;
    Ok((counting.products(), counting.steps()))
}

/// Whether products of lists of `m` and `n` members make at most `m n` products in the field. Polynomials make no step
/// of the Frobenius, and twisted polynomials one for each member of the rows that differ, but for the first.
fn costs_no_more<K: FrobField>(
    alloc: Global,
    field: &K,
    c: E<K>,
    m: usize,
    n: usize,
) -> Result<bool, Fail> {
    let most = m.saturating_mul(n) as u64;
    let raised = field.degree().min(m).saturating_sub(1).saturating_mul(n) as u64;
    let (products, none) = polynomial_cost(alloc, field, c, m, n)?;
    let (twisted, steps) = twisted_cost(alloc, field, c, m, n)?;
    Ok(products <= most && none == 0 && twisted <= most && steps <= raised)
}

#[test]
fn products_of_lists(rt: HostRuntime) -> Result<(), Fail> {
    let alloc = rt.alloc();
    let four = tower(alloc, FOUR)?;
    let [_, _, z, _] = four_elements();
    let sixty_four = tower(alloc, SIXTY_FOUR)?;
    let [_, _, _, w, _, _] = sixty_four_elements();
    for (m, n) in [(0, 3), (3, 0), (1, 1), (3, 4), (4, 3), (20, 11), (65, 65)] {
        assert!(rt; costs_no_more(alloc, &four, z, m, n)?, "{m} by {n}");
        assert!(rt;
            costs_no_more(alloc, &sixty_four, w, m, n)?,
            "{m} by {n} in degree 3"
        );
    }
    Ok(())
}

/// The products that the power of `a` by the largest `u128` makes. It must be `a`, as every odd power
/// of -1 is.
fn power_cost<R: Ring>(alloc: Global, inner: &R, a: R::Elem) -> Result<u64, Fail> {
    let ring = CountingRing::new(inner);
    let a = checked(&ring, a)?;
    let top = power(alloc, &ring, &a, u128::MAX)?;
    is_same(&ring, &top, &a, "an odd power of -1")?;
    Ok(ring.products())
}

#[test]
fn products_of_a_power(rt: HostRuntime) -> Result<(), Fail> {
    let alloc = rt.alloc();
    let field = prime_field(alloc, 3)?;
    let polys = PolyRing::new(&field);
    let two = Poly::from_vec(copies(alloc, 2, 1)?);
    let products = power_cost(alloc, &polys, two)?;
    assert!(rt; 1 <= products && products <= 256, "{products}");
    Ok(())
}
