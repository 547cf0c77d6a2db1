//! Products of twisted polynomials against the double sum that defines them.
use super::fields::{FOUR, SIXTY_FOUR, four_elements, listed, sixty_four_elements};
use ore_poly::OreRing;
use ring_core::lists::all_elems;
use ring_core::{E, Field, FrobField, Ring};
use std::alloc::Global;
use std::test::Fail;
use tests_support::fields::tower;
use tests_support::rings::{checked, elem};

/// `sum + a frob(b, i)`.
fn with_term<K: FrobField>(field: &K, sum: E<K>, a: E<K>, b: E<K>, i: usize) -> Result<E<K>, Fail> {
    let power = elem(field, field.frob(elem(field, b)?, i))?;
    let term = elem(field, field.mul(elem(field, a)?, power))?;
    Ok(field.add(elem(field, sum)?, term))
}

/// The sum of `a_i frob(b_j, i)` over `i + j = place`.
fn plain_coefficient<K: FrobField>(
    field: &K,
    a: &[E<K>],
    b: &[E<K>],
    place: usize,
) -> Result<E<K>, Fail> {
    let mut sum = field.zero();
    for (i, factor) in a.iter().enumerate() {
        let Some(j) = place.checked_sub(i) else {
            break;
        };
        if let Some(other) = b.get(j) {
            sum = with_term(field, sum, *factor, *other, i)?;
        }
    }
    Ok(sum)
}

/// Whether the product of the lists, and what its accessors say, is what the double sum gives.
fn is_plain_product<K: FrobField>(
    alloc: Global,
    field: &K,
    a: &[E<K>],
    b: &[E<K>],
) -> Result<bool, Fail> {
    let ring = OreRing::new(field);
    if !all_elems(field, a) || !all_elems(field, b) {
        return Err(Fail::new("elements of the field"));
    }
    let left = ring.make(alloc, a)?;
    let right = ring.make(alloc, b)?;
    let product = checked(&ring, ring.mul(alloc, &left, &right)?)?;
    let mut lowest = None;
    let mut degree = None;
    for place in 0..a.len().saturating_add(b.len()) {
        let want = elem(field, plain_coefficient(field, a, b, place)?)?;
        let zero = elem(field, field.zero())?;
        let got = elem(field, product.at(place).unwrap_or(zero))?;
        if !field.equal(got, want) {
            return Ok(false);
        }
        if !field.equal(want, zero) {
            degree = Some(place);
            lowest = lowest.or(degree);
        }
    }
    Ok(product.degree() == degree && ring.lowest(&product) == lowest)
}

/// The elements whose numbers are the three lowest digits of `number`.
fn three<C: Copy>(alloc: Global, names: &[C], number: usize) -> Result<Vec<C>, Fail> {
    let n = names.len().max(1);
    let high = number.checked_div(n).unwrap_or(0);
    let top = high.checked_div(n).unwrap_or(0);
    let digits = [number, high, top].map(|digit| digit.checked_rem(n).unwrap_or(0));
    listed(alloc, names, &digits)
}

/// The products of the list of a number by all lists of three of the named elements.
fn check_left<K: FrobField>(
    alloc: Global,
    field: &K,
    names: &[E<K>],
    number: usize,
    step: usize,
) -> Result<(), Fail> {
    let left = three(alloc, names, number)?;
    let count = names.len().saturating_pow(3);
    for other in (0..count).step_by(step.max(1)) {
        let right = three(alloc, names, other)?;
        if !is_plain_product(alloc, field, &left, &right)? {
            return Err(Fail::new("a product by the double sum"));
        }
    }
    Ok(())
}

/// All pairs of lists of three of the named elements, or every `step`-th of each.
fn check_products<K: FrobField>(
    alloc: Global,
    field: &K,
    names: &[E<K>],
    step: usize,
) -> Result<(), Fail> {
    let count = names.len().saturating_pow(3);
    for number in (0..count).step_by(step.max(1)) {
        check_left(alloc, field, names, number, step)?;
    }
    Ok(())
}

#[test]
fn all_short_products_over_four(rt: HostRuntime) -> Result<(), Fail> {
    let field = tower(rt.alloc(), FOUR)?;
    check_products(rt.alloc(), &field, &four_elements(), 1)
}

/// Over `F_4`, so that the Frobenius is the fourth power, in degree 3.
#[test]
fn some_products_over_sixty_four(rt: HostRuntime) -> Result<(), Fail> {
    let field = tower(rt.alloc(), SIXTY_FOUR)?;
    check_products(rt.alloc(), &field, &sixty_four_elements(), 7)
}
