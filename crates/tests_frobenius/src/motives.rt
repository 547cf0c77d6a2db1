//! Motive coordinates over the field of four elements: worked ones, and those of all twisted polynomials of degree at
//! most 3, from which plain products make the twisted polynomial again. The elements are numbered 0, 1, 2 for `z` and 3
//! for `z + 1`.
use fq_poly::Poly;
use motive_coords::{motive, motive_over_t, of_motive, over_t};
use ring_core::{B, E, Field, FrobField};
use std::alloc::Global;
use std::process::Abort;
use std::test::Fail;
use tests_plain_modules::modules::{embedded, module, rows};
use tests_plain_modules::plain::scaled;
use tests_support::fields::{FOUR, elements, tower};
use tests_support::plain::{are_same, numbered, plain_product, plain_sum};
use tests_support::twisted::{made, row};

/// The motive coordinates of `u`.
fn coordinates<K: FrobField>(
    alloc: Global,
    field: &K,
    phi: &[E<K>],
    u: &[E<K>],
) -> Result<Vec<Poly<E<K>>>, Fail> {
    let phi = module(alloc, field, phi)?;
    let u = made(alloc, field, u)?;
    Ok(motive(alloc, field, &phi, &u)?)
}

/// What `of_motive` makes of the motive coordinates of `u`.
fn back<K: FrobField>(
    alloc: Global,
    field: &K,
    phi: &[E<K>],
    u: &[E<K>],
) -> Result<Vec<E<K>>, Fail> {
    let phi = module(alloc, field, phi)?;
    let u = made(alloc, field, u)?;
    let list = motive(alloc, field, &phi, &u)?;
    let made_again = of_motive(alloc, field, &phi, &list)?;
    Ok(made_again.into_vec())
}

/// The coordinates of `u` over the polynomials in T.
fn parts<K: FrobField>(
    alloc: Global,
    field: &K,
    phi: &[E<K>],
    u: &[E<K>],
) -> Result<Vec<Poly<B<K>>>, Fail> {
    let phi = module(alloc, field, phi)?;
    let u = made(alloc, field, u)?;
    Ok(over_t(alloc, field, &phi, &u)?)
}

/// The same from the motive coordinates.
fn parts_of_motive<K: FrobField>(
    alloc: Global,
    field: &K,
    phi: &[E<K>],
    u: &[E<K>],
) -> Result<Vec<Poly<B<K>>>, Fail> {
    let phi = module(alloc, field, phi)?;
    let u = made(alloc, field, u)?;
    let list = motive(alloc, field, &phi, &u)?;
    Ok(motive_over_t(alloc, field, &phi, &list)?)
}

/// The sum of `c_ij tau^i` over the coefficients `c_ij` at the place `j` of the members `c_i`.
fn digit<K: Field>(
    alloc: Global,
    field: &K,
    list: &[Poly<E<K>>],
    j: usize,
) -> Result<Vec<E<K>>, Fail> {
    let mut digit = Vec::new(alloc);
    for member in list {
        let Ok(()) = digit.push(member.at(j).unwrap_or(field.zero())) else {
            return Err(Fail::new("memory for a list"));
        };
    }
    Ok(digit)
}

/// The sum of `c_ij tau^i phi_T^j` over the coefficients at the places `j` below `most`.
fn plain_value<K: FrobField>(
    alloc: Global,
    field: &K,
    phi: &[E<K>],
    list: &[Poly<E<K>>],
    most: usize,
) -> Result<Vec<E<K>>, Fail> {
    let mut sum = Vec::new(alloc);
    for j in (0..most).rev() {
        let product = plain_product(alloc, field, &sum, phi)?;
        let lowest = digit(alloc, field, list, j)?;
        sum = plain_sum(alloc, field, &product, &lowest)?;
    }
    Ok(sum)
}

/// That the motive coordinates of `u`, of at most four coefficients each, are as many as the rank, have the plain value
/// `u`, and are turned back into it.
fn check_motive<K: FrobField>(
    rt: &impl Abort,
    alloc: Global,
    field: &K,
    phi: &[E<K>],
    u: &[E<K>],
    label: usize,
) -> Result<(), Fail> {
    let list = coordinates(alloc, field, phi, u)?;
    assert_eq!(rt; list.len(), phi.len().saturating_sub(1), "{label}");
    assert!(rt; list.iter().all(|member| member.len() <= 4), "{label}");
    let value = plain_value(alloc, field, phi, &list, 4)?;
    assert!(rt; are_same(field, &value, u)?, "{label}");
    let again = back(alloc, field, phi, u)?;
    assert!(rt; are_same(field, &again, u)?, "{label}");
    Ok(())
}

/// That each of the two lists of base coordinates `x` and `y` belongs to the coefficients `x + z y`.
fn check_part<K: FrobField>(
    rt: &impl Abort,
    alloc: Global,
    field: &K,
    z: E<K>,
    (x, y): (&[B<K>], &[B<K>]),
    want: &[E<K>],
) -> Result<(), Fail> {
    let constants = embedded(alloc, field, x)?;
    let others = embedded(alloc, field, y)?;
    let multiples = scaled(alloc, field, z, &others)?;
    let sum = plain_sum(alloc, field, &constants, &multiples)?;
    assert!(rt; are_same(field, &sum, want)?);
    Ok(())
}

/// That number `2 i` of the parts holds the first and number `2 i + 1` the second base coordinates of motive coordinate
/// `i`.
fn check_parts<K: FrobField>(
    rt: &impl Abort,
    alloc: Global,
    field: &K,
    z: E<K>,
    list: &[Poly<E<K>>],
    parts: &[Poly<B<K>>],
) -> Result<(), Fail> {
    assert_eq!(rt; parts.len(), list.len().saturating_mul(2));
    for (i, member) in list.iter().enumerate() {
        let first = i.saturating_mul(2);
        let (Some(x), Some(y)) = (parts.get(first), parts.get(first.saturating_add(1))) else {
            return Err(Fail::new("two parts of a coordinate"));
        };
        let both = (x.as_slice(), y.as_slice());
        check_part(rt, alloc, field, z, both, member.as_slice())?;
    }
    Ok(())
}

/// The coordinates over the polynomials in T of `u`, from `u` and from its motive coordinates.
fn check_over_t<K: FrobField>(
    rt: &impl Abort,
    alloc: Global,
    field: &K,
    z: E<K>,
    phi: &[E<K>],
    u: &[E<K>],
) -> Result<(), Fail> {
    let list = coordinates(alloc, field, phi, u)?;
    let direct = parts(alloc, field, phi, u)?;
    check_parts(rt, alloc, field, z, &list, &direct)?;
    let after = parts_of_motive(alloc, field, phi, u)?;
    check_parts(rt, alloc, field, z, &list, &after)
}

/// The coordinates of all twisted polynomials of degree at most 3 for the module of a row.
fn check_all<K: FrobField>(
    rt: &impl Abort,
    alloc: Global,
    field: &K,
    names: &[E<K>],
    text: &str,
) -> Result<(), Fail> {
    let phi = row(alloc, names, text)?;
    let Some(z) = names.get(2) else {
        return Err(Fail::new("the number of an element"));
    };
    for number in 0..256 {
        let u = numbered(alloc, names, 4, number)?;
        check_motive(rt, alloc, field, &phi, &u, number)?;
        check_over_t(rt, alloc, field, *z, &phi, &u)?;
    }
    Ok(())
}

#[test]
fn of_ranks_one_to_three(rt: HostRuntime) -> Result<(), Fail> {
    let alloc = rt.alloc();
    let field = tower(alloc, FOUR)?;
    let names = elements(alloc, &field, 4)?;
    for text in ["2 3", "2 1 3", "0 2 1 3"] {
        check_all(&rt, alloc, &field, &names, text)?;
    }
    Ok(())
}

/// A module, a twisted polynomial, and its motive coordinates.
const MOTIVES: [&str; 4] = [
    "2 1; 0 0 1; 1 1 1",
    "1 0 1; 0 0 0 2; 0; 2 2",
    "1 0 1; 0; 0; 0",
    "2 1; 2 1; 0 1",
];

fn check_row<K: FrobField>(
    rt: &impl Abort,
    alloc: Global,
    field: &K,
    names: &[E<K>],
    text: &str,
) -> Result<(), Fail> {
    let lists = rows(alloc, names, text)?;
    let [phi, u, want @ ..] = lists.as_slice() else {
        return Err(Fail::new("a module, a twisted polynomial and coordinates"));
    };
    let list = coordinates(alloc, field, phi, u)?;
    assert_eq!(rt; list.len(), want.len(), "{text}");
    for (member, expected) in list.iter().zip(want) {
        assert!(rt; are_same(field, member.as_slice(), expected)?, "{text}");
    }
    Ok(())
}

#[test]
fn worked_coordinates(rt: HostRuntime) -> Result<(), Fail> {
    let alloc = rt.alloc();
    let field = tower(alloc, FOUR)?;
    let names = elements(alloc, &field, 4)?;
    for text in MOTIVES {
        check_row(&rt, alloc, &field, &names, text)?;
    }
    Ok(())
}
