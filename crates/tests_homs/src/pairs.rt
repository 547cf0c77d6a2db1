//! Thirty pairs of modules of rank 2 and 3 over the fields of 4, 8 and 9 elements. Their bounded list for the degree 4 is
//! compared with the one that is made from the full list, and with a count: the combinations of the full list's members
//! over the polynomials in `tau^n` that have such a degree, from plain products and sums.
use super::all_pairs::push;
use super::lists::behind_zeros;
use super::modules::{bounded_between, full_between, isogeny_between};
use ore_poly::Ore;
use ring_core::lists::single_list;
use ring_core::{E, Field, FrobField};
use std::alloc::Global;
use std::process::Abort;
use std::test::Fail;
use tests_support::fields::{EIGHT, FOUR, NINE, elements, tower};
use tests_support::plain::{are_same, plain_product, plain_sum};
use tests_support::twisted::row;

/// The degree of the bounded lists.
const DEGREE: usize = 4;

/// Two modules with one constant and a homomorphism between them, which is 0 where no other is known.
type Pair = (&'static str, &'static str, &'static str);

/// Over the field of four elements the numbers are 0, 1, 2 for `z` and 3 for `z + 1`.
const OVER_FOUR: [Pair; 10] = [
    ("2 2 3", "2 2 3", "1"),
    ("1 0 1", "1 0 1", "2 3"),
    ("1 0 0 3", "1 0 0 3", "1"),
    ("2 2 3", "2 0 2", "3 1"),
    ("1 3 1", "1 1 1", "3"),
    ("1 0 2", "1 0 3", "0 1"),
    ("1 3 2 3", "1 2 2 2", "2"),
    ("1 0 3", "1 1 2", "0"),
    ("2 3 0 3", "2 3 2 2", "0"),
    ("2 2 3", "2 1 0 2", "0"),
];

/// Over the field of eight elements `c_0 + c_1 z + c_2 z^2` has the number `c_0 + 2 c_1 + 4 c_2`.
const OVER_EIGHT: [Pair; 10] = [
    ("6 5 4", "6 5 4", "1"),
    ("4 7 1 6", "4 7 1 6", "1"),
    ("1 1 1", "1 1 1", "0 1"),
    ("6 5 4", "6 2 2", "7"),
    ("6 7 2", "6 2 5", "5 2"),
    ("4 7 1 6", "4 3 0 4", "7 3 1"),
    ("1 3 1 6", "1 2 4 6", "4 1 7 1"),
    ("5 4 3", "5 2 4", "0"),
    ("4 4 7 5", "4 7 1 1", "0"),
    ("2 1 5 6", "2 0 4", "0"),
];

/// Over the field of nine elements `c_0 + c_1 z` has the number `c_0 + 3 c_1`.
const OVER_NINE: [Pair; 10] = [
    ("4 0 8", "4 0 8", "1"),
    ("3 7 2 2", "3 7 2 2", "1"),
    ("7 2 5", "7 1 5", "3"),
    ("3 2 4", "3 0 7", "3 1"),
    ("2 6 2 5", "2 2 2 4", "5"),
    ("1 5 2 8", "1 8 5 8", "4 4"),
    ("3 0 8", "3 7 6", "0"),
    ("6 2 0 1", "6 8 8 6", "0"),
    ("8 6 3 4", "8 1 5 2", "0"),
    ("5 1 5", "5 2 2 5", "0"),
];

/// Whether `u` is a homomorphism from `phi` to `psi`.
fn is_homomorphism<K: FrobField>(
    alloc: Global,
    field: &K,
    (phi, psi): (&[E<K>], &[E<K>]),
    u: &[E<K>],
) -> Result<bool, Fail> {
    let left = plain_product(alloc, field, u, phi)?;
    let right = plain_product(alloc, field, psi, u)?;
    are_same(field, &left, &right)
}

/// Puts the products of `u` with powers of `tau^n` that have at most `len` coefficients after the others.
fn push_products<K: FrobField>(
    alloc: Global,
    field: &K,
    u: &[E<K>],
    len: usize,
    products: &mut Vec<Vec<E<K>>>,
) -> Result<(), Fail> {
    let one = single_list(alloc, field.one())?;
    for e in 0..len {
        let moved = e.saturating_mul(field.degree());
        if moved.saturating_add(u.len()) <= len {
            let power = behind_zeros(alloc, field, moved, &one)?;
            push(products, plain_product(alloc, field, &power, u)?)?;
        }
    }
    Ok(())
}

/// The sums of each of the lists with each multiple of `term` by an element of the base.
fn with_multiples<K: FrobField>(
    alloc: Global,
    field: &K,
    base: &[E<K>],
    sums: &[Vec<E<K>>],
    term: &[E<K>],
) -> Result<Vec<Vec<E<K>>>, Fail> {
    let mut more = Vec::new(alloc);
    for c in base {
        let multiple = plain_product(alloc, field, &[*c], term)?;
        for sum in sums {
            push(&mut more, plain_sum(alloc, field, sum, &multiple)?)?;
        }
    }
    Ok(more)
}

/// How many of the lists have no coefficients but zeros from the place `len` on.
fn count_short<K: Field>(field: &K, lists: &[Vec<E<K>>], len: usize) -> Result<usize, Fail> {
    let mut count = 0usize;
    for list in lists {
        let (_, top) = list.split_at(list.len().min(len));
        if are_same(field, top, &[])? {
            count = count.saturating_add(1);
        }
    }
    Ok(count)
}

/// How many combinations of the members over the polynomials in `tau^n` are zero or have at most the degree of the
/// bounded lists. They are made of the products that have at most one degree more: in the others no terms cancel at the
/// highest place, since the leads of the members are distinct modulo `n^2`.
fn combinations<K: FrobField>(
    alloc: Global,
    field: &K,
    base: &[E<K>],
    members: &[Ore<E<K>>],
) -> Result<usize, Fail> {
    let mut products = Vec::new(alloc);
    for member in members {
        push_products(alloc, field, member.as_slice(), DEGREE + 2, &mut products)?;
    }
    let mut sums = Vec::new(alloc);
    push(&mut sums, Vec::new(alloc))?;
    for term in &products {
        sums = with_multiples(alloc, field, base, &sums, term)?;
    }
    count_short(field, &sums, DEGREE + 1)
}

/// Whether the lists have the same members.
fn are_same_lists<K: FrobField>(field: &K, a: &[Ore<E<K>>], b: &[Ore<E<K>>]) -> Result<bool, Fail> {
    for (left, right) in a.iter().zip(b) {
        if !are_same(field, left.as_slice(), right.as_slice())? {
            return Ok(false);
        }
    }
    Ok(a.len() == b.len())
}

/// The isogeny is the first member of the full list, and there is none where that has no members.
fn check_isogeny<K: FrobField>(
    rt: &impl Abort,
    alloc: Global,
    field: &K,
    (phi, psi): (&[E<K>], &[E<K>]),
    full: &[Ore<E<K>>],
) -> Result<(), Fail> {
    match (isogeny_between(alloc, field, phi, psi)?, full.first()) {
        (Some(u), Some(first)) => {
            assert!(rt; are_same(field, u.as_slice(), first.as_slice())?);
            assert!(rt; is_homomorphism(alloc, field, (phi, psi), u.as_slice())?);
            Ok(())
        }
        (None, None) => Ok(()),
        _ => Err(Fail::new("an isogeny exactly where the list has members")),
    }
}

/// The lists between two modules, which have members where the homomorphism `known` isn't zero, and none where the ranks
/// are different.
fn check_lists<K: FrobField>(
    rt: &impl Abort,
    alloc: Global,
    field: &K,
    base: &[E<K>],
    (phi, psi): (&[E<K>], &[E<K>]),
    known: &[E<K>],
) -> Result<(), Fail> {
    let bounded = bounded_between(alloc, field, phi, psi, DEGREE)?;
    let lists = full_between(alloc, field, phi, psi, DEGREE)?;
    assert!(rt; are_same_lists(field, &lists.bounded, &bounded)?);
    let count = combinations(alloc, field, base, &lists.full)?;
    assert_eq!(rt;
        base.len().saturating_pow(u32::try_from(bounded.len())?),
        count
    );
    assert!(rt; is_homomorphism(alloc, field, (phi, psi), known)?);
    assert!(rt; are_same(field, known, &[])? || !bounded.is_empty());
    assert!(rt; phi.len() == psi.len() || lists.full.is_empty());
    check_isogeny(rt, alloc, field, (phi, psi), &lists.full)
}

fn check_pair<K: FrobField>(
    rt: &impl Abort,
    alloc: Global,
    field: &K,
    names: &[E<K>],
    base: &[E<K>],
    (phi, psi, known): Pair,
) -> Result<(), Fail> {
    let source = row(alloc, names, phi)?;
    let target = row(alloc, names, psi)?;
    let known = row(alloc, names, known)?;
    check_lists(rt, alloc, field, base, (&source, &target), &known)
}

/// All pairs over the field of a row of text, with this many elements, of which the first `q` are those of its base.
fn check_all(
    rt: &impl Abort,
    alloc: Global,
    field: &str,
    (size, q): (u32, u32),
    pairs: &[Pair],
) -> Result<(), Fail> {
    let field = tower(alloc, field)?;
    let names = elements(alloc, &field, size)?;
    let base = elements(alloc, &field, q)?;
    for pair in pairs {
        check_pair(rt, alloc, &field, &names, &base, *pair)?;
    }
    Ok(())
}

#[test]
fn over_four(rt: HostRuntime) -> Result<(), Fail> {
    check_all(&rt, rt.alloc(), FOUR, (4, 2), &OVER_FOUR)
}

#[test]
fn over_eight(rt: HostRuntime) -> Result<(), Fail> {
    check_all(&rt, rt.alloc(), EIGHT, (8, 2), &OVER_EIGHT)
}

#[test]
fn over_nine(rt: HostRuntime) -> Result<(), Fail> {
    check_all(&rt, rt.alloc(), NINE, (9, 3), &OVER_NINE)
}
