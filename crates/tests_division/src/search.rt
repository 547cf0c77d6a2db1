//! All pairs of degree at most 2 over the field of four elements: the common right divisor is sought among all
//! candidates. A twisted polynomial of three coefficients has as its number the one whose digits in base 4 are the
//! numbers of the coefficients, lowest first: a number below 64.
use super::plain::{is_combination, is_multiple};
use ore_divide::{common_multiple, common_right};
use ring_core::{E, FrobField};
use std::alloc::Global;
use std::process::Abort;
use std::test::Fail;
use tests_support::fields::{FOUR, elements, tower};
use tests_support::plain::{are_same, numbered, plain_product};
use tests_support::twisted::made;

/// Whether `a` is the product of some `c` of degree at most 2 and `d`.
fn is_left_multiple<K: FrobField>(
    alloc: Global,
    field: &K,
    names: &[E<K>],
    d: &[E<K>],
    a: usize,
) -> Result<bool, Fail> {
    let want = numbered(alloc, names, 3, a)?;
    for number in 0..64 {
        let c = numbered(alloc, names, 3, number)?;
        let product = plain_product(alloc, field, &c, d)?;
        if are_same(field, &product, &want)? {
            return Ok(true);
        }
    }
    Ok(false)
}

/// For each number whether it is that of a left multiple of `d`.
fn left_multiples<K: FrobField>(
    alloc: Global,
    field: &K,
    names: &[E<K>],
    d: usize,
) -> Result<Vec<bool>, Fail> {
    let divisor = numbered(alloc, names, 3, d)?;
    let mut list = Vec::new(alloc);
    for a in 0..64 {
        list.push(is_left_multiple(alloc, field, names, &divisor, a)?)?;
    }
    Ok(list)
}

/// The monic ones of degree at most 2, of higher degrees first: their highest digit that isn't 0 is 1.
fn monic_numbers(alloc: Global) -> Result<Vec<usize>, Fail> {
    let mut list = Vec::new(alloc);
    for number in (1..32).rev() {
        if number == 1 || (4..8).contains(&number) || number >= 16 {
            list.push(number)?;
        }
    }
    Ok(list)
}

/// The left multiples of each of the monic ones.
fn all_multiples<K: FrobField>(
    alloc: Global,
    field: &K,
    names: &[E<K>],
    monic: &[usize],
) -> Result<Vec<Vec<bool>>, Fail> {
    let mut list = Vec::new(alloc);
    for d in monic {
        list.push(left_multiples(alloc, field, names, *d)?)?;
    }
    Ok(list)
}

/// The first of the monic ones of which both `a` and `b` are left multiples; 0 where both are 0.
fn greatest(monic: &[usize], multiples: &[Vec<bool>], a: usize, b: usize) -> usize {
    if a == 0 && b == 0 {
        return 0;
    }
    for (d, list) in monic.iter().zip(multiples) {
        if list.get(a) == Some(&true) && list.get(b) == Some(&true) {
            return *d;
        }
    }
    0
}

/// The divisor of the pair with these numbers is the one with the number `d`.
fn check_pair<K: FrobField>(
    rt: &impl Abort,
    alloc: Global,
    field: &K,
    names: &[E<K>],
    (left, right, d): (usize, usize, usize),
) -> Result<(), Fail> {
    let a = made(alloc, field, &numbered(alloc, names, 3, left)?)?;
    let b = made(alloc, field, &numbered(alloc, names, 3, right)?)?;
    let v = common_right(alloc, field, &a, &b)?;
    let want = numbered(alloc, names, 3, d)?;
    assert!(rt;
        are_same(field, v.d.as_slice(), &want)?,
        "{left} and {right}"
    );
    assert!(rt;
        is_combination(alloc, field, &a, &b, &v)?,
        "{left} and {right}"
    );
    let m = common_multiple(alloc, field, &a, &b)?;
    assert!(rt;
        is_multiple(alloc, field, &a, &b, &v.d, &m)?,
        "{left} and {right}"
    );
    Ok(())
}

/// All pairs with the first operand of the number `left`.
fn check_left<K: FrobField>(
    rt: &impl Abort,
    alloc: Global,
    field: &K,
    names: &[E<K>],
    (monic, multiples): (&[usize], &[Vec<bool>]),
    left: usize,
) -> Result<(), Fail> {
    for right in 0..64 {
        let d = greatest(monic, multiples, left, right);
        check_pair(rt, alloc, field, names, (left, right, d))?;
    }
    Ok(())
}

#[test]
fn all_pairs_over_four_elements(rt: HostRuntime) -> Result<(), Fail> {
    let alloc = rt.alloc();
    let field = tower(alloc, FOUR)?;
    let names = elements(alloc, &field, 4)?;
    let monic = monic_numbers(alloc)?;
    let multiples = all_multiples(alloc, &field, &names, &monic)?;
    for left in 0..64 {
        check_left(&rt, alloc, &field, &names, (&monic, &multiples), left)?;
    }
    Ok(())
}
