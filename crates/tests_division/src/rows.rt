//! Worked examples over the field of four elements, whose elements are numbered 0, 1, 2 for `z` and 3 for
//! `z + 1`. A row is a list of twisted polynomials, of which each is the list of the numbers of its coefficients,
//! lowest first.
use ore_divide::{OreFault, common_multiple, common_right, left_divide, right_divide};
use ore_poly::Ore;
use ring_core::{E, FrobField};
use std::alloc::Global;
use std::process::Abort;
use std::test::Fail;
use tests_support::fields::{FOUR, elements, tower};
use tests_support::plain::are_same;
use tests_support::twisted::ore;

/// Dividend, divisor, quotient and remainder on the right: `t^2 + z t + z` by `t + 1` is
/// `(z + 1 + t) (t + 1) + 1`.
const RIGHT: &str = "2 2 1; 1 1; 3 1; 1
0; 1 1; 0; 0
2; 1 1; 0; 2
0 2; 2; 0 3; 0";

/// The same on the left: `t^2 + z t + z` is `(t + 1) (z + t)`.
const LEFT: &str = "2 2 1; 1 1; 2 1; 0
0; 1 1; 0; 0
2; 1 1; 0; 2
0 2; 2; 0 1; 0";

/// Two operands, their common right divisor, and the cofactors: `1 = z (t + 1) + z (z + t)`.
const DIVISORS: &str = "1 1; 2 1; 1; 2; 2
0; 0 2; 0 1; 0; 3
0 2; 0; 0 1; 3; 0
0; 0; 0; 0; 0";

/// Two operands, their least common left multiple, and its factors: `1 + t^2` is `(1 + t) (t + 1)` and
/// `(z + 1 + t) (z + t)`.
const MULTIPLES: &str = "1 1; 2 1; 1 0 1; 1 1; 3 1
0; 0 1; 0; 0; 0
0 1; 0; 0; 0; 0
0; 0; 0; 0; 0";

/// That `u` has the coefficients of the text.
fn is_row<K: FrobField>(
    rt: &impl Abort,
    alloc: Global,
    field: &K,
    names: &[E<K>],
    u: &Ore<E<K>>,
    text: Option<&str>,
) -> Result<(), Fail> {
    let want = ore(alloc, field, names, text.ok_or("a part of a row")?)?;
    assert_eq!(rt; u.len(), want.len());
    assert!(rt; are_same(field, u.as_slice(), want.as_slice())?);
    Ok(())
}

/// A row of divisions on the right.
fn check_right<K: FrobField>(
    rt: &impl Abort,
    alloc: Global,
    field: &K,
    names: &[E<K>],
    row: &str,
) -> Result<(), Fail> {
    let mut parts = row.split("; ");
    let a = ore(alloc, field, names, parts.next().ok_or("a dividend")?)?;
    let b = ore(alloc, field, names, parts.next().ok_or("a divisor")?)?;
    let v = right_divide(alloc, field, &a, &b)?;
    is_row(rt, alloc, field, names, &v.quotient, parts.next())?;
    is_row(rt, alloc, field, names, &v.remainder, parts.next())
}

/// A row of divisions on the left.
fn check_left<K: FrobField>(
    rt: &impl Abort,
    alloc: Global,
    field: &K,
    names: &[E<K>],
    row: &str,
) -> Result<(), Fail> {
    let mut parts = row.split("; ");
    let a = ore(alloc, field, names, parts.next().ok_or("a dividend")?)?;
    let b = ore(alloc, field, names, parts.next().ok_or("a divisor")?)?;
    let v = left_divide(alloc, field, &a, &b)?;
    is_row(rt, alloc, field, names, &v.quotient, parts.next())?;
    is_row(rt, alloc, field, names, &v.remainder, parts.next())
}

/// A row of common divisors.
fn check_divisor<K: FrobField>(
    rt: &impl Abort,
    alloc: Global,
    field: &K,
    names: &[E<K>],
    row: &str,
) -> Result<(), Fail> {
    let mut parts = row.split("; ");
    let a = ore(alloc, field, names, parts.next().ok_or("an operand")?)?;
    let b = ore(alloc, field, names, parts.next().ok_or("an operand")?)?;
    let v = common_right(alloc, field, &a, &b)?;
    is_row(rt, alloc, field, names, &v.d, parts.next())?;
    is_row(rt, alloc, field, names, &v.s, parts.next())?;
    is_row(rt, alloc, field, names, &v.w, parts.next())
}

/// A row of multiples.
fn check_multiple<K: FrobField>(
    rt: &impl Abort,
    alloc: Global,
    field: &K,
    names: &[E<K>],
    row: &str,
) -> Result<(), Fail> {
    let mut parts = row.split("; ");
    let a = ore(alloc, field, names, parts.next().ok_or("an operand")?)?;
    let b = ore(alloc, field, names, parts.next().ok_or("an operand")?)?;
    let v = common_multiple(alloc, field, &a, &b)?;
    is_row(rt, alloc, field, names, &v.m, parts.next())?;
    is_row(rt, alloc, field, names, &v.s, parts.next())?;
    is_row(rt, alloc, field, names, &v.w, parts.next())
}

/// Division by zero, on either side, of zero too.
fn check_refusals<K: FrobField>(
    rt: &impl Abort,
    alloc: Global,
    field: &K,
    names: &[E<K>],
) -> Result<(), Fail> {
    let zero = ore(alloc, field, names, "0")?;
    for text in ["0 1", "0"] {
        let a = ore(alloc, field, names, text)?;
        let right = right_divide(alloc, field, &a, &zero);
        assert!(rt; matches!(&right, Err(OreFault::ZeroDivisor)), "{text}");
        let left = left_divide(alloc, field, &a, &zero);
        assert!(rt; matches!(&left, Err(OreFault::ZeroDivisor)), "{text}");
    }
    Ok(())
}

#[test]
fn rows_over_four_elements(rt: HostRuntime) -> Result<(), Fail> {
    let alloc = rt.alloc();
    let field = tower(alloc, FOUR)?;
    let names = elements(alloc, &field, 4)?;
    for row in RIGHT.split('\n') {
        check_right(&rt, alloc, &field, &names, row)?;
    }
    for row in LEFT.split('\n') {
        check_left(&rt, alloc, &field, &names, row)?;
    }
    for row in DIVISORS.split('\n') {
        check_divisor(&rt, alloc, &field, &names, row)?;
    }
    for row in MULTIPLES.split('\n') {
        check_multiple(&rt, alloc, &field, &names, row)?;
    }
    check_refusals(&rt, alloc, &field, &names)
}
