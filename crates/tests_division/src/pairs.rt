//! Pairs of drawn operands, divided on both sides and multiplied back by plain products.
use super::plain::{is_combination, is_left_division, is_multiple, is_right_division};
use ore_divide::{OreFault, common_multiple, common_right, left_divide, right_divide};
use ore_poly::Ore;
use ring_core::{E, FrobField};
use std::alloc::Global;
use std::process::Abort;
use std::test::Fail;
use tests_support::draws::{next_sample, sample_element};
use tests_support::fields::{FOUR, NINE, TWELVE, elements, tower};
use tests_support::plain::listed;
use tests_support::twisted::made;

/// A list of `len` elements, of the first `size` that are named.
pub fn drawn<C: Copy>(
    alloc: Global,
    (names, size): (&[C], u32),
    state: &mut u32,
    len: usize,
) -> Result<Vec<C>, Fail> {
    let mut numbers = Vec::new(alloc);
    for _ in 0..len {
        *state = next_sample(*state);
        numbers.push(sample_element(*state, size) as usize)?;
    }
    listed(alloc, names, &numbers)
}

/// Both divisions of `a` by `b`, their common divisor and their least multiple.
fn check_pair<K: FrobField>(
    rt: &impl Abort,
    alloc: Global,
    field: &K,
    left: &[E<K>],
    right: &[E<K>],
) -> Result<(), Fail> {
    let a: Ore<E<K>> = made(alloc, field, left)?;
    let b = made(alloc, field, right)?;
    match right_divide(alloc, field, &a, &b) {
        Ok(v) => assert!(rt; is_right_division(alloc, field, &a, &b, &v)?),
        Err(OreFault::ZeroDivisor) => assert_eq!(rt; b.len(), 0),
        Err(OreFault::NoMemory) => return Err(Fail::new("memory for a division")),
    }
    match left_divide(alloc, field, &a, &b) {
        Ok(v) => assert!(rt; is_left_division(alloc, field, &a, &b, &v)?),
        Err(OreFault::ZeroDivisor) => assert_eq!(rt; b.len(), 0),
        Err(OreFault::NoMemory) => return Err(Fail::new("memory for a division")),
    }
    let divisor = common_right(alloc, field, &a, &b)?;
    assert!(rt; is_combination(alloc, field, &a, &b, &divisor)?);
    let multiple = common_multiple(alloc, field, &a, &b)?;
    assert!(rt; is_multiple(alloc, field, &a, &b, &divisor.d, &multiple)?);
    Ok(())
}

/// 50 pairs of at most 13 and at most 8 coefficients over the field of a row, with this many elements.
fn check_field(rt: &impl Abort, alloc: Global, row: &str, size: u32) -> Result<(), Fail> {
    let field = tower(alloc, row)?;
    let names = elements(alloc, &field, size)?;
    let mut state = 1;
    for i in 0..50 {
        let left = drawn(alloc, (&names, size), &mut state, 1 + i % 13)?;
        let right = drawn(alloc, (&names, size), &mut state, 1 + i % 8)?;
        check_pair(rt, alloc, &field, &left, &right)?;
    }
    Ok(())
}

#[test]
fn drawn_pairs(rt: HostRuntime) -> Result<(), Fail> {
    for (row, size) in [(FOUR, 4), (NINE, 9), (TWELVE, 4096)] {
        check_field(&rt, rt.alloc(), row, size)?;
    }
    Ok(())
}
