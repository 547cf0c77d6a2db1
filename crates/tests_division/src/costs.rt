//! How many products, inverses and steps of the Frobenius a division makes, and how many products a common divisor
//! with its cofactors.
use super::pairs::drawn;
use ore_divide::{common_right, left_divide, right_divide};
use ring_core::{E, FrobField};
use std::alloc::Global;
use std::process::Abort;
use std::test::Fail;
use tests_support::counting::CountingField;
use tests_support::fields::{FOUR, TWELVE, elements, tower};
use tests_support::plain::numbered;
use tests_support::twisted::made;

/// That at most `most` products, as many steps of the Frobenius and one inverse were counted.
fn check_counts<K: FrobField>(
    rt: &impl Abort,
    counting: &CountingField<K>,
    most: u64,
) -> Result<(), Fail> {
    assert!(rt;
        counting.products() <= most,
        "{} products",
        counting.products()
    );
    assert!(rt; counting.steps() <= most, "{} steps", counting.steps());
    assert!(rt;
        counting.inverses() <= 1,
        "{} inverses",
        counting.inverses()
    );
    Ok(())
}

/// A division of degrees `m` by `n` makes at most `(m - n + 1) (n + 1)` products, as many steps and one inverse.
fn check_division<K: FrobField>(
    rt: &impl Abort,
    alloc: Global,
    field: &K,
    a: &[E<K>],
    b: &[E<K>],
) -> Result<(), Fail> {
    let most = (a.len() as u64)
        .saturating_add(1)
        .saturating_sub(b.len() as u64)
        .saturating_mul(b.len() as u64);
    let counting = CountingField::new(field);
    let left = made(alloc, &counting, a)?;
    let right = made(alloc, &counting, b)?;
    right_divide(alloc, &counting, &left, &right)?;
    check_counts(rt, &counting, most)?;
    let counting = CountingField::new(field);
    let left = made(alloc, &counting, a)?;
    let right = made(alloc, &counting, b)?;
    left_divide(alloc, &counting, &left, &right)?;
    check_counts(rt, &counting, most)
}

/// How many products the common divisor of two operands makes with its cofactors.
fn common_cost<K: FrobField>(
    alloc: Global,
    field: &K,
    a: &[E<K>],
    b: &[E<K>],
) -> Result<(u64, usize), Fail> {
    let counting = CountingField::new(field);
    let left = made(alloc, &counting, a)?;
    let right = made(alloc, &counting, b)?;
    let v = common_right(alloc, &counting, &left, &right)?;
    Ok((counting.products(), v.d.len()))
}

#[test]
fn divisions(rt: HostRuntime) -> Result<(), Fail> {
    let alloc = rt.alloc();
    let field = tower(alloc, TWELVE)?;
    let names = elements(alloc, &field, 4096)?;
    let mut state = 1;
    for (m, n) in [
        (0, 0),
        (1, 1),
        (9, 0),
        (9, 1),
        (16, 8),
        (20, 19),
        (3, 8),
        (128, 64),
    ] {
        let a = drawn(alloc, (&names, 4096), &mut state, m + 1)?;
        let b = drawn(alloc, (&names, 4096), &mut state, n + 1)?;
        check_division(&rt, alloc, &field, &a, &b)?;
    }
    Ok(())
}

/// Two operands of degree `d` whose only common divisors are constants take at most `3 d^2 + 2 d - 1` products, which is
/// at most `4 d^2`: `d^2` for the remainders, and twice as many for the cofactors.
#[test]
fn common_divisors(rt: HostRuntime) -> Result<(), Fail> {
    let alloc = rt.alloc();
    let field = tower(alloc, TWELVE)?;
    let names = elements(alloc, &field, 4096)?;
    let mut state = 1;
    for d in [1, 2, 3, 6, 7, 8, 16, 32, 64] {
        let a = drawn(alloc, (&names, 4096), &mut state, d + 1)?;
        let b = drawn(alloc, (&names, 4096), &mut state, d + 1)?;
        let (products, length) = common_cost(alloc, &field, &a, &b)?;
        let n = d as u64;
        assert!(rt; length == 1, "a common divisor of degree {d}");
        assert!(rt; products < 3 * n * n + 2 * n, "{d}");
    }
    Ok(())
}

/// Any two operands of degree `d` take at most `4 d^2` products: here all of degrees 1 and 2 over four elements.
#[test]
fn small_common_divisors(rt: HostRuntime) -> Result<(), Fail> {
    let alloc = rt.alloc();
    let field = tower(alloc, FOUR)?;
    let names = elements(alloc, &field, 4)?;
    for (length, low, high, most) in [(2, 4, 16, 4), (3, 16, 64, 16)] {
        for a in low..high {
            let left = numbered(alloc, &names, length, a)?;
            for b in low..high {
                let right = numbered(alloc, &names, length, b)?;
                let (products, _) = common_cost(alloc, &field, &left, &right)?;
                assert!(rt; products <= most, "{a} {b}");
            }
        }
    }
    Ok(())
}
