ghost use Rattle.std.specs.Prelude.{◌≡◌, ◌<◌, true, IfOk, length, vec_len};
ghost use Rattle.linear_algebra.specs.Linear.{are_rows, is_row};
ghost use Rattle.tests_linear.specs.BitField.{bit_ops};

use super::BitField;
use fq_linear::{Rows, echelon, first_dependence, kernel, solve};
use ring_core::NoMemory;
use std::alloc::Global;
use std::test::Fail;

/// Bit `j` of the number.
fn bit(x: u64, j: usize) -> bool {
    (x >> (j % 64)) & 1 == 1
}

/// The row whose member `j` is bit `j` of the number.
fn bit_row(alloc: Global, width: usize, x: u64) -> Result<Vec<bool>, NoMemory>
    ensures { IfOk result (λ v. is_row bit_ops width v.items ≡ true) }
{
    let mut row = Vec::new(alloc);
    for j in 0..width {
        row.push(bit(x, j))?;
    }
    Ok(row)
}

/// One such row for each number.
fn bit_rows(alloc: Global, width: usize, xs: &[u64]) -> Result<Rows<bool>, NoMemory>
    ensures width { IfOk result (λ v. v.width ≡ width) }
    ensures rows { IfOk result (λ v. are_rows bit_ops width v.rows ≡ true) }
{
    let mut rows = Rows::new(alloc, width);
    for x in xs {
        let row = bit_row(alloc, width, *x)?;
        rows.push(&row)?;
    }
    Ok(rows)
}

/// Whether row `i` is that of the number.
fn is_row_of(rows: &Rows<bool>, i: usize, x: u64) -> bool
    requires { i < length rows.now.rows }
{
    for j in 0..rows.width() {
        if rows.at(i, j) != bit(x, j) {
            return false;
        }
    }
    true
}

/// Whether the rows are those of the numbers.
fn are(rows: &Rows<bool>, width: usize, xs: &[u64]) -> bool {
    if rows.len() != xs.len() || rows.width() != width {
        return false;
    }
    for i in 0..xs.len() {
        if !is_row_of(rows, i, xs[i]) {
            return false;
        }
    }
    true
}

/// The number whose bit `j` is member `j` of the list.
fn number(list: &[bool]) -> u64 {
    let mut x = 0;
    for j in 0..list.len() {
        if list[j] && j < 64 {
            x |= 1 << (j % 64);
        }
    }
    x
}

/// A row is written as a number, member `j` as bit `j`: `[1, 0]` is 1, `[0, 1]` is 2.
#[test]
fn echelon_bases(rt: HostRuntime) -> Result<(), Fail> {
    let alloc = rt.alloc();
    let cases: [(usize, &[u64], &[u64]); 8] = [
        (2, &[3, 2], &[1, 2]),
        (2, &[], &[]),
        (0, &[0, 0], &[]),
        (2, &[0, 0], &[]),
        (2, &[1, 1, 1], &[1]),
        (3, &[7], &[7]),
        (3, &[6, 4], &[2, 4]),
        (3, &[5, 6], &[3, 5]),
    ];
    for (width, rows, want) in cases {
        let rows = bit_rows(alloc, width, rows)?;
        assert!(rt; are(&echelon(alloc, &BitField, &rows)?, width, want));
    }
    Ok(())
}

#[test]
fn kernels(rt: HostRuntime) -> Result<(), Fail> {
    let alloc = rt.alloc();
    let cases: [(usize, &[u64], &[u64]); 7] = [
        (2, &[1, 1], &[3]),
        (2, &[1, 2], &[]),
        (2, &[], &[]),
        (0, &[0, 0], &[1, 2]),
        (2, &[0], &[1]),
        (1, &[1, 1, 1], &[3, 5]),
        (2, &[1, 2, 3], &[7]),
    ];
    for (width, rows, want) in cases {
        let rows = bit_rows(alloc, width, rows)?;
        assert!(rt; are(&kernel(alloc, &BitField, &rows)?, rows.len(), want));
    }
    Ok(())
}

#[test]
fn solutions(rt: HostRuntime) -> Result<(), Fail> {
    let alloc = rt.alloc();
    let cases: [(usize, &[u64], u64, Option<u64>); 7] = [
        (2, &[1, 1], 1, Some(1)),
        (2, &[1, 1], 2, None),
        (2, &[], 0, Some(0)),
        (2, &[], 1, None),
        (0, &[0], 0, Some(0)),
        (2, &[3, 2], 1, Some(3)),
        (2, &[0, 1, 3, 2], 2, Some(6)),
    ];
    for (width, rows, target, want) in cases {
        let rows = bit_rows(alloc, width, rows)?;
        let target = bit_row(alloc, width, target)?;
        let got = solve(alloc, &BitField, &rows, &target)?;
        assert_eq!(rt; got.as_ref().map(|c| number(c)), want);
    }
    Ok(())
}

#[test]
fn first_dependences(rt: HostRuntime) -> Result<(), Fail> {
    let alloc = rt.alloc();
    let cases: [(usize, &[u64], Option<(usize, u64)>); 6] = [
        (2, &[1, 1], Some((1, 1))),
        (2, &[1, 2], None),
        (2, &[], None),
        (0, &[0], Some((0, 0))),
        (2, &[1, 2, 3, 0], Some((2, 3))),
        (3, &[1, 3, 2, 4], Some((2, 3))),
    ];
    for (width, rows, want) in cases {
        let rows = bit_rows(alloc, width, rows)?;
        let got = first_dependence(alloc, &BitField, &rows)?;
        assert_eq!(rt; got.as_ref().map(|d| (d.0, number(&d.1))), want);
    }
    Ok(())
}

/// The sum of the rows at the bits of `c`.
fn sum_at(rows: &[u64], c: u64) -> u64 {
    let mut sum = 0;
    for i in 0..rows.len() {
        if bit(c, i) {
            sum ^= rows[i];
        }
    }
    sum
}

/// 40 numbers below `2^40`, of which the last 8 are sums of others.
fn sample() -> [u64; 40] {
    let mut numbers = [0; 40];
    let mut x: u64 = 88172645463325252;
    for i in 0..40 {
        x ^= x << 13;
        x ^= x >> 7;
        x ^= x << 17;
        numbers[i] = if i < 32 {
            x % (1 << 40)
        } else {
            numbers[i % 32] ^ numbers[i / 2]
        };
    }
    numbers
}

/// The number whose bit `j` is member `j` of row `i`.
fn row_number(rows: &Rows<bool>, i: usize) -> u64
    requires { i < length rows.now.rows }
{
    let mut x = 0;
    for j in 0..rows.width() {
        if rows.at(i, j) && j < 64 {
            x |= 1 << (j % 64);
        }
    }
    x
}

/// A system of 40 rows of 40 members: its kernel, multiplied back, is zero, and has a row for each row that the basis
/// lacks.
#[test]
fn kernel_multiplied_back(rt: HostRuntime) -> Result<(), Fail> {
    let alloc = rt.alloc();
    let numbers = sample();
    let rows = bit_rows(alloc, 40, &numbers)?;
    let basis = echelon(alloc, &BitField, &rows)?;
    let relations = kernel(alloc, &BitField, &rows)?;
    assert_eq!(rt; basis.len(), 32);
    assert_eq!(rt; relations.len(), 8);
    assert_eq!(rt; relations.width(), 40);
    for i in 0..8 {
        let c = row_number(&relations, i);
        assert!(rt; c != 0);
        assert_eq!(rt; sum_at(&numbers, c), 0);
    }
    Ok(())
}
