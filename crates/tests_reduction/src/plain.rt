//! Plain computations on matrices of polynomials, by the definitions.
ghost use Rattle.std.specs.Prelude.{◌≡◌, IfOk, true};
ghost use Rattle.ring_core.specs.Coeffs.{is_canonical};

use field_tower::Code;
use fq_poly::{Poly, PolyRing};
use poly_reduce::{PolyRow, PolyRows};
use ring_core::lists::copy_list;
use ring_core::{Field, Ring};
use std::alloc::Global;
use std::test::Fail;
use tests_support::rings::checked;

/// Entry `j` of the row, a polynomial over the field.
fn entry<F: Field<Elem = Code>>(
    alloc: Global,
    ring: &PolyRing<F>,
    row: &PolyRow<Code>,
    j: usize,
) -> Result<Poly<Code>, Fail>
    ensures { IfOk result (λ u. is_canonical (F.ops ring.now) u ≡ true) }
{
    let Some(a) = row.as_slice().get(j) else {
        return Err(Fail::new("an entry"));
    };
    checked(ring, Poly::from_vec(copy_list(alloc, a.as_slice())?))
}

/// Entry `k` of the row `pivot[j] row - row[j] pivot`, whose entry `j` is zero.
fn eliminated_entry<F: Field<Elem = Code>>(
    alloc: Global,
    ring: &PolyRing<F>,
    pivot: &PolyRow<Code>,
    row: &PolyRow<Code>,
    j: usize,
    k: usize,
) -> Result<Poly<Code>, Fail> {
    let a = entry(alloc, ring, pivot, j)?;
    let b = entry(alloc, ring, row, j)?;
    let left = ring.mul(alloc, &a, &entry(alloc, ring, row, k)?)?;
    let right = ring.mul(alloc, &b, &entry(alloc, ring, pivot, k)?)?;
    let negative = ring.neg(alloc, &right)?;
    Ok(ring.add(alloc, &left, &negative)?)
}

/// That row.
fn eliminated<F: Field<Elem = Code>>(
    alloc: Global,
    ring: &PolyRing<F>,
    pivot: &PolyRow<Code>,
    row: &PolyRow<Code>,
    j: usize,
) -> Result<PolyRow<Code>, Fail> {
    let mut list = Vec::new(alloc);
    for k in 0..row.len() {
        list.push(eliminated_entry(alloc, ring, pivot, row, j, k)?)?;
    }
    Ok(PolyRow::from_vec(list))
}

/// A row whose entry `j` isn't zero.
fn pivot_at(rows: &[PolyRow<Code>], j: usize) -> Option<usize> {
    for i in 0..rows.len() {
        if let Some(a) = rows[i].as_slice().get(j) {
            if a.len() > 0 {
                return Some(i);
            }
        }
    }
    None
}

/// The rows without row `p`, each of them eliminated in column `j`.
fn without<F: Field<Elem = Code>>(
    alloc: Global,
    ring: &PolyRing<F>,
    rows: &[PolyRow<Code>],
    p: usize,
    j: usize,
) -> Result<Vec<PolyRow<Code>>, Fail> {
    let Some(pivot) = rows.get(p) else {
        return Err(Fail::new("a row"));
    };
    let mut list = Vec::new(alloc);
    for i in 0..rows.len() {
        if i != p {
            list.push(eliminated(alloc, ring, pivot, &rows[i], j)?)?;
        }
    }
    Ok(list)
}

/// Copies of the rows.
fn copies(alloc: Global, m: &PolyRows<Code>) -> Result<Vec<PolyRow<Code>>, Fail> {
    let mut list = Vec::new(alloc);
    for i in 0..m.len() {
        let mut row = Vec::new(alloc);
        for a in m.as_slice()[i].as_slice() {
            row.push(Poly::from_vec(copy_list(alloc, a.as_slice())?))?;
        }
        list.push(PolyRow::from_vec(row))?;
    }
    Ok(list)
}

/// How many rows are independent: elimination without division, column by column.
pub fn rank<F: Field<Elem = Code>>(
    alloc: Global,
    f: &F,
    m: &PolyRows<Code>,
) -> Result<usize, Fail> {
    let ring = PolyRing::new(f);
    let mut rows = copies(alloc, m)?;
    let mut rank = 0;
    for j in 0..m.width() {
        if let Some(p) = pivot_at(&rows, j) {
            rows = without(alloc, &ring, &rows, p, j)?;
            rank = usize::saturating_add(rank, 1);
        }
    }
    Ok(rank)
}

/// The highest index `e w + j` for which `x^e` has a coefficient in entry `j`; None at a row of zeros.
fn lead(row: &[Poly<Code>]) -> Option<usize> {
    let mut found = None;
    for j in 0..row.len() {
        if let Some(e) = row[j].len().checked_sub(1) {
            let index = e.saturating_mul(row.len()).saturating_add(j);
            found = Some(found.unwrap_or(0).max(index));
        }
    }
    found
}

/// How many rows aren't zero, where their lead places are different; None where two have the same.
pub fn places(m: &PolyRows<Code>) -> Option<usize> {
    let mut count = 0;
    for i in 0..m.len() {
        if let Some(a) = lead(m.as_slice()[i].as_slice()) {
            for k in 0..i {
                if let Some(b) = lead(m.as_slice()[k].as_slice()) {
                    if a % m.width().max(1) == b % m.width().max(1) {
                        return None;
                    }
                }
            }
            count = usize::saturating_add(count, 1);
        }
    }
    Some(count)
}

/// Whether the row is zero.
pub fn is_zero_row(row: &[Poly<Code>]) -> bool {
    lead(row).is_none()
}

/// Whether all entries are zero.
pub fn is_zero(m: &PolyRows<Code>) -> bool {
    for i in 0..m.len() {
        if lead(m.as_slice()[i].as_slice()).is_some() {
            return false;
        }
    }
    true
}
