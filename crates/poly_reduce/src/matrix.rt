//! The identity and the product of matrices of polynomials.

ghost use Rattle.std.specs.Prelude.{◌≡◌, ◌<◌, ℕ, true, length, IfOk};
ghost use Rattle.ring_core.specs.Coeffs.{coeff, is_canonical, first_values};
ghost use Rattle.linear_algebra.specs.Combines.{combined};
ghost use Rattle.linear_algebra.specs.Linear.{row_at, entry, is_row, are_rows};
ghost use Rattle.fq_poly.specs.Poly.{poly_ops};
ghost use Rattle.flat_modules.specs.Flat.{unit_at};
ghost use Rattle.poly_reduce.specs.Matrices.{row_times};
ghost use Rattle.poly_reduce.specs.Matrices.{product as product_of, identity as identity_of};

use super::poly_row::PolyRow;
use super::poly_rows::PolyRows;
use fq_poly::{Poly, PolyRing};
use ring_core::lists::single_list;
use ring_core::{E, Field, NoMemory, Ring};
use std::alloc::Global;

/// Entry `j` of row `i` of the identity.
fn unit_entry<F: Field>(alloc: Global, f: &F, i: usize, j: usize) -> Result<Poly<E<F>>, NoMemory>
    ensures { IfOk result (λ v. v ≡ unit_at (poly_ops (F.ops f.now)) i j) }
{
    if i == j {
        Ok(Poly::from_vec(single_list(alloc, f.one())?))
    } else {
        Ok(Poly::from_vec(Vec::new(alloc)))
    }
}

/// Row `i` of the identity with `n` rows.
fn unit_row<F: Field>(alloc: Global, f: &F, n: usize, i: usize) -> Result<PolyRow<E<F>>, NoMemory>
    ensures { IfOk result (λ v. v ≡ first_values n (unit_at (poly_ops (F.ops f.now)) i)) }
{
    let mut row = Vec::new(alloc);
    for j in 0..n {
        row.push(unit_entry(alloc, f, i, j)?)?;
    }
    Ok(PolyRow::from_vec(row))
}

/// The rows of the identity with `n` rows.
fn unit_rows<F: Field>(alloc: Global, f: &F, n: usize) -> Result<Vec<PolyRow<E<F>>>, NoMemory>
    ensures { IfOk result (λ v. v.items ≡ identity_of (poly_ops (F.ops f.now)) n) }
{
    let mut rows = Vec::new(alloc);
    for i in 0..n {
        rows.push(unit_row(alloc, f, n, i)?)?;
    }
    Ok(rows)
}

/// The identity with `n` rows, of the width `n`.
pub fn identity<F: Field>(alloc: Global, f: &F, n: usize) -> Result<PolyRows<E<F>>, NoMemory>
    ensures width { IfOk result (λ v. v.width ≡ n) }
    ensures rows { IfOk result (λ v. v.rows ≡ identity_of (poly_ops (F.ops f.now)) n) }
{
    Ok(PolyRows::from_vec(n, unit_rows(alloc, f, n)?))
}

/// Entry `j` of row `k`.
fn entry_at<C: Copy>(rows: &[PolyRow<C>], k: usize, j: usize) -> &Poly<C>
    requires row { k < length rows.now }
    requires place { j < length (row_at rows.now k) }
    ensures { result.now ≡ row_at (row_at rows.now k) j }
{
    &rows[k].as_slice()[j]
}

/// Entry `j` of the row times the matrix with the rows `b`.
fn product_entry<F: Field>(
    alloc: Global,
    f: &F,
    row: &[Poly<E<F>>],
    b: &[PolyRow<E<F>>],
    w: usize,
    j: usize,
) -> Result<Poly<E<F>>, NoMemory>
    requires row { is_row (poly_ops (F.ops f.now)) (length b.now) row.now ≡ true }
    requires rows { are_rows (poly_ops (F.ops f.now)) w b.now ≡ true }
    requires place { j < w }
    ensures value { IfOk result (λ v. let p = poly_ops (F.ops f.now) in v ≡ combined p (length b.now) (coeff p row.now) (entry p b.now) j) }
    ensures elem { IfOk result (λ v. is_canonical (F.ops f.now) v ≡ true) }
{
    let ring = PolyRing::new(f);
    let mut sum = ring.zero(alloc)?;
    for k in 0..b.len() {
        let term = ring.mul(alloc, &row[k], entry_at(b, k, j))?;
        sum = ring.add(alloc, &sum, &term)?;
    }
    Ok(sum)
}

/// The row times the matrix with the rows `b`, of the width `w`.
fn product_row<F: Field>(
    alloc: Global,
    f: &F,
    row: &[Poly<E<F>>],
    b: &[PolyRow<E<F>>],
    w: usize,
) -> Result<PolyRow<E<F>>, NoMemory>
    requires row { is_row (poly_ops (F.ops f.now)) (length b.now) row.now ≡ true }
    requires rows { are_rows (poly_ops (F.ops f.now)) w b.now ≡ true }
    ensures { IfOk result (λ v. v ≡ row_times (poly_ops (F.ops f.now)) w row.now b.now) }
{
    let mut entries = Vec::new(alloc);
    for j in 0..w {
        entries.push(product_entry(alloc, f, row, b, w, j)?)?;
    }
    Ok(PolyRow::from_vec(entries))
}

/// The rows of `a` times the matrix with the rows `b`, of the width `w`.
fn product_rows<F: Field>(
    alloc: Global,
    f: &F,
    a: &[PolyRow<E<F>>],
    b: &[PolyRow<E<F>>],
    w: usize,
) -> Result<Vec<PolyRow<E<F>>>, NoMemory>
    requires left { are_rows (poly_ops (F.ops f.now)) (length b.now) a.now ≡ true }
    requires right { are_rows (poly_ops (F.ops f.now)) w b.now ≡ true }
    ensures { IfOk result (λ v. v.items ≡ product_of (poly_ops (F.ops f.now)) w a.now b.now) }
{
    let mut rows = Vec::new(alloc);
    for i in 0..a.len() {
        rows.push(product_row(alloc, f, a[i].as_slice(), b, w)?)?;
    }
    Ok(rows)
}

/// The product of two matrices, where `a` has as many entries in a row as `b` has rows.
///
/// The entries have to be polynomials over `f`.
pub fn product<F: Field>(
    alloc: Global,
    f: &F,
    a: &PolyRows<E<F>>,
    b: &PolyRows<E<F>>,
) -> Result<PolyRows<E<F>>, NoMemory>
    requires fits { a.now.width ≡ length b.now.rows }
    requires left { are_rows (poly_ops (F.ops f.now)) a.now.width a.now.rows ≡ true }
    requires right { are_rows (poly_ops (F.ops f.now)) b.now.width b.now.rows ≡ true }
    ensures width { IfOk result (λ v. v.width ≡ b.now.width) }
    ensures rows { IfOk result (λ v. v.rows ≡ product_of (poly_ops (F.ops f.now)) b.now.width a.now.rows b.now.rows) }
{
    let rows = product_rows(alloc, f, a.as_slice(), b.as_slice(), b.width())?;
    Ok(PolyRows::from_vec(b.width(), rows))
}
