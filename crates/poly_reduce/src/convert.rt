//! From rows of polynomials to the flat rows that they stand for, and back.

ghost use Rattle.std.specs.Prelude.{◌≡◌, ◌+◌, ◌*◌, ◌<◌, ◌≤◌, ℕ, true, length, IfOk};
ghost use Rattle.ring_core.specs.Coeffs.{coeff, are_elems, is_canonical};
ghost use Rattle.linear_algebra.specs.Linear.{row_at, is_row, are_rows};
ghost use Rattle.fq_poly.specs.Poly.{poly_ops};
ghost use Rattle.flat_modules.specs.Flat.{are_flat};
ghost use Rattle.poly_reduce.specs.Matrices.{member, StandFor};

use super::flat_rows::FlatRows;
use super::poly_row::PolyRow;
use super::poly_rows::PolyRows;
use flat_reduce::longest;
use fq_poly::Poly;
use ring_core::lists::{coeff_at, trimmed};
use ring_core::{E, Field, NoMemory};
use std::alloc::Global;

/// The flat row of a row of `w` polynomials.
pub fn flatten_row<F: Field>(
    alloc: Global,
    f: &F,
    w: usize,
    row: &[Poly<E<F>>],
) -> Result<Vec<E<F>>, NoMemory>
    requires width { 1 ≤ w }
    requires row { is_row (poly_ops (F.ops f.now)) w row.now ≡ true }
    ensures flat { IfOk result (λ v. is_canonical (F.ops f.now) v.items ≡ true) }
    ensures is { IfOk result (λ v. (t : ℕ) → coeff (F.ops f.now) v.items t ≡ member (F.ops f.now) w row.now t) }
{
    let Some(places) = longest(row).checked_mul(w) else {
        return Err(NoMemory);
    };
    let mut members = Vec::new(alloc);
    for t in 0..places {
        members.push(coeff_at(f, row[t % w].as_slice(), t / w))?;
    }
    Ok(trimmed(f, members))
}

/// Each row's flat row.
fn flat_list<F: Field>(
    alloc: Global,
    f: &F,
    w: usize,
    rows: &[PolyRow<E<F>>],
) -> Result<Vec<Poly<E<F>>>, NoMemory>
    requires width { 1 ≤ w }
    requires rows { are_rows (poly_ops (F.ops f.now)) w rows.now ≡ true }
    ensures { IfOk result (λ v. StandFor (F.ops f.now) w rows.now v.items) }
{
    let mut list = Vec::new(alloc);
    for i in 0..rows.len() {
        list.push(Poly::from_vec(flatten_row(alloc, f, w, rows[i].as_slice())?))?;
    }
    Ok(list)
}

/// The flat rows that the rows of `m`, of a width of at least 1, stand for: the coefficient of `x^e` in entry
/// `j` is member `e w + j` of the flat row.
///
/// The entries have to be polynomials over `f`.
pub fn flatten<F: Field>(
    alloc: Global,
    f: &F,
    m: &PolyRows<E<F>>,
) -> Result<FlatRows<E<F>>, NoMemory>
    requires width { 1 ≤ m.now.width }
    requires rows { are_rows (poly_ops (F.ops f.now)) m.now.width m.now.rows ≡ true }
    ensures width { IfOk result (λ v. v.width ≡ m.now.width) }
    ensures rows { IfOk result (λ v. StandFor (F.ops f.now) m.now.width m.now.rows v.rows) }
{
    let rows = flat_list(alloc, f, m.width(), m.as_slice())?;
    Ok(FlatRows::from_vec(alloc, m.width(), rows))
}

/// How many of `len` members stand at the indices `e w + j`.
fn entry_places(len: usize, w: usize, j: usize) -> usize
    requires { 1 ≤ w }
    ensures inside { (e : ℕ) → e < result → e * w + j < len }
    ensures past { (e : ℕ) → result ≤ e → len ≤ e * w + j }
{
    if j < len { (len - j - 1) / w + 1 } else { 0 }
}

/// Entry `j` of the row of `w` polynomials that stands for a flat row.
fn entry_of<F: Field>(
    alloc: Global,
    f: &F,
    w: usize,
    flat: &[E<F>],
    j: usize,
) -> Result<Poly<E<F>>, NoMemory>
    requires width { 1 ≤ w }
    requires flat { are_elems (F.ops f.now) flat.now ≡ true }
    ensures elem { IfOk result (λ v. is_canonical (F.ops f.now) v ≡ true) }
    ensures is { IfOk result (λ v. (e : ℕ) → coeff (F.ops f.now) v e ≡ coeff (F.ops f.now) flat.now (e * w + j)) }
{
    let mut coefficients = Vec::new(alloc);
    for e in 0..entry_places(flat.len(), w, j) {
        coefficients.push(flat[e * w + j])?;
    }
    Ok(Poly::from_vec(trimmed(f, coefficients)))
}

/// The row of `w` polynomials that stands for a flat row.
pub fn unflatten_row<F: Field>(
    alloc: Global,
    f: &F,
    w: usize,
    flat: &[E<F>],
) -> Result<PolyRow<E<F>>, NoMemory>
    requires width { 1 ≤ w }
    requires flat { are_elems (F.ops f.now) flat.now ≡ true }
    ensures row { IfOk result (λ v. is_row (poly_ops (F.ops f.now)) w v ≡ true) }
    ensures is { IfOk result (λ v. (t : ℕ) → coeff (F.ops f.now) flat.now t ≡ member (F.ops f.now) w v t) }
{
    let mut entries = Vec::new(alloc);
    for j in 0..w {
        entries.push(entry_of(alloc, f, w, flat, j)?)?;
    }
    Ok(PolyRow::from_vec(entries))
}

/// The row of polynomials for each flat row.
fn poly_list<F: Field>(
    alloc: Global,
    f: &F,
    w: usize,
    flats: &[Poly<E<F>>],
) -> Result<Vec<PolyRow<E<F>>>, NoMemory>
    requires width { 1 ≤ w }
    requires flats { are_flat (F.ops f.now) flats.now ≡ true }
    ensures { IfOk result (λ v. StandFor (F.ops f.now) w v.items flats.now) }
{
    let mut rows = Vec::new(alloc);
    for i in 0..flats.len() {
        rows.push(unflatten_row(alloc, f, w, flats[i].as_slice())?)?;
    }
    Ok(rows)
}

/// The rows of polynomials that stand for the flat rows.
///
/// The rows have to be rows of elements of `f`, with no zero at the end.
pub fn unflatten<F: Field>(
    alloc: Global,
    f: &F,
    m: &FlatRows<E<F>>,
) -> Result<PolyRows<E<F>>, NoMemory>
    requires { are_flat (F.ops f.now) m.now.rows ≡ true }
    ensures width { IfOk result (λ v. v.width ≡ m.now.width) }
    ensures rows { IfOk result (λ v. StandFor (F.ops f.now) m.now.width v.rows m.now.rows) }
{
    let rows = poly_list(alloc, f, m.width(), m.as_slice())?;
    Ok(PolyRows::from_vec(m.width(), rows))
}
