//! Matrices of polynomials from rows of text. Rows are parted by `; `, entries by `, `, and coefficients by a blank,
//! the lowest first; a zero entry is `-`. The text without characters has no rows.
ghost use Rattle.std.specs.Prelude.{◌≡◌, ◌≤◌, ℕ, ◌<◌, IfOk, IsTrue, true};
ghost use Rattle.ring_core.specs.Coeffs.{are_elems};
ghost use Rattle.linear_algebra.specs.Linear.{is_row, are_rows};
ghost use Rattle.fq_poly.specs.Poly.{poly_ops};
ghost use Rattle.flat_modules.specs.Flat.{are_flat};

use field_tower::Code;
use fq_poly::Poly;
use poly_reduce::{FlatRows, PolyRow, PolyRows};
use ring_core::lists::are_canonical;
use ring_core::{E, Field};
use std::alloc::Global;
use std::test::Fail;

/// That `is` is true.
pub fn holds(is: bool, what: &str) -> Result<(), Fail>
    ensures { IfOk result (λ _. is ≡ true) }
{
    if is { Ok(()) } else { Err(Fail::new(what)) }
}

/// Whether each of the list is a polynomial over the field.
fn all_polys<F: Field>(f: &F, list: &[Poly<E<F>>]) -> bool
    ensures { result ≡ are_elems (poly_ops (F.ops f.now)) list.now }
{
    for a in list {
        if !are_canonical(f, a.as_slice()) {
            return false;
        }
    }
    true
}

/// Whether these are `w` polynomials over the field.
fn is_row_of<F: Field>(f: &F, w: usize, row: &[Poly<E<F>>]) -> bool
    ensures { IsTrue result → is_row (poly_ops (F.ops f.now)) w row.now ≡ true }
{
    row.len() == w && all_polys(f, row)
}

/// Whether each of the rows has `w` polynomials over the field.
fn all_rows<F: Field>(f: &F, w: usize, rows: &[PolyRow<E<F>>]) -> bool
    ensures { IsTrue result → are_rows (poly_ops (F.ops f.now)) w rows.now ≡ true }
{
    for i in 0..rows.len() {
        let row = rows[i].as_slice();
        if !is_row_of(f, w, row) {
            return false;
        }
    }
    true
}

/// The matrix, which must have a width of at least 1 and polynomials over the field as its entries.
pub fn checked_rows<F: Field>(f: &F, m: PolyRows<E<F>>) -> Result<PolyRows<E<F>>, Fail>
    ensures width { IfOk result (λ v. 1 ≤ v.width) }
    ensures rows { IfOk result (λ v. are_rows (poly_ops (F.ops f.now)) v.width v.rows ≡ true) }
{
    if m.width() > 0 && all_rows(f, m.width(), m.as_slice()) {
        Ok(m)
    } else {
        Err(Fail::new("rows of polynomials"))
    }
}

/// The flat rows, which must be rows of elements of the field with no zero at the end.
pub fn checked_flat<F: Field>(f: &F, m: FlatRows<E<F>>) -> Result<FlatRows<E<F>>, Fail>
    ensures { IfOk result (λ v. are_flat (F.ops f.now) v.rows ≡ true) }
{
    if all_polys(f, m.as_slice()) {
        Ok(m)
    } else {
        Err(Fail::new("flat rows"))
    }
}

/// The polynomial of a text.
fn poly(alloc: Global, text: &str) -> Result<Poly<Code>, Fail> {
    let mut list = Vec::new(alloc);
    if text != "-" {
        for word in text.split(' ') {
            list.push(word.parse::<Code>()?)?;
        }
    }
    Ok(Poly::from_vec(list))
}

/// The list of polynomials of a text.
pub fn polys(alloc: Global, text: &str) -> Result<Vec<Poly<Code>>, Fail> {
    let mut row = Vec::new(alloc);
    for entry in text.split(", ") {
        row.push(poly(alloc, entry)?)?;
    }
    Ok(row)
}

/// The matrix of a text, of the width `width`.
pub fn rows<F: Field<Elem = Code>>(
    alloc: Global,
    f: &F,
    width: usize,
    text: &str,
) -> Result<PolyRows<Code>, Fail>
    ensures width { IfOk result (λ v. 1 ≤ v.width) }
    ensures rows { IfOk result (λ v. are_rows (poly_ops (F.ops f.now)) v.width v.rows ≡ true) }
{
    let mut m = PolyRows::new(alloc, width);
    if !text.is_empty() {
        for line in text.split("; ") {
            let row = polys(alloc, line)?;
            if row.len() != m.width() {
                return Err(Fail::new("a row of the width"));
            }
            m.push(row)?;
        }
    }
    checked_rows(f, m)
}

/// Whether the matrices are the same, their widths too.
pub fn are_same(a: &PolyRows<Code>, b: &PolyRows<Code>) -> bool {
    if a.len() != b.len() || a.width() != b.width() {
        return false;
    }
    for i in 0..a.len() {
        if !are_same_rows(a.as_slice()[i].as_slice(), b.as_slice()[i].as_slice()) {
            return false;
        }
    }
    true
}

/// Whether the lists of polynomials are the same.
pub fn are_same_rows(a: &[Poly<Code>], b: &[Poly<Code>]) -> bool {
    if a.len() != b.len() {
        return false;
    }
    for j in 0..a.len() {
        if a[j].as_slice() != b[j].as_slice() {
            return false;
        }
    }
    true
}
