//! Rows of field elements in slices.

ghost use Rattle.std.specs.Prelude.{◌≡◌, ◌+◌, ◌<◌, ◌≤◌, ◌⊎◌, ℕ, true, length, replicate, IfOk, slice_index_or};
ghost use Rattle.ring_core.specs.Ring.{IsElem};
ghost use Rattle.ring_core.specs.Coeffs.{coeff, are_elems};
ghost use Rattle.ring_core.specs.Written.{IsWritten};
ghost use Rattle.fq_linear.specs.steps.Extents.{HasExtent};
ghost use Rattle.fq_linear.specs.steps.Places.{IsHighestPlace, IsMonicMultiple, cleared, unit_row};

use super::extent::{Extent, greater, lesser};
use ring_core::lists::coeff_at;
use ring_core::rows::add_scaled;
use ring_core::{E, Field, NoMemory};
use std::alloc::Global;

/// `n` times `value`.
pub(super) fn filled<T: Copy>(alloc: Global, n: usize, value: T) -> Result<Vec<T>, NoMemory>
    ensures { IfOk result (λ v. v.items ≡ replicate n value) }
{
    let mut list = Vec::with_capacity(alloc, n)?;
    for i in 0..n {
        list.push(value)?;
    }
    Ok(list)
}

/// Adds `c` times the places of `row` from `a` to `b`, without `b`, to those of `out`.
fn add_range<F: Field>(f: &F, a: usize, b: usize, c: E<F>, row: &[E<F>], out: &mut [E<F>])
    requires out { are_elems (F.ops f.now) out.old ≡ true }
    requires factor { IsElem (F.ops f.now) c }
    requires row { are_elems (F.ops f.now) row.now ≡ true }
    requires within { b ≤ length row.now }
    requires room { b ≤ length out.old }
    ensures len { length out.new ≡ length out.old }
    ensures elems { are_elems (F.ops f.now) out.new ≡ true }
    ensures inside { (k : ℕ) → a ≤ k → k < b → let r = F.ops f.now in coeff r out.new k ≡ r.add (coeff r out.old k) (r.mul c (coeff r row.now k)) }
    ensures outside { (k : ℕ) → (k < a) ⊎ (b ≤ k) → coeff (F.ops f.now) out.new k ≡ coeff (F.ops f.now) out.old k }
{
    if a < b {
        add_scaled(f, out, a, c, &row[a..b]);
    }
}

/// Clears place `l` by `row`, which has one at `l` and zero above. Only the places of the extent are touched.
pub(super) fn clear_by<F: Field>(f: &F, l: usize, extent: Extent, row: &[E<F>], out: &mut [E<F>])
    requires out { are_elems (F.ops f.now) out.old ≡ true }
    requires row { are_elems (F.ops f.now) row.now ≡ true }
    requires place { l < length row.now }
    requires above { (k : ℕ) → l < k → coeff (F.ops f.now) row.now k ≡ (F.ops f.now).zero }
    requires extent { HasExtent (F.ops f.now) extent (coeff (F.ops f.now) row.now) }
    requires room { length row.now ≤ length out.old }
    ensures len { length out.new ≡ length out.old }
    ensures elems { are_elems (F.ops f.now) out.new ≡ true }
    ensures cleared { (k : ℕ) → let r = F.ops f.now in coeff r out.new k ≡ cleared r l (coeff r row.now) (coeff r out.old) k }
{
    let c = f.neg(coeff_at(f, out, l));
    let end = lesser(extent.end, l + 1);
    let high = greater(extent.high, end);
    add_range(f, extent.low, end, c, row, out);
    add_range(f, high, l + 1, c, row, out);
}

/// The first place from `from` on that is not zero, or the number of places.
pub(super) fn first_place<F: Field>(f: &F, from: usize, row: &[E<F>]) -> usize
    requires row { are_elems (F.ops f.now) row.now ≡ true }
    requires from { from ≤ length row.now }
    ensures { (k : ℕ) → from ≤ k → k < result → coeff (F.ops f.now) row.now k ≡ (F.ops f.now).zero }
{
    for k in from..row.len() {
        if !f.equal(coeff_at(f, row, k), f.zero()) {
            return k;
        }
    }
    row.len()
}

/// Multiplies the first `n` places by `c`.
pub(super) fn scale_first<F: Field>(f: &F, n: usize, c: E<F>, row: &mut [E<F>])
    requires row { are_elems (F.ops f.now) row.old ≡ true }
    requires factor { IsElem (F.ops f.now) c }
    requires places { n ≤ length row.old }
    ensures len { length row.new ≡ length row.old }
    ensures elems { are_elems (F.ops f.now) row.new ≡ true }
    ensures written { let r = F.ops f.now in IsWritten r.zero 0 n (λ k. r.mul c (coeff r row.old k)) row.old row.new }
{
    for k in 0..n {
        row[k] = f.mul(c, coeff_at(f, row, k));
    }
}

/// Divides the row by its highest member that is not zero, at `l`; a row with one there stays as it is.
pub(super) fn make_monic<F: Field>(f: &F, l: usize, row: &mut [E<F>])
    requires row { are_elems (F.ops f.now) row.old ≡ true }
    requires top { IsHighestPlace (F.ops f.now) row.old l }
    ensures len { length row.new ≡ length row.old }
    ensures elems { are_elems (F.ops f.now) row.new ≡ true }
    ensures monic { IsMonicMultiple (F.ops f.now) l (coeff (F.ops f.now) row.old) (coeff (F.ops f.now) row.new) }
{
    let top = coeff_at(f, row, l);
    if f.equal(top, f.one()) {
        return;
    }
    let Some(inverse) = f.inv(top) else {
        return;
    };
    scale_first(f, l + 1, inverse, row);
}

/// Writes `row` over the cells from `at` on.
pub(super) fn write_at<T: Copy>(cells: &mut [T], at: usize, row: &[T])
    requires { at + length row.now ≤ length cells.old }
    ensures len { length cells.new ≡ length cells.old }
    ensures written { (d : T) → IsWritten d at (length row.now) (λ k. slice_index_or row.now k d) cells.old cells.new }
{
    for k in 0..row.len() {
        cells[at + k] = row[k];
    }
}

/// Member `k` of row `i` of the unit matrix.
fn unit_at<F: Field>(f: &F, i: usize, k: usize) -> E<F>
    ensures value { result ≡ unit_row (F.ops f.now) i k }
    ensures elem { IsElem (F.ops f.now) result }
{
    if i == k { f.one() } else { f.zero() }
}

/// Writes row `i` of the unit matrix over the first `n` places.
pub(super) fn write_unit<F: Field>(f: &F, n: usize, i: usize, row: &mut [E<F>])
    requires row { are_elems (F.ops f.now) row.old ≡ true }
    requires places { n ≤ length row.old }
    ensures len { length row.new ≡ length row.old }
    ensures elems { are_elems (F.ops f.now) row.new ≡ true }
    ensures written { let r = F.ops f.now in IsWritten r.zero 0 n (unit_row r i) row.old row.new }
{
    for k in 0..n {
        row[k] = unit_at(f, i, k);
    }
}
