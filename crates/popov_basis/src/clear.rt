//! Rows with leads of different places are cleared by one another.

ghost use Rattle.std.specs.Prelude.{◌≡◌, ◌≢◌, ◌+◌, ◌-◌, ◌*◌, ◌%◌, ◌<◌, ◌≤◌, ℕ, true, [], Some, length, replicate, None, IfOk};
ghost use Rattle.ring_core.specs.Coeffs.{coeff, is_canonical};
ghost use Rattle.linear_algebra.specs.Linear.{row_at, entry};
ghost use Rattle.flat_modules.specs.Flat.{are_flat, lead_at};
ghost use Rattle.flat_reduce.specs.steps.Settled.{slot_of};
ghost use Rattle.popov_basis.specs.steps.Leading.{IsNaming, IsClearedAt, IsClearedFrom, AreCleared};

use flat_reduce::rows::add_row;
use fq_poly::Poly;
use ring_core::lists::coeff_at;
use ring_core::{E, Field, NoMemory};
use std::alloc::Global;

/// Names each row at the place of its lead.
pub(super) fn name_rows<C: Copy>(w: usize, slot: &mut [Option<usize>], rows: &[Poly<C>])
    requires width { 1 ≤ w }
    requires free { slot.old ≡ replicate w None }
    requires full { (i : ℕ) → i < length rows.now → 0 < length (row_at rows.now i) }
    requires apart { (i k : ℕ) → i < length rows.now → k < length rows.now → i ≢ k → lead_at rows.now i % w ≢ lead_at rows.now k % w }
    ensures { IsNaming w (length rows.now) slot.new rows.now }
{
    for i in 0..rows.len() {
        slot[(rows[i].len() - 1) % w] = Some(i);
    }
}

/// Clears row `p` at the place `t`, below its lead.
fn clear_at<F: Field>(
    alloc: Global,
    f: &F,
    w: usize,
    slot: &[Option<usize>],
    rows: &mut [Poly<E<F>>],
    p: usize,
    t: usize,
) -> Result<(), NoMemory>
    requires width { 1 ≤ w }
    requires rows { are_flat (F.ops f.now) rows.old ≡ true }
    requires naming { IsNaming w (length rows.old) slot.now rows.old }
    requires full { (k : ℕ) → k < length rows.old → 0 < length (row_at rows.old k) }
    requires ones { (k : ℕ) → k < length rows.old → entry (F.ops f.now) rows.old k (lead_at rows.old k) ≡ (F.ops f.now).one }
    requires first { p < length rows.old }
    requires place { t + 1 < length (row_at rows.old p) }
    ensures flat { IfOk result (λ _. are_flat (F.ops f.now) rows.new ≡ true) }
    ensures cleared { IfOk result (λ _. IsClearedAt (F.ops f.now) w p t rows.old rows.new) }
{
    let c = coeff_at(f, rows[p].as_slice(), t);
    if f.equal(c, f.zero()) {
        return Ok(());
    }
    let Some(q) = slot[t % w] else {
        return Ok(());
    };
    let b = rows[q].len() - 1;
    if b <= t {
        add_row(alloc, f, rows, p, q, t - b, f.neg(c))?;
    }
    Ok(())
}

/// Clears row `p` by the others.
fn clear_row<F: Field>(
    alloc: Global,
    f: &F,
    w: usize,
    slot: &[Option<usize>],
    rows: &mut [Poly<E<F>>],
    p: usize,
) -> Result<(), NoMemory>
    requires width { 1 ≤ w }
    requires rows { are_flat (F.ops f.now) rows.old ≡ true }
    requires naming { IsNaming w (length rows.old) slot.now rows.old }
    requires full { (k : ℕ) → k < length rows.old → 0 < length (row_at rows.old k) }
    requires ones { (k : ℕ) → k < length rows.old → entry (F.ops f.now) rows.old k (lead_at rows.old k) ≡ (F.ops f.now).one }
    requires first { p < length rows.old }
    ensures flat { IfOk result (λ _. are_flat (F.ops f.now) rows.new ≡ true) }
    ensures cleared { IfOk result (λ _. IsClearedFrom (F.ops f.now) w p 0 rows.old rows.new) }
{
    for t in (0..rows[p].len() - 1).rev() {
        clear_at(alloc, f, w, slot, rows, p, t)?;
    }
    Ok(())
}

/// Clears the rows by one another.
pub(super) fn clear_rows<F: Field>(
    alloc: Global,
    f: &F,
    w: usize,
    slot: &[Option<usize>],
    rows: &mut [Poly<E<F>>],
) -> Result<(), NoMemory>
    requires width { 1 ≤ w }
    requires rows { are_flat (F.ops f.now) rows.old ≡ true }
    requires naming { IsNaming w (length rows.old) slot.now rows.old }
    requires full { (k : ℕ) → k < length rows.old → 0 < length (row_at rows.old k) }
    requires ones { (k : ℕ) → k < length rows.old → entry (F.ops f.now) rows.old k (lead_at rows.old k) ≡ (F.ops f.now).one }
    ensures flat { IfOk result (λ _. are_flat (F.ops f.now) rows.new ≡ true) }
    ensures cleared { IfOk result (λ _. AreCleared (F.ops f.now) w (length rows.old) rows.old rows.new) }
{
    for p in 0..rows.len() {
        clear_row(alloc, f, w, slot, rows, p)?;
    }
    Ok(())
}
