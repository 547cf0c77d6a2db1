//! The standard basis of the module of flat rows.

ghost use Rattle.std.specs.Prelude.{◌≡◌, ◌≢◌, ◌+◌, ◌-◌, ◌%◌, ◌<◌, ◌≤◌, ℕ, true, [], None, length, replicate, IfOk};
ghost use Rattle.ring_core.specs.Coeffs.{coeff};
ghost use Rattle.linear_algebra.specs.Linear.{row_at, entry};
ghost use Rattle.flat_modules.specs.Flat.{are_flat, lead_at, IsStandardBasis, IsInModule};
ghost use Rattle.popov_basis.specs.steps.Leading.{IsLeading, AreCleared};

use super::clear::{clear_rows, name_rows};
use super::leading::leading;
use flat_reduce::lists::{copies, empty_rows, free_slots};
use flat_reduce::settle::settle_all;
use fq_poly::Poly;
use ring_core::{E, Field, NoMemory};
use std::alloc::Global;

/// Names the rows and clears them by one another.
fn cleared<F: Field>(
    alloc: Global,
    f: &F,
    w: usize,
    slot: &mut [Option<usize>],
    rows: &mut [Poly<E<F>>],
) -> Result<(), NoMemory>
    requires width { 1 ≤ w }
    requires rows { are_flat (F.ops f.now) rows.old ≡ true }
    requires free { slot.old ≡ replicate w None }
    requires full { (k : ℕ) → k < length rows.old → 0 < length (row_at rows.old k) }
    requires apart { (i k : ℕ) → i < length rows.old → k < length rows.old → i ≢ k → lead_at rows.old i % w ≢ lead_at rows.old k % w }
    requires ones { (k : ℕ) → k < length rows.old → entry (F.ops f.now) rows.old k (lead_at rows.old k) ≡ (F.ops f.now).one }
    ensures flat { IfOk result (λ _. are_flat (F.ops f.now) rows.new ≡ true) }
    ensures cleared { IfOk result (λ _. AreCleared (F.ops f.now) w (length rows.old) rows.old rows.new) }
{
    name_rows(w, slot, rows);
    clear_rows(alloc, f, w, slot, rows)?;
    Ok(())
}

/// The standard basis of the rows that `image` holds, where no slot is taken; `left` and `columns` have as many
/// rows, whatever they are.
fn settled_standard<F: Field>(
    alloc: Global,
    f: &F,
    w: usize,
    slot: &mut [Option<usize>],
    image: &mut [Poly<E<F>>],
    left: &mut [Poly<E<F>>],
    columns: &mut [Poly<E<F>>],
) -> Result<Vec<Poly<E<F>>>, NoMemory>
    requires width { 1 ≤ w }
    requires images { are_flat (F.ops f.now) image.old ≡ true }
    requires lefts { are_flat (F.ops f.now) left.old ≡ true }
    requires columns { are_flat (F.ops f.now) columns.old ≡ true }
    requires same_len { length left.old ≡ length image.old }
    requires same_columns { length columns.old ≡ length image.old }
    requires free { slot.old ≡ replicate w None }
    ensures { IfOk result (λ v. IsStandardBasis (F.ops f.now) w (IsInModule (F.ops f.now) w image.old) v.items) }
{
    settle_all(alloc, f, w, slot, image, left, columns)?;
    let mut list = leading(alloc, f, image)?;
    let mut names = free_slots(alloc, w)?;
    cleared(alloc, f, w, &mut names, &mut list)?;
    Ok(list)
}

/// The standard basis of the module of the flat rows. Their transform isn't kept: its rows are empty.
pub(super) fn standard_rows<F: Field>(
    alloc: Global,
    f: &F,
    w: usize,
    rows: &[Poly<E<F>>],
) -> Result<Vec<Poly<E<F>>>, NoMemory>
    requires width { 1 ≤ w }
    requires rows { are_flat (F.ops f.now) rows.now ≡ true }
    ensures { IfOk result (λ v. IsStandardBasis (F.ops f.now) w (IsInModule (F.ops f.now) w rows.now) v.items) }
{
    let mut image = copies(alloc, rows)?;
    let mut left = empty_rows(alloc, f, rows.len())?;
    let mut columns = empty_rows(alloc, f, rows.len())?;
    let mut slot = free_slots(alloc, w)?;
    Ok(settled_standard(alloc, f, w, &mut slot, &mut image, &mut left, &mut columns)?)
}
