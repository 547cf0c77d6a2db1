//! Rows are settled one after another, so that at most one has each lead place. A slot for each place names
//! that row, so no pair of rows is searched for.

ghost use Rattle.std.specs.Prelude.{◌≡◌, ◌≢◌, ◌+◌, ◌-◌, ◌%◌, ◌<◌, ◌≤◌, ℕ, true, [], Some, length, IfOk};
ghost use Rattle.linear_algebra.specs.Linear.{row_at};
ghost use Rattle.flat_modules.specs.Flat.{are_flat, lead_at};
ghost use Rattle.flat_reduce.specs.steps.Settled.{slot_of, IsUnsettled, total_len};
ghost use Rattle.flat_reduce.specs.steps.Turns.{Turns};

use super::turn::turn;
use fq_poly::Poly;
use ring_core::{E, Field, NoMemory};
use std::alloc::Global;

/// Makes one turn of row `p` and row `q`, which has the same lead place and is named there: the shorter of the
/// two stays named. Gives the number of the other.
fn settle_once<F: Field>(
    alloc: Global,
    f: &F,
    w: usize,
    i: usize,
    p: usize,
    q: usize,
    slot: &mut [Option<usize>],
    image: &mut [Poly<E<F>>],
    left: &mut [Poly<E<F>>],
    columns: &mut [Poly<E<F>>],
) -> Result<usize, NoMemory>
    requires width { 1 ≤ w }
    requires images { are_flat (F.ops f.now) image.old ≡ true }
    requires lefts { are_flat (F.ops f.now) left.old ≡ true }
    requires columns { are_flat (F.ops f.now) columns.old ≡ true }
    requires same_len { length left.old ≡ length image.old }
    requires same_columns { length columns.old ≡ length image.old }
    requires within { i < length image.old }
    requires nonzero { row_at image.old p ≢ [] }
    requires named { slot_of slot.old (lead_at image.old p % w) ≡ Some q }
    requires unsettled { IsUnsettled w i p slot.old image.old }
    requires first { p ≤ i }
    requires second { q < length image.old }
    requires apart { p ≢ q }
    ensures images { IfOk result (λ _. are_flat (F.ops f.now) image.new ≡ true) }
    ensures lefts { IfOk result (λ _. are_flat (F.ops f.now) left.new ≡ true) }
    ensures columns { IfOk result (λ _. are_flat (F.ops f.now) columns.new ≡ true) }
    ensures unsettled { IfOk result (λ v. IsUnsettled w i v slot.new image.new) }
    ensures within { IfOk result (λ v. v ≤ i) }
    ensures turned { IfOk result (λ _. Turns (F.ops f.now) w (length left.old) image.old left.old columns.old image.new left.new columns.new) }
    ensures fewer { IfOk result (λ _. total_len image.new < total_len image.old) }
{
    if image[p].len() < image[q].len() {
        slot[(image[p].len() - 1) % w] = Some(p);
        turn(alloc, f, w, q, p, image, left, columns)?;
        Ok(q)
    } else {
        turn(alloc, f, w, p, q, image, left, columns)?;
        Ok(p)
    }
}

/// Settles row `i`, where the rows before it are settled.
fn settle<F: Field>(
    alloc: Global,
    f: &F,
    w: usize,
    i: usize,
    slot: &mut [Option<usize>],
    image: &mut [Poly<E<F>>],
    left: &mut [Poly<E<F>>],
    columns: &mut [Poly<E<F>>],
) -> Result<(), NoMemory>
    requires width { 1 ≤ w }
    requires images { are_flat (F.ops f.now) image.old ≡ true }
    requires lefts { are_flat (F.ops f.now) left.old ≡ true }
    requires columns { are_flat (F.ops f.now) columns.old ≡ true }
    requires same_len { length left.old ≡ length image.old }
    requires same_columns { length columns.old ≡ length image.old }
    requires within { i < length image.old }
    requires unsettled { IsUnsettled w i i slot.old image.old }
    ensures images { IfOk result (λ _. are_flat (F.ops f.now) image.new ≡ true) }
    ensures lefts { IfOk result (λ _. are_flat (F.ops f.now) left.new ≡ true) }
    ensures columns { IfOk result (λ _. are_flat (F.ops f.now) columns.new ≡ true) }
    ensures unsettled { IfOk result (λ _. IsUnsettled w i (i + 1) slot.new image.new) }
    ensures turned { IfOk result (λ _. Turns (F.ops f.now) w (length left.old) image.old left.old columns.old image.new left.new columns.new) }
{
    let mut p = i;
    while image[p].len() > 0 {
        let place = (image[p].len() - 1) % w;
        let Some(q) = slot[place] else {
            slot[place] = Some(p);
            return Ok(());
        };
        p = settle_once(alloc, f, w, i, p, q, slot, image, left, columns)?;
    }
    Ok(())
}

/// Settles all rows of `image`, of the width `w`, so that those that aren't zero have different lead places.
/// `left` and `columns` have a row for each of them and take part in each turn: what began as the identity is
/// then the transform and, column by column, its inverse; empty rows stay empty and cost nothing.
pub fn settle_all<F: Field>(
    alloc: Global,
    f: &F,
    w: usize,
    slot: &mut [Option<usize>],
    image: &mut [Poly<E<F>>],
    left: &mut [Poly<E<F>>],
    columns: &mut [Poly<E<F>>],
) -> Result<(), NoMemory>
    requires width { 1 ≤ w }
    requires images { are_flat (F.ops f.now) image.old ≡ true }
    requires lefts { are_flat (F.ops f.now) left.old ≡ true }
    requires columns { are_flat (F.ops f.now) columns.old ≡ true }
    requires same_len { length left.old ≡ length image.old }
    requires same_columns { length columns.old ≡ length image.old }
    requires unsettled { IsUnsettled w 0 0 slot.old image.old }
    ensures images { IfOk result (λ _. are_flat (F.ops f.now) image.new ≡ true) }
    ensures lefts { IfOk result (λ _. are_flat (F.ops f.now) left.new ≡ true) }
    ensures columns { IfOk result (λ _. are_flat (F.ops f.now) columns.new ≡ true) }
    ensures settled { IfOk result (λ _. IsUnsettled w (length image.old) (length image.old) slot.new image.new) }
    ensures turned { IfOk result (λ _. Turns (F.ops f.now) w (length left.old) image.old left.old columns.old image.new left.new columns.new) }
{
    for i in 0..image.len() {
        settle(alloc, f, w, i, slot, image, left, columns)?;
    }
    Ok(())
}
