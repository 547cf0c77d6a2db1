//! The one elimination: rows are inserted one after another into rows which are found by their leads. A row
//! that is kept stays as it is, so it isn't cleared at the leads of the rows after it.

ghost use Rattle.std.specs.Prelude.{◌≡◌, ◌≢◌, ◌+◌, ◌*◌, ◌<◌, ◌≤◌, ℕ, true, false, length, None, IfOk, MatchOption};
ghost use Rattle.ring_core.specs.Ring.{IsElem};
ghost use Rattle.ring_core.specs.Coeffs.{coeff, are_elems};
ghost use Rattle.linear_algebra.specs.Combines.{Combines};
ghost use Rattle.linear_algebra.specs.steps.Slots.{minus};
ghost use Rattle.linear_algebra.specs.Linear.{entry, are_rows};
ghost use Rattle.fq_linear.specs.steps.Extents.{HasExtent, HaveExtents};
ghost use Rattle.fq_linear.specs.steps.Places.{cleared, unit_row};
ghost use Rattle.fq_linear.specs.Table.{row_cells};
ghost use Rattle.fq_linear.specs.steps.Elimination.{row_number, is_lead, slot, IsLedTable, IsBelow, CanJoin, IsFreeTop, IsInserted, augmented, IsEliminated};

use super::cells::{clear_by, filled, first_place, make_monic, write_at, write_unit};
use super::extent::{Extent, joined, lesser};
use super::rows::Rows;
use ring_core::lists::coeff_at;
use ring_core::rows::zero_list;
use ring_core::{E, Field, NoMemory};
use std::alloc::Global;

/// Rows of the width of `index`, which has at each lead the number of its row in `cells`.
#[derive(Drop)]
pub(super) struct LedRows<E> {
    pub(super) cells: Vec<E>,
    pub(super) index: Vec<Option<usize>>,
}

/// Clears the row at `j` by the row of the table with lead `j`, which has the extent. False exactly where it
/// isn't zero there and there is no such row.
fn clear_by_slot<F: Field>(
    f: &F,
    j: usize,
    index: &[Option<usize>],
    cells: &[E<F>],
    extent: Extent,
    row: &mut [E<F>],
) -> bool
    requires table { IsLedTable (F.ops f.now) (length row.old) index.now cells.now }
    requires row { are_elems (F.ops f.now) row.old ≡ true }
    requires place { j < length row.old }
    requires extent { let r = F.ops f.now in HasExtent r extent (slot r (length row.old) index.now cells.now j) }
    ensures len { length row.new ≡ length row.old }
    ensures elems { are_elems (F.ops f.now) row.new ≡ true }
    ensures cleared { (k : ℕ) → let r = F.ops f.now in coeff r row.new k ≡ cleared r j (slot r (length row.old) index.now cells.now j) (coeff r row.old) k }
    ensures zero { result ≡ true → coeff (F.ops f.now) row.new j ≡ (F.ops f.now).zero }
    ensures free { result ≡ false → is_lead index.now j ≡ false }
    ensures nonzero { result ≡ false → coeff (F.ops f.now) row.new j ≢ (F.ops f.now).zero }
{
    if f.equal(coeff_at(f, row, j), f.zero()) {
        return true;
    }
    let Some(i) = index[j] else {
        return false;
    };
    let w = row.len();
    clear_by(f, j, extent, &cells[i * w..i * w + w], row);
    true
}

/// Clears the row at all leads below `top` by the rows of the table, from the highest lead down.
pub(super) fn reduce_below<F: Field>(
    f: &F,
    top: usize,
    index: &[Option<usize>],
    cells: &[E<F>],
    row: &mut [E<F>],
)
    requires table { IsLedTable (F.ops f.now) (length row.old) index.now cells.now }
    requires row { are_elems (F.ops f.now) row.old ≡ true }
    requires top { top ≤ length row.old }
    ensures len { length row.new ≡ length row.old }
    ensures elems { are_elems (F.ops f.now) row.new ≡ true }
    ensures taken { let r = F.ops f.now in Combines r top (slot r (length row.old) index.now cells.now) (minus r (coeff r row.old) (coeff r row.new)) }
    ensures clear { (k : ℕ) → k < top → is_lead index.now k ≡ true → coeff (F.ops f.now) row.new k ≡ (F.ops f.now).zero }
{
    let any = Extent {
        low: 0,
        end: 0,
        high: 0,
    };
    for j in (0..top).rev() {
        clear_by_slot(f, j, index, cells, any, row);
    }
}

/// The same with the extents of the table's rows; keeps that of the row.
fn clear_in_extent<F: Field>(
    f: &F,
    j: usize,
    index: &[Option<usize>],
    cells: &[E<F>],
    extents: &[Extent],
    row: &mut [E<F>],
    extent: &mut Extent,
) -> bool
    requires table { IsLedTable (F.ops f.now) (length row.old) index.now cells.now }
    requires row { are_elems (F.ops f.now) row.old ≡ true }
    requires place { j < length row.old }
    requires extents { HaveExtents (F.ops f.now) (length row.old) index.now cells.now extents.now }
    requires extent { HasExtent (F.ops f.now) extent.old (coeff (F.ops f.now) row.old) }
    ensures len { length row.new ≡ length row.old }
    ensures elems { are_elems (F.ops f.now) row.new ≡ true }
    ensures cleared { (k : ℕ) → let r = F.ops f.now in coeff r row.new k ≡ cleared r j (slot r (length row.old) index.now cells.now j) (coeff r row.old) k }
    ensures zero { result ≡ true → coeff (F.ops f.now) row.new j ≡ (F.ops f.now).zero }
    ensures free { result ≡ false → is_lead index.now j ≡ false }
    ensures nonzero { result ≡ false → coeff (F.ops f.now) row.new j ≢ (F.ops f.now).zero }
    ensures extent { HasExtent (F.ops f.now) extent.new (coeff (F.ops f.now) row.new) }
{
    if f.equal(coeff_at(f, row, j), f.zero()) {
        return true;
    }
    let stored = extents[j];
    *extent = joined(*extent, stored);
    clear_by_slot(f, j, index, cells, stored, row)
}

/// Clears the row by the rows of the table from its top down, to the first place that isn't zero and is no
/// lead, and gives that place; None exactly where nothing is left.
fn reduce_top<F: Field>(
    f: &F,
    index: &[Option<usize>],
    cells: &[E<F>],
    extents: &[Extent],
    row: &mut [E<F>],
    extent: &mut Extent,
) -> Option<usize>
    requires table { IsLedTable (F.ops f.now) (length row.old) index.now cells.now }
    requires row { are_elems (F.ops f.now) row.old ≡ true }
    requires extents { HaveExtents (F.ops f.now) (length row.old) index.now cells.now extents.now }
    requires extent { HasExtent (F.ops f.now) extent.old (coeff (F.ops f.now) row.old) }
    ensures len { length row.new ≡ length row.old }
    ensures elems { are_elems (F.ops f.now) row.new ≡ true }
    ensures taken { let r = F.ops f.now in let w = length row.old in Combines r w (slot r w index.now cells.now) (minus r (coeff r row.old) (coeff r row.new)) }
    ensures top { let r = F.ops f.now in MatchOption result ((k : ℕ) → coeff r row.new k ≡ r.zero) (IsFreeTop r index.now row.new) }
    ensures extent { HasExtent (F.ops f.now) extent.new (coeff (F.ops f.now) row.new) }
{
    for j in (0..row.len()).rev() {
        if !clear_in_extent(f, j, index, cells, extents, row, extent) {
            return Some(j);
        }
    }
    None
}

/// Keeps `row`, whose lead is `l`, as row `count` of the table.
fn keep_row<F: Field>(
    f: &F,
    count: usize,
    l: usize,
    index: &mut [Option<usize>],
    cells: &mut [E<F>],
    row: &[E<F>],
)
    requires table { IsLedTable (F.ops f.now) (length row.now) index.old cells.old }
    requires below { IsBelow count index.old }
    requires room { count * length row.now + length row.now ≤ length cells.old }
    requires row { are_elems (F.ops f.now) row.now ≡ true }
    requires joins { CanJoin (F.ops f.now) index.old row.now l }
    ensures cells_len { length cells.new ≡ length cells.old }
    ensures table { IsLedTable (F.ops f.now) (length row.now) index.new cells.new }
    ensures below { IsBelow (count + 1) index.new }
    ensures inserted { let r = F.ops f.now in let w = length row.now in IsInserted r w (slot r w index.old cells.old) (slot r w index.new cells.new) (coeff r row.now) }
    ensures new { (k : ℕ) → let r = F.ops f.now in slot r (length row.now) index.new cells.new l k ≡ coeff r row.now k }
    ensures kept { (j k : ℕ) → j ≢ l → let r = F.ops f.now in let w = length row.now in slot r w index.new cells.new j k ≡ slot r w index.old cells.old j k }
{
    write_at(cells, count * row.len(), row);
    index[l] = Some(count);
}

/// Inserts the row into the table; where anything of it is left once it is reduced, this becomes row `count`.
fn insert_row<F: Field>(
    f: &F,
    count: usize,
    index: &mut [Option<usize>],
    cells: &mut [E<F>],
    extents: &mut [Extent],
    row: &mut [E<F>],
    extent: &mut Extent,
)
    requires table { IsLedTable (F.ops f.now) (length row.old) index.old cells.old }
    requires below { IsBelow count index.old }
    requires room { count * length row.old + length row.old ≤ length cells.old }
    requires row { are_elems (F.ops f.now) row.old ≡ true }
    requires extents { HaveExtents (F.ops f.now) (length row.old) index.old cells.old extents.old }
    requires extent { HasExtent (F.ops f.now) extent.old (coeff (F.ops f.now) row.old) }
    ensures row_len { length row.new ≡ length row.old }
    ensures row_elems { are_elems (F.ops f.now) row.new ≡ true }
    ensures cells_len { length cells.new ≡ length cells.old }
    ensures table { IsLedTable (F.ops f.now) (length row.old) index.new cells.new }
    ensures below { IsBelow (count + 1) index.new }
    ensures inserted { let r = F.ops f.now in let w = length row.old in IsInserted r w (slot r w index.old cells.old) (slot r w index.new cells.new) (coeff r row.old) }
    ensures extents { HaveExtents (F.ops f.now) (length row.old) index.new cells.new extents.new }
{
    let Some(l) = reduce_top(f, index, cells, extents, row, extent) else {
        return;
    };
    make_monic(f, l, row);
    keep_row(f, count, l, index, cells, row);
    extents[l] = *extent;
}

/// The extent of the row, which has row `i` of the unit matrix at its first `offset` places.
fn first_extent<F: Field>(f: &F, i: usize, offset: usize, row: &[E<F>]) -> Extent
    requires row { are_elems (F.ops f.now) row.now ≡ true }
    requires offset { offset ≤ length row.now }
    requires unit { (k : ℕ) → k < offset → coeff (F.ops f.now) row.now k ≡ unit_row (F.ops f.now) i k }
    ensures { HasExtent (F.ops f.now) result (coeff (F.ops f.now) row.now) }
{
    let low = lesser(i, offset);
    let high = first_place(f, offset, row);
    if i < offset {
        return Extent {
            low,
            end: i + 1,
            high,
        };
    }
    Extent {
        low,
        end: offset,
        high,
    }
}

/// Inserts each of the `n` rows of `source`, which have the width `width`, with row `i` of the unit matrix of
/// width `offset` before it. `row` is room for one such row.
fn insert_all<F: Field>(
    f: &F,
    n: usize,
    offset: usize,
    width: usize,
    source: &[E<F>],
    index: &mut [Option<usize>],
    cells: &mut [E<F>],
    extents: &mut [Extent],
    row: &mut [E<F>],
)
    requires source { are_elems (F.ops f.now) source.now ≡ true }
    requires source_len { length source.now ≡ n * width }
    requires index_len { length index.old ≡ offset + width }
    requires empty { (j : ℕ) → row_number index.old j ≡ None }
    requires cells { are_elems (F.ops f.now) cells.old ≡ true }
    requires cells_len { length cells.old ≡ n * (offset + width) }
    requires row { are_elems (F.ops f.now) row.old ≡ true }
    requires row_len { length row.old ≡ offset + width }
    requires extents_len { length extents.old ≡ offset + width }
    ensures { let r = F.ops f.now in IsEliminated r (offset + width) n (augmented r offset (λ i. coeff r (row_cells width source.now i))) index.new cells.new }
{
    for i in 0..n {
        write_unit(f, offset, i, row);
        write_at(row, offset, &source[i * width..i * width + width]);
        let mut extent = first_extent(f, i, offset, row);
        insert_row(f, i, index, cells, extents, row, &mut extent);
    }
}

/// Eliminates the rows with the unit matrix of width `offset` before them. With no unit matrix, `offset` zero,
/// the table holds rows with the combinations of the rows; with one row of it for each row, also the relations.
pub(super) fn eliminate<F: Field>(
    alloc: Global,
    f: &F,
    offset: usize,
    rows: &Rows<E<F>>,
) -> Result<LedRows<E<F>>, NoMemory>
    requires { are_rows (F.ops f.now) rows.now.width rows.now.rows ≡ true }
    ensures { let r = F.ops f.now in IfOk result (λ t. IsEliminated r (offset + rows.now.width) (length rows.now.rows) (augmented r offset (entry r rows.now.rows)) t.index.items t.cells.items) }
{
    let n = rows.len();
    let Some(w) = offset.checked_add(rows.width()) else {
        return Err(NoMemory);
    };
    let Some(size) = n.checked_mul(w) else {
        return Err(NoMemory);
    };
    let mut cells = zero_list(alloc, f, size)?;
    let mut index = filled(alloc, w, None)?;
    let none = Extent {
        low: w,
        end: 0,
        high: w,
    };
    let mut extents = filled(alloc, w, none)?;
    let mut row = zero_list(alloc, f, w)?;
    insert_all(
        f,
        n,
        offset,
        rows.width(),
        rows.cells(),
        &mut index,
        &mut cells,
        &mut extents,
        &mut row,
    );
    Ok(LedRows { cells, index })
}
