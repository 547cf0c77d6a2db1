//! The rows of a table in the order of their leads, each cleared at the leads of the others.

ghost use Rattle.std.specs.Prelude.{◌≡◌, ◌<◌, ◌≤◌, ℕ, ◌++◌, true, length, IfOk, OnOk, map};
ghost use Rattle.ring_core.specs.Coeffs.{are_elems, first_values};
ghost use Rattle.linear_algebra.proofs.Gather.{leads};
ghost use Rattle.fq_linear.specs.steps.Elimination.{is_lead, slot, IsLedTable, AreFinished, cut_rows};

use super::cells::write_at;
use super::eliminate::reduce_below;
use super::rows::Rows;
use ring_core::rows::zero_list;
use ring_core::{E, Field, NoMemory};
use std::alloc::Global;

/// Clears the row with lead `j`, where there is one, at the leads below, and puts its first `basis.width()`
/// places after the others. `row` is room for it.
fn push_finished<F: Field>(
    f: &F,
    basis: &mut Rows<E<F>>,
    j: usize,
    index: &[Option<usize>],
    cells: &[E<F>],
    row: &mut [E<F>],
) -> Result<(), NoMemory>
    requires table { IsLedTable (F.ops f.now) (length row.old) index.now cells.now }
    requires row { are_elems (F.ops f.now) row.old ≡ true }
    requires place { j < basis.old.width }
    requires cut { basis.old.width ≤ length row.old }
    ensures width { basis.new.width ≡ basis.old.width }
    ensures row_len { length row.new ≡ length row.old }
    ensures row_elems { are_elems (F.ops f.now) row.new ≡ true }
    ensures rows { let r = F.ops f.now in let w = length row.old in let lead = is_lead index.now in OnOk result ((finished : ℕ → ℕ → F.Elem)
        → AreFinished r w lead (slot r w index.now cells.now) finished → basis.new.rows ≡ basis.old.rows ++ cut_rows basis.old.width lead finished j) }
{
    let Some(i) = index[j] else {
        return Ok(());
    };
    let w = row.len();
    write_at(row, 0, &cells[i * w..i * w + w]);
    reduce_below(f, j, index, cells, row);
    let cut = basis.width();
    Ok(basis.push(&row[..cut])?)
}

/// The same of each lead below `cut`, lowest first.
fn push_all<F: Field>(
    f: &F,
    basis: &mut Rows<E<F>>,
    cut: usize,
    index: &[Option<usize>],
    cells: &[E<F>],
    row: &mut [E<F>],
) -> Result<(), NoMemory>
    requires table { IsLedTable (F.ops f.now) (length row.old) index.now cells.now }
    requires row { are_elems (F.ops f.now) row.old ≡ true }
    requires cut { cut ≤ length row.old }
    requires width { basis.old.width ≡ cut }
    ensures width { basis.new.width ≡ cut }
    ensures rows { let r = F.ops f.now in let w = length row.old in let lead = is_lead index.now in OnOk result ((finished : ℕ → ℕ → F.Elem)
        → AreFinished r w lead (slot r w index.now cells.now) finished → basis.new.rows ≡ basis.old.rows ++ map (λ j. first_values cut (finished j)) (leads lead cut)) }
{
    for j in 0..cut {
        push_finished(f, basis, j, index, cells, row)?;
    }
    Ok(())
}

/// The rows with leads below `cut`, lowest lead first, each cleared at the leads of the others and cut to its
/// first `cut` places.
pub(super) fn gather<F: Field>(
    alloc: Global,
    f: &F,
    cut: usize,
    index: &[Option<usize>],
    cells: &[E<F>],
) -> Result<Rows<E<F>>, NoMemory>
    requires table { IsLedTable (F.ops f.now) (length index.now) index.now cells.now }
    requires cut { cut ≤ length index.now }
    ensures width { IfOk result (λ v. v.width ≡ cut) }
    ensures rows { let r = F.ops f.now in let w = length index.now in let lead = is_lead index.now in IfOk result (λ v. (finished : ℕ → ℕ → F.Elem)
        → AreFinished r w lead (slot r w index.now cells.now) finished → v.rows ≡ map (λ j. first_values cut (finished j)) (leads lead cut)) }
{
    let mut row = zero_list(alloc, f, index.len())?;
    let mut basis = Rows::new(alloc, cut);
    push_all(f, &mut basis, cut, index, cells, &mut row)?;
    Ok(basis)
}
