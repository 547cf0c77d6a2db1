//! The four calls on rows over a field, all by the one elimination.

ghost use Rattle.std.specs.Prelude.{◌≡◌, ◌+◌, ◌≤◌, ◌<◌, ℕ, true, false, length, IfOk, MatchOption, IsTrue, ◌↔◌};
ghost use Rattle.ring_core.specs.Coeffs.{coeff, are_elems};
ghost use Rattle.linear_algebra.specs.Linear.{are_rows, is_row, IsCombination, IsRelation, IsIndependent, IsEchelonBasis, IsOnlySolution, IsFirstDependence};
ghost use Rattle.fq_linear.specs.steps.Elimination.{is_lead, IsLedTable, IsReducedTarget, IsFirstLead};

use super::cells::write_at;
use super::eliminate::{eliminate, reduce_below};
use super::gather::gather;
use super::rows::Rows;
use ring_core::lists::neg_values;
use ring_core::rows::{is_zero_from, zero_list};
use ring_core::{E, Field, NoMemory};
use std::alloc::Global;

/// The one basis of the combinations of the rows with rising leads, one at each lead and zero at the other
/// rows' leads. The lead of a row is its highest place that is not zero.
///
/// The rows have to be rows of elements of `f`.
pub fn echelon<F: Field>(alloc: Global, f: &F, rows: &Rows<E<F>>) -> Result<Rows<E<F>>, NoMemory>
    requires { are_rows (F.ops f.now) rows.now.width rows.now.rows ≡ true }
    ensures width { IfOk result (λ v. v.width ≡ rows.now.width) }
    ensures basis { let r = F.ops f.now in IfOk result (λ v. IsEchelonBasis r rows.now.width (IsCombination r rows.now.rows) v.rows) }
{
    let table = eliminate(alloc, f, 0, rows)?;
    Ok(gather(alloc, f, rows.width(), &table.index, &table.cells)?)
}

/// The echelon basis of all relations of the rows: the lists `c` with a member for each row, with the sum of
/// `c[i]` times row `i` zero.
///
/// The rows have to be rows of elements of `f`.
pub fn kernel<F: Field>(alloc: Global, f: &F, rows: &Rows<E<F>>) -> Result<Rows<E<F>>, NoMemory>
    requires { are_rows (F.ops f.now) rows.now.width rows.now.rows ≡ true }
    ensures width { IfOk result (λ v. v.width ≡ length rows.now.rows) }
    ensures basis { let r = F.ops f.now in IfOk result (λ v. IsEchelonBasis r (length rows.now.rows) (IsRelation r rows.now.rows) v.rows) }
{
    let n = rows.len();
    let table = eliminate(alloc, f, n, rows)?;
    Ok(gather(alloc, f, n, &table.index, &table.cells)?)
}

/// Writes the target after `n` zeros and reduces it by the table. True exactly where nothing is left of it
/// from place `n` on.
fn reduce_target<F: Field>(
    f: &F,
    n: usize,
    index: &[Option<usize>],
    cells: &[E<F>],
    target: &[E<F>],
    row: &mut [E<F>],
) -> bool
    requires table { IsLedTable (F.ops f.now) (length row.old) index.now cells.now }
    requires target { are_elems (F.ops f.now) target.now ≡ true }
    requires row { are_elems (F.ops f.now) row.old ≡ true }
    requires row_len { length row.old ≡ n + length target.now }
    requires zero { (k : ℕ) → coeff (F.ops f.now) row.old k ≡ (F.ops f.now).zero }
    ensures reduced { IsReducedTarget (F.ops f.now) n (length row.old) index.now cells.now target.now row.new }
    ensures left { let r = F.ops f.now in IsTrue result ↔ ((k : ℕ) → n ≤ k → coeff r row.new k ≡ r.zero) }
{
    write_at(row, n, target);
    reduce_below(f, row.len(), index, cells, row);
    is_zero_from(f, n, row)
}

/// The coefficients of the one combination of the rows that gives the target and has zero at each row that
/// is a combination of the rows before it; None exactly where the target is no combination.
///
/// The rows and the target have to be rows of one width, of elements of `f`.
pub fn solve<F: Field>(
    alloc: Global,
    f: &F,
    rows: &Rows<E<F>>,
    target: &[E<F>],
) -> Result<Option<Vec<E<F>>>, NoMemory>
    requires rows { are_rows (F.ops f.now) rows.now.width rows.now.rows ≡ true }
    requires target { is_row (F.ops f.now) rows.now.width target.now ≡ true }
    ensures { let r = F.ops f.now in IfOk result (λ o. MatchOption o (IsCombination r rows.now.rows target.now → ⊥) (λ c. IsOnlySolution r rows.now.rows target.now c.items)) }
{
    let n = rows.len();
    let table = eliminate(alloc, f, n, rows)?;
    let mut row = zero_list(alloc, f, table.index.len())?;
    if !reduce_target(f, n, &table.index, &table.cells, target, &mut row) {
        return Ok(None);
    }
    let solution = neg_values(alloc, f, &row[..n])?;
    Ok(Some(solution))
}

/// The first lead below `n`, with the number of its row.
fn first_lead(n: usize, index: &[Option<usize>]) -> Option<(usize, usize)>
    requires { n ≤ length index.now }
    ensures { MatchOption result ((j : ℕ) → j < n → is_lead index.now j ≡ false) (λ d. IsFirstLead n index.now d.0 d.1) }
{
    for k in 0..n {
        if let Some(i) = index[k] {
            return Some((k, i));
        }
    }
    None
}

/// The least `k` for which row `k` is a combination of the rows before it, with its `k` coefficients; None
/// exactly where the rows are independent.
///
/// The rows have to be rows of elements of `f`.
pub fn first_dependence<F: Field>(
    alloc: Global,
    f: &F,
    rows: &Rows<E<F>>,
) -> Result<Option<(usize, Vec<E<F>>)>, NoMemory>
    requires { are_rows (F.ops f.now) rows.now.width rows.now.rows ≡ true }
    ensures { let r = F.ops f.now in IfOk result (λ o. MatchOption o (IsIndependent r rows.now.rows) (λ d. IsFirstDependence r rows.now.rows d.0 d.1.items)) }
{
    let table = eliminate(alloc, f, rows.len(), rows)?;
    let w = table.index.len();
    let Some((k, i)) = first_lead(rows.len(), &table.index) else {
        return Ok(None);
    };
    let coefficients = neg_values(alloc, f, &table.cells[i * w..i * w + k])?;
    Ok(Some((k, coefficients)))
}
