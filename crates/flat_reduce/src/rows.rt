//! Flat rows that grow and are added to one another.

ghost use Rattle.std.specs.Prelude.{◌≡◌, ◌≢◌, ◌+◌, ◌<◌, ◌≤◌, ℕ, true, length, IfOk};
ghost use Rattle.ring_core.specs.Ring.{IsElem};
ghost use Rattle.ring_core.specs.Coeffs.{coeff, are_elems, is_canonical};
ghost use Rattle.linear_algebra.specs.Linear.{row_at};
ghost use Rattle.flat_modules.specs.Flat.{are_flat, shifted};
ghost use Rattle.flat_reduce.specs.steps.Turns.{IsRowAdded};

use fq_poly::Poly;
use ring_core::lists::trimmed;
use ring_core::rows::{add_scaled, extend};
use ring_core::{E, Field, NoMemory};
use std::alloc::Global;

/// The list and `c` times `row` behind `s` zeros, without zeros at the end. Takes no memory where `row` is
/// empty.
pub fn add_shifted<F: Field>(
    f: &F,
    list: Vec<E<F>>,
    s: usize,
    c: E<F>,
    row: &[E<F>],
) -> Result<Vec<E<F>>, NoMemory>
    requires list { are_elems (F.ops f.now) list.items ≡ true }
    requires factor { IsElem (F.ops f.now) c }
    requires row { are_elems (F.ops f.now) row.now ≡ true }
    ensures flat { IfOk result (λ v. is_canonical (F.ops f.now) v.items ≡ true) }
    ensures added { IfOk result (λ v. let r = F.ops f.now in (t : ℕ) → coeff r v.items t ≡ r.add (coeff r list.items t) (r.mul c (shifted r s (coeff r row.now) t))) }
{
    if row.is_empty() {
        return Ok(trimmed(f, list));
    }
    let Some(len) = s.checked_add(row.len()) else {
        return Err(NoMemory);
    };
    let mut longer = list;
    extend(f, &mut longer, len)?;
    add_scaled(f, &mut longer, s, c, row);
    Ok(trimmed(f, longer))
}

/// Adds `c` times row `q` behind `s` zeros to row `p`.
pub fn add_row<F: Field>(
    alloc: Global,
    f: &F,
    rows: &mut [Poly<E<F>>],
    p: usize,
    q: usize,
    s: usize,
    c: E<F>,
) -> Result<(), NoMemory>
    requires rows { are_flat (F.ops f.now) rows.old ≡ true }
    requires factor { IsElem (F.ops f.now) c }
    requires first { p < length rows.old }
    requires second { q < length rows.old }
    requires apart { p ≢ q }
    ensures flat { IfOk result (λ _. are_flat (F.ops f.now) rows.new ≡ true) }
    ensures added { IfOk result (λ _. IsRowAdded (F.ops f.now) p q s c rows.old rows.new) }
{
    let row = std::mem::replace(&mut rows[p], Poly::from_vec(Vec::new(alloc)));
    let sum = add_shifted(f, row.into_vec(), s, c, rows[q].as_slice())?;
    rows[p] = Poly::from_vec(sum);
    Ok(())
}
