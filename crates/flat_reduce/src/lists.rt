//! Lists of flat rows to begin with: the identity, copies, and rows without members; and free slots.

ghost use Rattle.std.specs.Prelude.{◌≡◌, ◌+◌, ◌<◌, ◌≤◌, ℕ, true, [], None, length, replicate, IfOk};
ghost use Rattle.ring_core.specs.Coeffs.{coeff, is_canonical};
ghost use Rattle.linear_algebra.specs.Linear.{row_at, entry};
ghost use Rattle.flat_modules.specs.Flat.{are_flat, unit_at};

use fq_poly::Poly;
use ring_core::lists::{copy_list, trimmed};
use ring_core::rows::zero_list;
use ring_core::{E, Field, NoMemory};
use std::alloc::Global;

/// Row `i` of the identity.
fn unit_row<F: Field>(alloc: Global, f: &F, i: usize) -> Result<Vec<E<F>>, NoMemory>
    ensures flat { IfOk result (λ v. is_canonical (F.ops f.now) v.items ≡ true) }
    ensures unit { IfOk result (λ v. (t : ℕ) → coeff (F.ops f.now) v.items t ≡ unit_at (F.ops f.now) i t) }
{
    let mut row = zero_list(alloc, f, i)?;
    row.push(f.one())?;
    Ok(trimmed(f, row))
}

/// The identity with `n` rows.
pub fn identity_rows<F: Field>(alloc: Global, f: &F, n: usize) -> Result<Vec<Poly<E<F>>>, NoMemory>
    ensures len { IfOk result (λ v. length v.items ≡ n) }
    ensures flat { IfOk result (λ v. are_flat (F.ops f.now) v.items ≡ true) }
    ensures unit { IfOk result (λ v. (i t : ℕ) → i < n → entry (F.ops f.now) v.items i t ≡ unit_at (F.ops f.now) i t) }
{
    let mut rows = Vec::new(alloc);
    for i in 0..n {
        rows.push(Poly::from_vec(unit_row(alloc, f, i)?))?;
    }
    Ok(rows)
}

/// Copies of the rows.
pub fn copies<C: Copy>(alloc: Global, rows: &[Poly<C>]) -> Result<Vec<Poly<C>>, NoMemory>
    ensures { IfOk result (λ v. v.items ≡ rows.now) }
{
    let mut list = Vec::new(alloc);
    for i in 0..rows.len() {
        list.push(Poly::from_vec(copy_list(alloc, rows[i].as_slice())?))?;
    }
    Ok(list)
}

/// As many rows without members.
pub fn empty_rows<F: Field>(alloc: Global, f: &F, n: usize) -> Result<Vec<Poly<E<F>>>, NoMemory>
    ensures len { IfOk result (λ v. length v.items ≡ n) }
    ensures flat { IfOk result (λ v. are_flat (F.ops f.now) v.items ≡ true) }
    ensures empty { IfOk result (λ v. (i : ℕ) → row_at v.items i ≡ []) }
{
    let mut rows = Vec::new(alloc);
    for i in 0..n {
        rows.push(Poly::from_vec(Vec::new(alloc)))?;
    }
    Ok(rows)
}

/// A slot for each of `w` places, none of which is taken.
pub fn free_slots(alloc: Global, w: usize) -> Result<Vec<Option<usize>>, NoMemory>
    ensures { IfOk result (λ v. v.items ≡ replicate w None) }
{
    let mut list = Vec::new(alloc);
    for i in 0..w {
        list.push(None)?;
    }
    Ok(list)
}
