//! A basis of the relations of flat rows.

ghost use Rattle.std.specs.Prelude.{◌≡◌, ◌+◌, ◌<◌, ◌≤◌, ℕ, true, None, length, replicate, IfOk};
ghost use Rattle.linear_algebra.specs.Linear.{entry};
ghost use Rattle.flat_modules.specs.Flat.{are_flat, unit_at, zero_rows, IsBasis, IsRelationOf, IsOfReduction};

use super::lists::{copies, empty_rows, free_slots, identity_rows};
use super::settle::settle_all;
use fq_poly::Poly;
use ring_core::lists::copy_list;
use ring_core::{E, Field, NoMemory};
use std::alloc::Global;

/// The rows of `left` where those of `image` are zero.
fn at_zeros<C: Copy>(
    alloc: Global,
    image: &[Poly<C>],
    left: &[Poly<C>],
) -> Result<Vec<Poly<C>>, NoMemory>
    requires { length left.now ≡ length image.now }
    ensures { IfOk result (λ v. v.items ≡ zero_rows image.now left.now (length image.now)) }
{
    let mut list = Vec::new(alloc);
    for i in 0..image.len() {
        if image[i].len() == 0 {
            list.push(Poly::from_vec(copy_list(alloc, left[i].as_slice())?))?;
        }
    }
    Ok(list)
}

/// A basis of the relations of the rows that `image` holds, where `left` is the identity and no slot is taken.
/// The inverse of the transform isn't kept: that there is one stands in the proof alone.
fn settled_kernel<F: Field>(
    alloc: Global,
    f: &F,
    w: usize,
    slot: &mut [Option<usize>],
    image: &mut [Poly<E<F>>],
    left: &mut [Poly<E<F>>],
    columns: &mut [Poly<E<F>>],
) -> Result<Vec<Poly<E<F>>>, NoMemory>
    requires width { 1 ≤ w }
    requires images { are_flat (F.ops f.now) image.old ≡ true }
    requires lefts { are_flat (F.ops f.now) left.old ≡ true }
    requires columns { are_flat (F.ops f.now) columns.old ≡ true }
    requires same_len { length left.old ≡ length image.old }
    requires same_columns { length columns.old ≡ length image.old }
    requires free { slot.old ≡ replicate w None }
    requires unit { (i t : ℕ) → i < length image.old → entry (F.ops f.now) left.old i t ≡ unit_at (F.ops f.now) i t }
    ensures basis { IfOk result (λ v. IsBasis (F.ops f.now) (length image.old) (IsRelationOf (F.ops f.now) w image.old) v.items) }
    ensures source { IfOk result (λ v. IsOfReduction (F.ops f.now) w image.old v.items) }
{
    settle_all(alloc, f, w, slot, image, left, columns)?;
    Ok(at_zeros(alloc, image, left)?)
}

/// A basis of the relations of the flat rows of the width `w`, at least 1: each flat row `c` with a place for
/// each row of `m` and `c m = 0` is the combination of the answer's rows by exactly one list of polynomials,
/// whatever its degrees. The answer's rows have the width `m.len()`. They are the rows of the transform of some
/// reduction where the image is zero.
pub fn kernel_rows<F: Field>(
    alloc: Global,
    f: &F,
    w: usize,
    m: &[Poly<E<F>>],
) -> Result<Vec<Poly<E<F>>>, NoMemory>
    requires width { 1 ≤ w }
    requires rows { are_flat (F.ops f.now) m.now ≡ true }
    ensures basis { IfOk result (λ v. IsBasis (F.ops f.now) (length m.now) (IsRelationOf (F.ops f.now) w m.now) v.items) }
    ensures source { IfOk result (λ v. IsOfReduction (F.ops f.now) w m.now v.items) }
{
    let mut image = copies(alloc, m)?;
    let mut left = identity_rows(alloc, f, m.len())?;
    let mut columns = empty_rows(alloc, f, m.len())?;
    let mut slot = free_slots(alloc, w)?;
    Ok(settled_kernel(alloc, f, w, &mut slot, &mut image, &mut left, &mut columns)?)
}
