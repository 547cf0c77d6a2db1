//! Reduction with the transform and its inverse.

ghost use Rattle.std.specs.Prelude.{◌≡◌, ◌+◌, ◌*◌, ◌/◌, ◌%◌, ◌^◌, ◌<◌, ◌≤◌, ℕ, true, None, length, replicate, IfOk};
ghost use Rattle.ring_core.specs.Ring.{IsElem};
ghost use Rattle.ring_core.specs.Coeffs.{coeff, is_canonical};
ghost use Rattle.linear_algebra.specs.Linear.{row_at, entry};
ghost use Rattle.flat_modules.specs.Flat.{are_flat, unit_at, IsReduction};

use super::lists::{copies, free_slots, identity_rows};
use super::settle::settle_all;
use fq_poly::Poly;
use ring_core::lists::{coeff_at, trimmed};
use ring_core::{E, Field, NoMemory};
use std::alloc::Global;

/// A reduction of flat rows: the transform, its inverse, and the image, with one row each for each row that was
/// reduced. Rows of `left` and `back` have the number of rows for their width.
#[derive(Drop)]
pub struct ReducedRows<E> {
    pub left: Vec<Poly<E>>,
    pub back: Vec<Poly<E>>,
    pub image: Vec<Poly<E>>,
}

/// A length that no row exceeds.
pub fn longest<C: Copy>(rows: &[Poly<C>]) -> usize
    ensures { (i : ℕ) → length (row_at rows.now i) ≤ result }
{
    let mut len = 0;
    for i in 0..rows.len() {
        len = len.max(rows[i].len());
    }
    len
}

/// Member `t` of row `i` of the matrix with these columns, where the columns are no longer than `len`.
fn across_at<F: Field>(f: &F, columns: &[Poly<E<F>>], len: usize, i: usize, t: usize) -> E<F>
    requires columns { are_flat (F.ops f.now) columns.now ≡ true }
    requires row { i < length columns.now }
    requires bound { (j : ℕ) → length (row_at columns.now j) ≤ len }
    requires room { len + length columns.now < 2 ^ 64 }
    ensures value { result ≡ entry (F.ops f.now) columns.now (t % length columns.now) (t / length columns.now * length columns.now + i) }
    ensures elem { IsElem (F.ops f.now) result }
{
    let place = t % columns.len();
    let first = t - place;
    if first < len {
        coeff_at(f, columns[place].as_slice(), first + i)
    } else {
        f.zero()
    }
}

/// Row `i` of the matrix with these columns.
fn row_across<F: Field>(
    alloc: Global,
    f: &F,
    columns: &[Poly<E<F>>],
    i: usize,
) -> Result<Vec<E<F>>, NoMemory>
    requires columns { are_flat (F.ops f.now) columns.now ≡ true }
    requires row { i < length columns.now }
    ensures flat { IfOk result (λ v. is_canonical (F.ops f.now) v.items ≡ true) }
    ensures row { IfOk result (λ v. (t : ℕ) → coeff (F.ops f.now) v.items t ≡ entry (F.ops f.now) columns.now (t % length columns.now) (t / length columns.now * length columns.now + i)) }
{
    let len = longest(columns);
    let Some(places) = len.checked_add(columns.len()) else {
        return Err(NoMemory);
    };
    let mut row = Vec::new(alloc);
    for t in 0..places {
        row.push(across_at(f, columns, len, i, t))?;
    }
    Ok(trimmed(f, row))
}

/// The matrix with these columns, as many as it has rows.
fn from_columns<F: Field>(
    alloc: Global,
    f: &F,
    columns: &[Poly<E<F>>],
) -> Result<Vec<Poly<E<F>>>, NoMemory>
    requires { are_flat (F.ops f.now) columns.now ≡ true }
    ensures len { IfOk result (λ v. length v.items ≡ length columns.now) }
    ensures flat { IfOk result (λ v. are_flat (F.ops f.now) v.items ≡ true) }
    ensures rows { IfOk result (λ v. (i t : ℕ) → i < length columns.now → entry (F.ops f.now) v.items i t ≡ entry (F.ops f.now) columns.now (t % length columns.now) (t / length columns.now * length columns.now + i)) }
{
    let mut rows = Vec::new(alloc);
    for i in 0..columns.len() {
        rows.push(Poly::from_vec(row_across(alloc, f, columns, i)?))?;
    }
    Ok(rows)
}

/// Reduces the rows that `image` holds, where `left` and `columns` are the identity and no slot is taken. Gives
/// the inverse of the transform that `left` becomes.
fn settled_inverse<F: Field>(
    alloc: Global,
    f: &F,
    w: usize,
    slot: &mut [Option<usize>],
    image: &mut [Poly<E<F>>],
    left: &mut [Poly<E<F>>],
    columns: &mut [Poly<E<F>>],
) -> Result<Vec<Poly<E<F>>>, NoMemory>
    requires width { 1 ≤ w }
    requires images { are_flat (F.ops f.now) image.old ≡ true }
    requires lefts { are_flat (F.ops f.now) left.old ≡ true }
    requires columns { are_flat (F.ops f.now) columns.old ≡ true }
    requires same_len { length left.old ≡ length image.old }
    requires same_columns { length columns.old ≡ length image.old }
    requires free { slot.old ≡ replicate w None }
    requires unit { (i t : ℕ) → i < length image.old → entry (F.ops f.now) left.old i t ≡ unit_at (F.ops f.now) i t }
    requires unit_columns { (i t : ℕ) → i < length image.old → entry (F.ops f.now) columns.old i t ≡ unit_at (F.ops f.now) i t }
    ensures { IfOk result (λ v. IsReduction (F.ops f.now) w image.old left.new v.items image.new) }
{
    settle_all(alloc, f, w, slot, image, left, columns)?;
    Ok(from_columns(alloc, f, columns)?)
}

/// Reduces the flat rows of the width `w`, at least 1: the transform times the rows is the image, whose rows
/// that aren't zero have different lead places, and the products of the transform and its inverse are the
/// identity.
pub fn reduce_rows<F: Field>(
    alloc: Global,
    f: &F,
    w: usize,
    m: &[Poly<E<F>>],
) -> Result<ReducedRows<E<F>>, NoMemory>
    requires width { 1 ≤ w }
    requires rows { are_flat (F.ops f.now) m.now ≡ true }
    ensures { IfOk result (λ v. IsReduction (F.ops f.now) w m.now v.left.items v.back.items v.image.items) }
{
    let mut image = copies(alloc, m)?;
    let mut left = identity_rows(alloc, f, m.len())?;
    let mut columns = identity_rows(alloc, f, m.len())?;
    let mut slot = free_slots(alloc, w)?;
    let back = settled_inverse(alloc, f, w, &mut slot, &mut image, &mut left, &mut columns)?;
    Ok(ReducedRows { left, back, image })
}
