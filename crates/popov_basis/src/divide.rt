//! Division with remainder by a standard basis.

ghost use Rattle.std.specs.Prelude.{◌≡◌, ◌≢◌, ◌+◌, ◌-◌, ◌%◌, ◌<◌, ◌≤◌, ℕ, true, [], None, length, replicate, IfOk};
ghost use Rattle.ring_core.specs.Ring.{IsElem};
ghost use Rattle.ring_core.specs.Coeffs.{coeff, are_elems, is_canonical};
ghost use Rattle.linear_algebra.specs.Linear.{row_at, entry};
ghost use Rattle.flat_modules.specs.Flat.{are_flat, lead_at, IsStandard, IsNormal};
ghost use Rattle.popov_basis.specs.steps.Leading.{IsNaming};
ghost use Rattle.popov_basis.specs.steps.Division.{IsTermAdded, IsDividedAt, IsDividedFrom};

use super::clear::name_rows;
use flat_reduce::lists::{empty_rows, free_slots};
use flat_reduce::rows::add_shifted;
use fq_poly::Poly;
use poly_reduce::PolyRow;
use ring_core::lists::{coeff_at, copy_list, single_list, trimmed};
use ring_core::rows::add_scaled;
use ring_core::{E, Field, NoMemory};
use std::alloc::Global;

/// What a flat row leaves over a standard basis: the polynomials by which the basis rows are taken, one for each
/// row, and the rest, without zeros at its end.
#[derive(Drop)]
pub struct FlatNormal<E> {
    pub quotients: PolyRow<E>,
    pub rest: Poly<E>,
}

/// Adds `c` times the power `e` to polynomial `q`.
fn add_term<F: Field>(
    alloc: Global,
    f: &F,
    by: &mut [Poly<E<F>>],
    q: usize,
    e: usize,
    c: E<F>,
) -> Result<(), NoMemory>
    requires by { are_flat (F.ops f.now) by.old ≡ true }
    requires number { q < length by.old }
    requires factor { IsElem (F.ops f.now) c }
    ensures flat { IfOk result (λ _. are_flat (F.ops f.now) by.new ≡ true) }
    ensures added { IfOk result (λ _. IsTermAdded (F.ops f.now) q e c by.old by.new) }
{
    let one = single_list(alloc, f.one())?;
    let row = std::mem::replace(&mut by[q], Poly::from_vec(Vec::new(alloc)));
    let sum = add_shifted(f, row.into_vec(), e, c, &one)?;
    by[q] = Poly::from_vec(sum);
    Ok(())
}

/// Takes the multiple of the row with the lead place of `t` from the rest.
fn divide_at<F: Field>(
    alloc: Global,
    f: &F,
    w: usize,
    slot: &[Option<usize>],
    basis: &[Poly<E<F>>],
    by: &mut [Poly<E<F>>],
    rest: &mut [E<F>],
    t: usize,
) -> Result<(), NoMemory>
    requires width { 1 ≤ w }
    requires rows { are_flat (F.ops f.now) basis.now ≡ true }
    requires naming { IsNaming w (length basis.now) slot.now basis.now }
    requires full { (k : ℕ) → k < length basis.now → 0 < length (row_at basis.now k) }
    requires ones { (k : ℕ) → k < length basis.now → entry (F.ops f.now) basis.now k (lead_at basis.now k) ≡ (F.ops f.now).one }
    requires by { are_flat (F.ops f.now) by.old ≡ true }
    requires same_len { length by.old ≡ length basis.now }
    requires rest { are_elems (F.ops f.now) rest.old ≡ true }
    requires place { t < length rest.old }
    ensures flat { IfOk result (λ _. are_flat (F.ops f.now) by.new ≡ true) }
    ensures elems { IfOk result (λ _. are_elems (F.ops f.now) rest.new ≡ true) }
    ensures divided { IfOk result (λ _. IsDividedAt (F.ops f.now) w t basis.now by.old by.new rest.old rest.new) }
{
    let c = coeff_at(f, rest, t);
    if f.equal(c, f.zero()) {
        return Ok(());
    }
    let Some(q) = slot[t % w] else {
        return Ok(());
    };
    let b = basis[q].len() - 1;
    if b <= t {
        add_term(alloc, f, by, q, (t - b) / w, c)?;
        add_scaled(f, rest, t - b, f.neg(c), basis[q].as_slice());
    }
    Ok(())
}

/// Divides `rest` by the rows, from its top down.
fn divide<F: Field>(
    alloc: Global,
    f: &F,
    w: usize,
    slot: &[Option<usize>],
    basis: &[Poly<E<F>>],
    by: &mut [Poly<E<F>>],
    rest: &mut [E<F>],
) -> Result<(), NoMemory>
    requires width { 1 ≤ w }
    requires rows { are_flat (F.ops f.now) basis.now ≡ true }
    requires naming { IsNaming w (length basis.now) slot.now basis.now }
    requires full { (k : ℕ) → k < length basis.now → 0 < length (row_at basis.now k) }
    requires ones { (k : ℕ) → k < length basis.now → entry (F.ops f.now) basis.now k (lead_at basis.now k) ≡ (F.ops f.now).one }
    requires by { are_flat (F.ops f.now) by.old ≡ true }
    requires same_len { length by.old ≡ length basis.now }
    requires rest { are_elems (F.ops f.now) rest.old ≡ true }
    ensures flat { IfOk result (λ _. are_flat (F.ops f.now) by.new ≡ true) }
    ensures elems { IfOk result (λ _. are_elems (F.ops f.now) rest.new ≡ true) }
    ensures divided { IfOk result (λ _. IsDividedFrom (F.ops f.now) w 0 basis.now by.old by.new rest.old rest.new) }
{
    for t in (0..rest.len()).rev() {
        divide_at(alloc, f, w, slot, basis, by, rest, t)?;
    }
    Ok(())
}

/// The quotients and the rest of `v` by a standard basis.
pub(super) fn normal_rows<F: Field>(
    alloc: Global,
    f: &F,
    w: usize,
    basis: &[Poly<E<F>>],
    v: &[E<F>],
) -> Result<FlatNormal<E<F>>, NoMemory>
    requires width { 1 ≤ w }
    requires rows { are_flat (F.ops f.now) basis.now ≡ true }
    requires basis { IsStandard (F.ops f.now) w basis.now }
    requires row { is_canonical (F.ops f.now) v.now ≡ true }
    ensures { IfOk result (λ n. IsNormal (F.ops f.now) w basis.now v.now n.quotients n.rest) }
{
    let mut slot = free_slots(alloc, w)?;
    name_rows(w, &mut slot, basis);
    let mut by = empty_rows(alloc, f, basis.len())?;
    let mut rest = copy_list(alloc, v)?;
    divide(alloc, f, w, &slot, basis, &mut by, &mut rest)?;
    Ok(FlatNormal {
        quotients: PolyRow::from_vec(by),
        rest: Poly::from_vec(trimmed(f, rest)),
    })
}
