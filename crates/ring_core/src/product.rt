//! The product of lists of coefficients under a twist, lowest first. It goes by rows: the right factor is
//! raised by one step of the twist for each place of the left one, so that lists of `m` and `n` members
//! cost at most `m n` products in the field, and `m` raised rows of `n` members.
ghost use Rattle.std.specs.Prelude.{◌≡◌, ℕ, ◌+◌, ◌<◌, ◌≤◌, IfOk, length, true};
ghost use Rattle.ring_core.specs.Ring.{IsElem};
ghost use Rattle.ring_core.specs.Coeffs.{coeff, are_elems, is_canonical, first_values};
ghost use Rattle.ring_core.specs.Twisted.{product_at, list_mul};
ghost use Rattle.ring_core.specs.Monomial.{constant};

use super::field::E;
use super::lists::{coeff_at, copy_list, scaled_values, trimmed};
use super::memory::NoMemory;
use super::rows::{add_scaled, zero_list};
use super::twisted::TwistedRing;
use std::alloc::Global;

/// Writes the coefficients of the product of `a` and `row` into `out`, which holds zeros, and uses up `row`.
fn add_rows<T: TwistedRing>(
    ring: &T,
    a: &[E<T::Over>],
    out: &mut [E<T::Over>],
    row: &mut [E<T::Over>],
)
    requires room { length a.now + length row.old ≤ length out.old }
    requires left { are_elems (T.Over.ops (T.over ring.now)) a.now ≡ true }
    requires right { are_elems (T.Over.ops (T.over ring.now)) row.old ≡ true }
    requires elems { are_elems (T.Over.ops (T.over ring.now)) out.old ≡ true }
    requires zeros { let r = T.Over.ops (T.over ring.now) in (k : ℕ) → coeff r out.old k ≡ r.zero }
    ensures elems { are_elems (T.Over.ops (T.over ring.now)) out.new ≡ true }
    ensures product { let r = T.Over.ops (T.over ring.now) in
        (k : ℕ) → k < length out.old → coeff r out.new k ≡ product_at r (T.twist ring.now) a.now row.old k }
{
    let field = ring.field();
    for i in 0..a.len() {
        let factor = coeff_at(field, a, i);
        add_scaled(field, out, i, factor, row);
        ring.raise(row);
    }
}

/// The coefficients of the product of `a` and `b` below the sum of the lengths.
fn product_values<T: TwistedRing>(
    alloc: Global,
    ring: &T,
    a: &[E<T::Over>],
    b: &[E<T::Over>],
) -> Result<Vec<E<T::Over>>, NoMemory>
    requires left { are_elems (T.Over.ops (T.over ring.now)) a.now ≡ true }
    requires right { are_elems (T.Over.ops (T.over ring.now)) b.now ≡ true }
    ensures value { IfOk result
        (λ v. v.items
        ≡ first_values (length a.now + length b.now) (product_at (T.Over.ops (T.over ring.now)) (T.twist ring.now) a.now b.now)) }
    ensures elems { IfOk result (λ v. are_elems (T.Over.ops (T.over ring.now)) v.items ≡ true) }
{
    let Some(len) = a.len().checked_add(b.len()) else {
        return Err(NoMemory);
    };
    let mut out = zero_list(alloc, ring.field(), len)?;
    let mut row = copy_list(alloc, b)?;
    add_rows(ring, a, &mut out, &mut row);
    Ok(out)
}

/// The product of `a` and `b`. A length past `usize` is want of memory.
pub fn product_list<T: TwistedRing>(
    alloc: Global,
    ring: &T,
    a: &[E<T::Over>],
    b: &[E<T::Over>],
) -> Result<Vec<E<T::Over>>, NoMemory>
    requires left { are_elems (T.Over.ops (T.over ring.now)) a.now ≡ true }
    requires right { are_elems (T.Over.ops (T.over ring.now)) b.now ≡ true }
    ensures value { IfOk result (λ v. v.items ≡ list_mul (T.Over.ops (T.over ring.now)) (T.twist ring.now) a.now b.now) }
    ensures elem { IfOk result (λ v. is_canonical (T.Over.ops (T.over ring.now)) v.items ≡ true) }
{
    Ok(trimmed(ring.field(), product_values(alloc, ring, a, b)?))
}

/// The product of the constant `c` and the list, which goes by places.
pub fn scaled_list<T: TwistedRing>(
    alloc: Global,
    ring: &T,
    c: E<T::Over>,
    list: &[E<T::Over>],
) -> Result<Vec<E<T::Over>>, NoMemory>
    requires factor { IsElem (T.Over.ops (T.over ring.now)) c }
    requires elems { are_elems (T.Over.ops (T.over ring.now)) list.now ≡ true }
    ensures value { IfOk result
        (λ v. let r = T.Over.ops (T.over ring.now) in v.items ≡ list_mul r (T.twist ring.now) (constant r c) list.now) }
    ensures elem { IfOk result (λ v. is_canonical (T.Over.ops (T.over ring.now)) v.items ≡ true) }
{
    let field = ring.field();
    Ok(trimmed(field, scaled_values(alloc, field, c, list)?))
}
