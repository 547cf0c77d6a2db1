//! The extended algorithm of Euclid, by left multiples. A step works in place, on the remainder before the last
//! and on its cofactors.
ghost use Rattle.std.specs.Prelude.{◌≡◌, ℕ, ◌+◌, ◌-◌, ◌<◌, ◌≤◌, IfOk, length, true};
ghost use Rattle.ring_core.specs.Ring.{IsElem};
ghost use Rattle.ring_core.specs.Coeffs.{coeff, trim, are_elems, is_canonical};
ghost use Rattle.ore_divide.specs.steps.Links.{IsNextLink, AreLastLinks, IsLastRemainder, IsLastRelation};

use super::lists::divide_list;
use super::rows::reduce_rows;
use super::side::Side;
use ring_core::lists::{copy_list, neg_list, single_list, top_inverse, trimmed};
use ring_core::{E, Field, FrobField, NoMemory};
use std::alloc::Global;

/// A remainder and its cofactors: it is `left a + right b`.
#[derive(Drop)]
pub(crate) struct Link<C> {
    pub(crate) remainder: Vec<C>,
    pub(crate) left: Vec<C>,
    pub(crate) right: Vec<C>,
}

/// Two links that follow each other, of which the second has the remainder zero or a constant.
#[derive(Drop)]
struct LastLinks<C> {
    before: Link<C>,
    after: Link<C>,
}

/// The list with zeros behind it, of `n` members where it had fewer.
fn grown<K: Field>(field: &K, list: Vec<E<K>>, n: usize) -> Result<Vec<E<K>>, NoMemory>
    requires { are_elems (K.ops field.now) list.items ≡ true }
    ensures value { let r = K.ops field.now in IfOk result (λ v. trim r v.items ≡ trim r list.items) }
    ensures elems { IfOk result (λ v. are_elems (K.ops field.now) v.items ≡ true) }
    ensures room { IfOk result (λ v. n ≤ length v.items) }
{
    let mut grown = list;
    for _i in grown.len()..n {
        grown.push(field.zero())?;
    }
    Ok(grown)
}

/// The link after `before` and `after`, whose remainder isn't zero.
fn next_link<K: FrobField>(
    field: &K,
    before: Link<E<K>>,
    after: &Link<E<K>>,
) -> Result<Link<E<K>>, NoMemory>
    requires first { is_canonical (K.ops field.now) before.remainder.items ≡ true }
    requires second { is_canonical (K.ops field.now) after.now.remainder.items ≡ true }
    requires left { is_canonical (K.ops field.now) before.left.items ≡ true }
    requires next_left { is_canonical (K.ops field.now) after.now.left.items ≡ true }
    requires right { is_canonical (K.ops field.now) before.right.items ≡ true }
    requires next_right { is_canonical (K.ops field.now) after.now.right.items ≡ true }
    requires falling { length after.now.remainder.items < length before.remainder.items }
    requires nonzero { 0 < length after.now.remainder.items }
    ensures { IfOk result (λ v. IsNextLink (K.ops field.now) (K.frob_ops field.now).frob
        before.remainder.items after.now.remainder.items before.left.items after.now.left.items before.right.items after.now.right.items
        v.remainder.items v.left.items v.right.items) }
{
    let Some(inverse) = top_inverse(field, &after.remainder) else {
        unreachable!();
    };
    let fall = before.remainder.len() - after.remainder.len();
    let Some(left_room) = after.left.len().checked_add(fall) else {
        return Err(NoMemory);
    };
    let Some(right_room) = after.right.len().checked_add(fall) else {
        return Err(NoMemory);
    };
    let mut rest = before.remainder;
    let mut left = grown(field, before.left, left_room)?;
    let mut right = grown(field, before.right, right_room)?;
    reduce_rows(
        field,
        &mut rest,
        &mut left,
        &mut right,
        &after.remainder,
        &after.left,
        &after.right,
        inverse,
    );
    Ok(Link {
        remainder: trimmed(field, rest),
        left: trimmed(field, left),
        right: trimmed(field, right),
    })
}

/// The links before the end of the algorithm, of which the second has the remainder zero or a constant; `inverse` is
/// that of the top coefficient of `b`.
fn last_links<K: FrobField>(
    alloc: Global,
    field: &K,
    a: &[E<K>],
    b: &[E<K>],
    inverse: E<K>,
) -> Result<LastLinks<E<K>>, NoMemory>
    requires left { is_canonical (K.ops field.now) a.now ≡ true }
    requires right { is_canonical (K.ops field.now) b.now ≡ true }
    requires nonzero { 0 < length b.now }
    requires inverse_in { IsElem (K.ops field.now) inverse }
    requires inverts { let r = K.ops field.now in r.mul (coeff r b.now (length b.now - 1)) inverse ≡ r.one }
    ensures { IfOk result (λ v. AreLastLinks (K.ops field.now) (K.frob_ops field.now).frob a.now b.now
        v.before.remainder.items v.after.remainder.items v.before.left.items v.after.left.items v.before.right.items v.after.right.items) }
{
    let (quotient, remainder) = divide_list(alloc, field, Side::Right, a, b, inverse)?;
    let mut before = Link {
        remainder: copy_list(alloc, b)?,
        left: Vec::new(alloc),
        right: single_list(alloc, field.one())?,
    };
    let mut after = Link {
        remainder,
        left: single_list(alloc, field.one())?,
        right: neg_list(alloc, field, &quotient)?,
    };
    while after.remainder.len() > 1 {
        let next = next_link(field, before, &after)?;
        before = after;
        after = next;
    }
    Ok(LastLinks { before, after })
}

/// The last remainder that isn't zero, with its cofactors. Cofactors of the zero after it aren't computed where it is a
/// constant.
pub(crate) fn last_remainder<K: FrobField>(
    alloc: Global,
    field: &K,
    a: &[E<K>],
    b: &[E<K>],
    inverse: E<K>,
) -> Result<Link<E<K>>, NoMemory>
    requires left { is_canonical (K.ops field.now) a.now ≡ true }
    requires right { is_canonical (K.ops field.now) b.now ≡ true }
    requires nonzero { 0 < length b.now }
    requires inverse_in { IsElem (K.ops field.now) inverse }
    requires inverts { let r = K.ops field.now in r.mul (coeff r b.now (length b.now - 1)) inverse ≡ r.one }
    ensures { IfOk result (λ v. IsLastRemainder (K.ops field.now) (K.frob_ops field.now).frob a.now b.now v.remainder.items v.left.items v.right.items) }
{
    let last = last_links(alloc, field, a, b, inverse)?;
    if last.after.remainder.is_empty() {
        Ok(last.before)
    } else {
        Ok(last.after)
    }
}

/// The link with the remainder zero: its cofactors are the relation of which every other one is a multiple.
pub(crate) fn last_relation<K: FrobField>(
    alloc: Global,
    field: &K,
    a: &[E<K>],
    b: &[E<K>],
    inverse: E<K>,
) -> Result<Link<E<K>>, NoMemory>
    requires left { is_canonical (K.ops field.now) a.now ≡ true }
    requires right { is_canonical (K.ops field.now) b.now ≡ true }
    requires nonzero { 0 < length b.now }
    requires inverse_in { IsElem (K.ops field.now) inverse }
    requires inverts { let r = K.ops field.now in r.mul (coeff r b.now (length b.now - 1)) inverse ≡ r.one }
    ensures { IfOk result (λ v. IsLastRelation (K.ops field.now) (K.frob_ops field.now).frob a.now b.now v.left.items v.right.items) }
{
    let last = last_links(alloc, field, a, b, inverse)?;
    if last.after.remainder.is_empty() {
        Ok(last.after)
    } else {
        Ok(next_link(field, last.before, &last.after)?)
    }
}
