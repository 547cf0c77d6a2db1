//! Terms added in place, and the steps of a division, over slices.
ghost use Rattle.std.specs.Prelude.{◌≡◌, ℕ, ◌+◌, ◌-◌, ◌<◌, ◌≤◌, length, true};
ghost use Rattle.ring_core.specs.Ring.{IsElem};
ghost use Rattle.ring_core.specs.Coeffs.{coeff, trim, are_elems, is_canonical};
ghost use Rattle.ring_core.specs.Twisted.{list_add};
ghost use Rattle.ore_divide.specs.steps.Reduced.{IsReduced};
ghost use Rattle.ore_divide.specs.steps.Sides.{multiple_on, term_on};

use super::side::Side;
use ring_core::lists::coeff_at;
use ring_core::{E, Field, FrobField};

/// The coefficient `k + j` of the multiple of `row` by `c tau^k`.
fn term_at<K: FrobField>(field: &K, side: Side, c: E<K>, k: usize, row: &[E<K>], j: usize) -> E<K>
    requires factor { IsElem (K.ops field.now) c }
    requires row { are_elems (K.ops field.now) row.now ≡ true }
    ensures value { result ≡ term_on side (K.ops field.now) (K.frob_ops field.now).frob c k row.now j }
    ensures elem { IsElem (K.ops field.now) result }
{
    let member = coeff_at(field, row, j);
    match side {
        Side::Right => field.mul(c, field.frob(member, k)),
        Side::Left => field.mul(member, field.frob(c, j)),
    }
}

/// Adds the multiple of `row` by `c tau^k` to `out`. Makes no product where `c` is zero.
fn add_multiple<K: FrobField>(
    field: &K,
    side: Side,
    out: &mut [E<K>],
    k: usize,
    c: E<K>,
    row: &[E<K>],
)
    requires room { k + length row.now ≤ length out.old }
    requires out { are_elems (K.ops field.now) out.old ≡ true }
    requires factor { IsElem (K.ops field.now) c }
    requires row { are_elems (K.ops field.now) row.now ≡ true }
    ensures elems { are_elems (K.ops field.now) out.new ≡ true }
    ensures below { let r = K.ops field.now in (n : ℕ) → n < k → coeff r out.new n ≡ coeff r out.old n }
    ensures added { let r = K.ops field.now in
        (j : ℕ) → coeff r out.new (k + j) ≡ r.add (coeff r out.old (k + j)) (term_on side r (K.frob_ops field.now).frob c k row.now j) }
{
    if field.equal(c, field.zero()) {
        return;
    }
    for j in 0..row.len() {
        let old = coeff_at(field, out, k + j);
        let sum = field.add(old, term_at(field, side, c, k, row, j));
        out[k + j] = sum;
    }
}

/// The factor `c` for which the multiple of `b` by `c tau^k` takes `top` away at the top place. `inverse` is that
/// of the top coefficient of `b`. On the left it is a root of the Frobenius.
fn clearing_factor<K: FrobField>(
    field: &K,
    side: Side,
    top: E<K>,
    k: usize,
    b: &[E<K>],
    inverse: E<K>,
) -> E<K>
    requires top { IsElem (K.ops field.now) top }
    requires divisor { are_elems (K.ops field.now) b.now ≡ true }
    requires nonzero { 0 < length b.now }
    requires inverse_in { IsElem (K.ops field.now) inverse }
    requires inverts { let r = K.ops field.now in r.mul (coeff r b.now (length b.now - 1)) inverse ≡ r.one }
    ensures elem { IsElem (K.ops field.now) result }
    ensures clears { let r = K.ops field.now in
        r.add top (term_on side r (K.frob_ops field.now).frob result k b.now (length b.now - 1)) ≡ r.zero }
{
    match side {
        Side::Right => {
            let raised = field.frob(inverse, k);
            let product = field.mul(top, raised);
            field.neg(product)
        }
        Side::Left => {
            let product = field.mul(inverse, top);
            let minus = field.neg(product);
            field.frob(minus, steps_back(field, b.len() - 1))
        }
    }
}

/// Clears the place of `rest` that is `k` above the top of `b`, by the multiple of `b` by `c tau^k` that is added,
/// and gives `c`. `inverse` is that of the top coefficient of `b`. The place itself is known to be zero then:
/// so there are no more products than `b` has coefficients, and no more steps of the Frobenius.
fn clear_place<K: FrobField>(
    field: &K,
    side: Side,
    rest: &mut [E<K>],
    k: usize,
    b: &[E<K>],
    inverse: E<K>,
) -> E<K>
    requires divisor { are_elems (K.ops field.now) b.now ≡ true }
    requires nonzero { 0 < length b.now }
    requires inverse_in { IsElem (K.ops field.now) inverse }
    requires inverts { let r = K.ops field.now in r.mul (coeff r b.now (length b.now - 1)) inverse ≡ r.one }
    requires rest { are_elems (K.ops field.now) rest.old ≡ true }
    requires room { k + length b.now ≤ length rest.old }
    ensures elem { IsElem (K.ops field.now) result }
    ensures elems { are_elems (K.ops field.now) rest.new ≡ true }
    ensures below { let r = K.ops field.now in (n : ℕ) → n < k → coeff r rest.new n ≡ coeff r rest.old n }
    ensures added { let r = K.ops field.now in
        (j : ℕ) → coeff r rest.new (k + j) ≡ r.add (coeff r rest.old (k + j)) (term_on side r (K.frob_ops field.now).frob result k b.now j) }
    ensures cleared { let r = K.ops field.now in coeff r rest.new (k + (length b.now - 1)) ≡ r.zero }
{
    let above = b.len() - 1;
    let top = coeff_at(field, rest, k + above);
    let factor = clearing_factor(field, side, top, k, b, inverse);
    add_multiple(field, side, rest, k, factor, &b[..above]);
    rest[k + above] = field.zero();
    factor
}

/// Clears the places of `rest` from the top down, by multiples of `b`, until fewer coefficients than those of `b`
/// may differ from zero, and writes the factor of what was taken away into `quotient`, which holds zeros.
/// `inverse` is that of the top coefficient of `b`.
pub(crate) fn clear_places<K: FrobField>(
    field: &K,
    side: Side,
    rest: &mut [E<K>],
    quotient: &mut [E<K>],
    b: &[E<K>],
    inverse: E<K>,
)
    requires divisor { is_canonical (K.ops field.now) b.now ≡ true }
    requires nonzero { 0 < length b.now }
    requires inverse_in { IsElem (K.ops field.now) inverse }
    requires inverts { let r = K.ops field.now in r.mul (coeff r b.now (length b.now - 1)) inverse ≡ r.one }
    requires rest { are_elems (K.ops field.now) rest.old ≡ true }
    requires quotient { are_elems (K.ops field.now) quotient.old ≡ true }
    requires zeros { let r = K.ops field.now in (n : ℕ) → coeff r quotient.old n ≡ r.zero }
    requires room { length rest.old < length quotient.old + length b.now }
    ensures rest { are_elems (K.ops field.now) rest.new ≡ true }
    ensures quotient { are_elems (K.ops field.now) quotient.new ≡ true }
    ensures divided { let r = K.ops field.now in
        trim r rest.old ≡ list_add r (trim r rest.new) (multiple_on side r (K.frob_ops field.now).frob (trim r quotient.new) b.now) }
    ensures cleared { let r = K.ops field.now in (n : ℕ) → length b.now ≤ n + 1 → coeff r rest.new n ≡ r.zero }
{
    let above = b.len() - 1;
    for k in (0..rest.len().saturating_sub(above)).rev() {
        let factor = clear_place(field, side, rest, k, b, inverse);
        quotient[k] = field.neg(factor);
    }
}

/// Clears the places of `rest` as a division by `b` on the right does, and takes the same left multiples of `s`
/// from `left`, and of `w` from `right`. `inverse` is that of the top coefficient of `b`.
pub(crate) fn reduce_rows<K: FrobField>(
    field: &K,
    rest: &mut [E<K>],
    left: &mut [E<K>],
    right: &mut [E<K>],
    b: &[E<K>],
    s: &[E<K>],
    w: &[E<K>],
    inverse: E<K>,
)
    requires divisor { is_canonical (K.ops field.now) b.now ≡ true }
    requires nonzero { 0 < length b.now }
    requires left_partner { is_canonical (K.ops field.now) s.now ≡ true }
    requires right_partner { is_canonical (K.ops field.now) w.now ≡ true }
    requires inverse_in { IsElem (K.ops field.now) inverse }
    requires inverts { let r = K.ops field.now in r.mul (coeff r b.now (length b.now - 1)) inverse ≡ r.one }
    requires rest { are_elems (K.ops field.now) rest.old ≡ true }
    requires left { are_elems (K.ops field.now) left.old ≡ true }
    requires right { are_elems (K.ops field.now) right.old ≡ true }
    requires left_room { length rest.old + length s.now ≤ length left.old + length b.now }
    requires right_room { length rest.old + length w.now ≤ length right.old + length b.now }
    ensures rest { are_elems (K.ops field.now) rest.new ≡ true }
    ensures left { are_elems (K.ops field.now) left.new ≡ true }
    ensures right { are_elems (K.ops field.now) right.new ≡ true }
    ensures reduced { IsReduced (K.ops field.now) (K.frob_ops field.now).frob
        rest.old left.old right.old b.now s.now w.now rest.new left.new right.new }
    ensures cleared { let r = K.ops field.now in (n : ℕ) → length b.now ≤ n + 1 → coeff r rest.new n ≡ r.zero }
{
    let above = b.len() - 1;
    for k in (0..rest.len().saturating_sub(above)).rev() {
        let factor = clear_place(field, Side::Right, rest, k, b, inverse);
        add_multiple(field, Side::Right, left, k, factor, s);
        add_multiple(field, Side::Right, right, k, factor, w);
    }
}

/// How many steps of the Frobenius undo `i` steps.
fn steps_back<K: FrobField>(field: &K, i: usize) -> usize
    ensures { let r = K.ops field.now in let f = K.frob_ops field.now in (c : K.Elem) → IsElem r c → f.frob (f.frob c result) i ≡ c }
{
    let n = field.degree();
    n - i % n
}
