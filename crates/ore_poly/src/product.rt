//! The product of twisted polynomials, as lists of their coefficients. It goes by rows, as the product of
//! `ring_core` does; but since the Frobenius of a field of degree `n` is back where it was after `n` steps,
//! no more than `n` raised rows differ, and each of them is made once.
ghost use Rattle.std.specs.Prelude.{◌≡◌, ℕ, ◌+◌, ◌*◌, ◌%◌, ◌<◌, ◌≤◌, IfOk, length, min, true};
ghost use Rattle.ring_core.specs.Ring.{IsElem};
ghost use Rattle.ring_core.specs.Coeffs.{coeff, are_elems, is_canonical, first_values};
ghost use Rattle.ring_core.specs.Twisted.{product_at, list_mul};
ghost use Rattle.ore_poly.specs.steps.Raised.{AreRaised};

use ring_core::lists::{coeff_at, trimmed};
use ring_core::rows::{add_scaled, zero_list};
use ring_core::{E, Field, FrobField, NoMemory};
use std::alloc::Global;

/// The member that comes next after `rows`: one of `b`, or the one that stands a row before, raised by one step.
fn next_raised<K: FrobField>(field: &K, b: &[E<K>], rows: &[E<K>]) -> E<K>
    requires row { are_elems (K.ops field.now) b.now ≡ true }
    requires elems { are_elems (K.ops field.now) rows.now ≡ true }
    requires raised { AreRaised (K.ops field.now) (K.frob_ops field.now).frob b.now rows.now }
    ensures value { let r = K.ops field.now in
        (j k : ℕ) → k < length b.now → j * length b.now + k ≡ length rows.now
        → result ≡ (K.frob_ops field.now).frob (coeff r b.now k) j }
    ensures elem { IsElem (K.ops field.now) result }
{
    let t = rows.len();
    if t < b.len() {
        coeff_at(field, b, t)
    } else {
        let before = coeff_at(field, rows, t - b.len());
        field.frob(before, 1)
    }
}

/// The first `total` members of the rows that are `b` raised by no step, one step, two steps and so on.
fn raised_rows<K: FrobField>(
    alloc: Global,
    field: &K,
    b: &[E<K>],
    total: usize,
) -> Result<Vec<E<K>>, NoMemory>
    requires { are_elems (K.ops field.now) b.now ≡ true }
    ensures len { IfOk result (λ v. length v.items ≡ total) }
    ensures elems { IfOk result (λ v. are_elems (K.ops field.now) v.items ≡ true) }
    ensures raised { IfOk result (λ v. AreRaised (K.ops field.now) (K.frob_ops field.now).frob b.now v.items) }
{
    let mut rows = Vec::with_capacity(alloc, total)?;
    for t in 0..total {
        let member = next_raised(field, b, &rows);
        rows.push(member)?;
    }
    Ok(rows)
}

/// The row that is `b` raised by `i` steps, found among the rows that differ.
fn raised_row<'r, K: FrobField>(field: &K, b: &[E<K>], rows: &'r [E<K>], i: usize) -> &'r [E<K>]
    requires row { are_elems (K.ops field.now) b.now ≡ true }
    requires elems { are_elems (K.ops field.now) rows.now ≡ true }
    requires raised { AreRaised (K.ops field.now) (K.frob_ops field.now).frob b.now rows.now }
    requires room { i % (K.frob_ops field.now).degree * length b.now + length b.now ≤ length rows.now }
    ensures len { length result.now ≡ length b.now }
    ensures elems { are_elems (K.ops field.now) result.now ≡ true }
    ensures raised { let r = K.ops field.now in
        (k : ℕ) → coeff r result.now k ≡ (K.frob_ops field.now).frob (coeff r b.now k) i }
{
    let start = i % field.degree() * b.len();
    &rows[start..start + b.len()]
}

/// Writes the coefficients of the product of `a` and `b` into `out`, which holds zeros.
fn add_raised<K: FrobField>(field: &K, a: &[E<K>], b: &[E<K>], rows: &[E<K>], out: &mut [E<K>])
    requires room { length a.now + length b.now ≤ length out.old }
    requires left { are_elems (K.ops field.now) a.now ≡ true }
    requires right { are_elems (K.ops field.now) b.now ≡ true }
    requires rows { are_elems (K.ops field.now) rows.now ≡ true }
    requires rows_len { length rows.now ≡ min (K.frob_ops field.now).degree (length a.now) * length b.now }
    requires raised { AreRaised (K.ops field.now) (K.frob_ops field.now).frob b.now rows.now }
    requires elems { are_elems (K.ops field.now) out.old ≡ true }
    requires zeros { let r = K.ops field.now in (k : ℕ) → coeff r out.old k ≡ r.zero }
    ensures elems { are_elems (K.ops field.now) out.new ≡ true }
    ensures product { let r = K.ops field.now in
        (k : ℕ) → k < length out.old → coeff r out.new k ≡ product_at r (K.frob_ops field.now).frob a.now b.now k }
{
    for i in 0..a.len() {
        let factor = coeff_at(field, a, i);
        let row = raised_row(field, b, rows, i);
        add_scaled(field, out, i, factor, row);
    }
}

/// The coefficients of the product of `a` and `b` below the sum of the lengths.
fn product_values<K: FrobField>(
    alloc: Global,
    field: &K,
    a: &[E<K>],
    b: &[E<K>],
) -> Result<Vec<E<K>>, NoMemory>
    requires left { are_elems (K.ops field.now) a.now ≡ true }
    requires right { are_elems (K.ops field.now) b.now ≡ true }
    ensures value { IfOk result
        (λ v. v.items
        ≡ first_values (length a.now + length b.now) (product_at (K.ops field.now) (K.frob_ops field.now).frob a.now b.now)) }
    ensures elems { IfOk result (λ v. are_elems (K.ops field.now) v.items ≡ true) }
{
    let Some(len) = a.len().checked_add(b.len()) else {
        return Err(NoMemory);
    };
    let Some(total) = field.degree().min(a.len()).checked_mul(b.len()) else {
        return Err(NoMemory);
    };
    let mut out = zero_list(alloc, field, len)?;
    let rows = raised_rows(alloc, field, b, total)?;
    add_raised(field, a, b, &rows, &mut out);
    Ok(out)
}

/// The product of `a` and `b`. Lists of `m` and `l` members over a field of degree `n` cost at most `m l`
/// products in the field, a step of the Frobenius for each member of `min(n, m) - 1` rows of `l`, and memory
/// for `min(n, m) l` elements beside the product. A count of members past `usize` is want of memory.
pub fn twisted_product<K: FrobField>(
    alloc: Global,
    field: &K,
    a: &[E<K>],
    b: &[E<K>],
) -> Result<Vec<E<K>>, NoMemory>
    requires left { are_elems (K.ops field.now) a.now ≡ true }
    requires right { are_elems (K.ops field.now) b.now ≡ true }
    ensures value { IfOk result (λ v. v.items ≡ list_mul (K.ops field.now) (K.frob_ops field.now).frob a.now b.now) }
    ensures elem { IfOk result (λ v. is_canonical (K.ops field.now) v.items ≡ true) }
{
    Ok(trimmed(field, product_values(alloc, field, a, b)?))
}
