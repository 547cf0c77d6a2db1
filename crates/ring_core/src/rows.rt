//! Lists of elements of a field that are written in place, as a product made row by row does.
ghost use Rattle.std.specs.Prelude.{◌≡◌, ℕ, ◌+◌, ◌<◌, ◌≤◌, ◌↔◌, IfOk, IsTrue, OnOk, length, true};
ghost use Rattle.ring_core.specs.Ring.{IsElem};
ghost use Rattle.ring_core.specs.Coeffs.{coeff, trim, are_elems, first_values};

use super::field::{E, Field};
use super::lists::coeff_at;
use super::memory::NoMemory;
use std::alloc::Global;

/// The list of `n` zeros.
pub fn zero_list<K: Field>(alloc: Global, field: &K, n: usize) -> Result<Vec<E<K>>, NoMemory>
    ensures value { IfOk result (λ v. v.items ≡ first_values n (λ i. (K.ops field.now).zero)) }
    ensures elems { IfOk result (λ v. are_elems (K.ops field.now) v.items ≡ true) }
{
    let mut zeros = Vec::with_capacity(alloc, n)?;
    for i in 0..n {
        let zero = field.zero();
        zeros.push(zero)?;
    }
    Ok(zeros)
}

/// Puts zeros at the end of the list until it has `n` members. Where memory is refused, some of them may stand there.
pub fn extend<K: Field>(field: &K, list: &mut Vec<E<K>>, n: usize) -> Result<(), NoMemory>
    requires { are_elems (K.ops field.now) list.old.items ≡ true }
    ensures elems { are_elems (K.ops field.now) list.new.items ≡ true }
    ensures room { OnOk result (n ≤ length list.new.items) }
    ensures coeffs { let r = K.ops field.now in (k : ℕ) → coeff r list.new.items k ≡ coeff r list.old.items k }
    ensures trimmed { let r = K.ops field.now in trim r list.new.items ≡ trim r list.old.items }
{
    for i in list.len()..n {
        let zero = field.zero();
        list.push(zero)?;
    }
    Ok(())
}

/// Adds `c` times `row` to `out`, from the place `i` on: `c row[k]` to `out[i + k]`. Does nothing where `c` is
/// zero, and else what the field's `add_row` does.
pub fn add_scaled<K: Field>(field: &K, out: &mut [E<K>], i: usize, c: E<K>, row: &[E<K>])
    requires room { i + length row.now ≤ length out.old }
    requires out { are_elems (K.ops field.now) out.old ≡ true }
    requires factor { IsElem (K.ops field.now) c }
    requires row { are_elems (K.ops field.now) row.now ≡ true }
    ensures elems { are_elems (K.ops field.now) out.new ≡ true }
    ensures below { let r = K.ops field.now in (k : ℕ) → k < i → coeff r out.new k ≡ coeff r out.old k }
    ensures added { let r = K.ops field.now in
        (k : ℕ) → coeff r out.new (i + k) ≡ r.add (coeff r out.old (i + k)) (r.mul c (coeff r row.now k)) }
{
    let zero = field.zero();
    if field.equal(c, zero) {
        return;
    }
    field.add_row(out, i, c, row);
}

/// Whether all members from the place `n` on are zero.
pub fn is_zero_from<K: Field>(field: &K, n: usize, row: &[E<K>]) -> bool
    requires { are_elems (K.ops field.now) row.now ≡ true }
    ensures { let r = K.ops field.now in IsTrue result ↔ ((k : ℕ) → n ≤ k → coeff r row.now k ≡ r.zero) }
{
    for k in n..row.len() {
        let member = coeff_at(field, row, k);
        let zero = field.zero();
        if !field.equal(member, zero) {
            return false;
        }
    }
    true
}
