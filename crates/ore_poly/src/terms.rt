//! What goes by single terms of a twisted polynomial, over slices.
ghost use Rattle.std.specs.Prelude.{◌≡◌, ℕ, ◌+◌, ◌-◌, IfOk, MatchOption, [], if◌then◌else◌, length, nat_lt, true};
ghost use Rattle.ring_core.specs.Ring.{IsElem};
ghost use Rattle.ring_core.specs.Coeffs.{coeff, are_elems, is_canonical, first_values};
ghost use Rattle.ring_core.specs.Twisted.{list_mul};
ghost use Rattle.ring_core.specs.Monomial.{tau_power};
ghost use Rattle.ore_poly.specs.Terms.{IsLowest, applied_at};

use ring_core::lists::{coeff_at, trimmed};
use ring_core::{E, Field, FrobField, NoMemory};
use std::alloc::Global;

/// The place of the lowest member that isn't zero; None exactly for the zero polynomial.
pub fn lowest_place<K: Field>(field: &K, list: &[E<K>]) -> Option<usize>
    requires { is_canonical (K.ops field.now) list.now ≡ true }
    ensures { MatchOption result (list.now ≡ []) (IsLowest (K.ops field.now) list.now) }
{
    for i in 0..list.len() {
        let member = coeff_at(field, list, i);
        let zero = field.zero();
        if !field.equal(member, zero) {
            return Some(i);
        }
    }
    None
}

/// Raises each member to its power by `q`.
pub fn raise_row<K: FrobField>(field: &K, row: &mut [E<K>])
    requires { are_elems (K.ops field.now) row.old ≡ true }
    ensures elems { are_elems (K.ops field.now) row.new ≡ true }
    ensures raised { let r = K.ops field.now in
        (k : ℕ) → coeff r row.new k ≡ (K.frob_ops field.now).frob (coeff r row.old k) 1 }
{
    for j in 0..row.len() {
        let member = coeff_at(field, row, j);
        let power = field.frob(member, 1);
        row[j] = power;
    }
}

/// The coefficient at `j` of `tau^k` times the list.
fn shifted_at<K: FrobField>(field: &K, list: &[E<K>], k: usize, j: usize) -> E<K>
    requires { are_elems (K.ops field.now) list.now ≡ true }
    ensures value { let r = K.ops field.now in
        result ≡ (if nat_lt j k then r.zero else (K.frob_ops field.now).frob (coeff r list.now (j - k)) k) }
    ensures elem { IsElem (K.ops field.now) result }
{
    if j < k {
        field.zero()
    } else {
        let member = coeff_at(field, list, j - k);
        field.frob(member, k)
    }
}

/// The coefficients of `tau^k` times the list. A length past `usize` is want of memory.
fn shifted_values<K: FrobField>(
    alloc: Global,
    field: &K,
    list: &[E<K>],
    k: usize,
) -> Result<Vec<E<K>>, NoMemory>
    requires { are_elems (K.ops field.now) list.now ≡ true }
    ensures value { IfOk result
        (λ v. let r = K.ops field.now in v.items
        ≡ first_values (k + length list.now) (λ j. if nat_lt j k then r.zero else (K.frob_ops field.now).frob (coeff r list.now (j - k)) k)) }
    ensures elems { IfOk result (λ v. are_elems (K.ops field.now) v.items ≡ true) }
{
    let Some(len) = k.checked_add(list.len()) else {
        return Err(NoMemory);
    };
    let mut values = Vec::new(alloc);
    for j in 0..len {
        let member = shifted_at(field, list, k, j);
        values.push(member)?;
    }
    Ok(values)
}

/// The product of `tau^k` and the list. A length past `usize` is want of memory.
pub fn shifted_list<K: FrobField>(
    alloc: Global,
    field: &K,
    list: &[E<K>],
    k: usize,
) -> Result<Vec<E<K>>, NoMemory>
    requires { are_elems (K.ops field.now) list.now ≡ true }
    ensures value { IfOk result
        (λ v. let r = K.ops field.now in v.items ≡ list_mul r (K.frob_ops field.now).frob (tau_power r k) list.now) }
    ensures elem { IfOk result (λ v. is_canonical (K.ops field.now) v.items ≡ true) }
{
    if list.is_empty() {
        return Ok(Vec::new(alloc));
    }
    Ok(trimmed(field, shifted_values(alloc, field, list, k)?))
}

/// The sum of `list[i] x^(q^i)`. Takes no memory.
pub fn apply_list<K: FrobField>(field: &K, list: &[E<K>], x: E<K>) -> E<K>
    requires elems { are_elems (K.ops field.now) list.now ≡ true }
    requires point { IsElem (K.ops field.now) x }
    ensures value { result ≡ applied_at (K.ops field.now) (K.frob_ops field.now).frob list.now x }
    ensures elem { IsElem (K.ops field.now) result }
{
    let mut sum = field.zero();
    let mut power = x;
    for i in 0..list.len() {
        let member = coeff_at(field, list, i);
        let term = field.mul(member, power);
        sum = field.add(sum, term);
        power = field.frob(power, 1);
    }
    sum
}
