//! Lists of elements of a field as polynomials, lowest coefficient first: what polynomials in a
//! letter that commutes with its coefficients and twisted polynomials share.
ghost use Rattle.std.specs.Prelude.{◌≡◌, [], ◌∷◌, ◌-◌, ◌<◌, ◌≤◌, IfOk, MatchOption, length, max, take, true};
ghost use Rattle.ring_core.specs.Ring.{IsElem};
ghost use Rattle.ring_core.specs.Coeffs.{coeff, trim, are_elems, is_canonical, same_lists, first_values};
ghost use Rattle.ring_core.specs.Twisted.{list_add, list_neg};

use super::field::{E, Field};
use super::memory::NoMemory;
use std::alloc::Global;

/// The coefficient at `i`, lowest first, and zero past the end of the list.
pub fn coeff_at<K: Field>(field: &K, list: &[E<K>], i: usize) -> E<K>
    requires { are_elems (K.ops field.now) list.now ≡ true }
    ensures value { result ≡ coeff (K.ops field.now) list.now i }
    ensures elem { IsElem (K.ops field.now) result }
{
    if i < list.len() {
        list[i]
    } else {
        field.zero()
    }
}

/// How many members the list has without the zeros at its top.
pub fn trimmed_len<K: Field>(field: &K, list: &[E<K>]) -> usize
    requires { are_elems (K.ops field.now) list.now ≡ true }
    ensures value { result ≡ length (trim (K.ops field.now) list.now) }
    ensures kept { take result list.now ≡ trim (K.ops field.now) list.now }
{
    for i in (0..list.len()).rev() {
        let top = coeff_at(field, list, i);
        let zero = field.zero();
        if !field.equal(top, zero) {
            return i + 1;
        }
    }
    0
}

/// The list without the zeros at its top. Takes no memory.
pub fn trimmed<K: Field>(field: &K, list: Vec<E<K>>) -> Vec<E<K>>
    requires { are_elems (K.ops field.now) list.items ≡ true }
    ensures value { result.items ≡ trim (K.ops field.now) list.items }
    ensures elem { is_canonical (K.ops field.now) result.items ≡ true }
{
    let mut kept = list;
    let n = trimmed_len(field, &kept);
    kept.truncate(n);
    kept
}

/// A copy of the list.
pub fn copy_list<C: Copy>(alloc: Global, list: &[C]) -> Result<Vec<C>, NoMemory>
    ensures { IfOk result (λ v. v.items ≡ list.now) }
{
    Ok(Vec::from_slice(alloc, list)?)
}

/// The list with the one member `c`.
pub fn single_list<C: Copy>(alloc: Global, c: C) -> Result<Vec<C>, NoMemory>
    ensures { IfOk result (λ v. v.items ≡ c ∷ []) }
{
    let mut list = Vec::new(alloc);
    list.push(c)?;
    Ok(list)
}

/// The sums of the coefficients at each place of the longer list.
fn sum_values<K: Field>(
    alloc: Global,
    field: &K,
    a: &[E<K>],
    b: &[E<K>],
) -> Result<Vec<E<K>>, NoMemory>
    requires left { are_elems (K.ops field.now) a.now ≡ true }
    requires right { are_elems (K.ops field.now) b.now ≡ true }
    ensures value { IfOk result
        (λ v. let r = K.ops field.now in v.items
        ≡ first_values (max (length a.now) (length b.now)) (λ i. r.add (coeff r a.now i) (coeff r b.now i))) }
    ensures elems { IfOk result (λ v. are_elems (K.ops field.now) v.items ≡ true) }
{
    let mut sums = Vec::new(alloc);
    for i in 0..a.len().max(b.len()) {
        let left = coeff_at(field, a, i);
        let right = coeff_at(field, b, i);
        let sum = field.add(left, right);
        sums.push(sum)?;
    }
    Ok(sums)
}

/// The sum of two polynomials.
pub fn sum_list<K: Field>(
    alloc: Global,
    field: &K,
    a: &[E<K>],
    b: &[E<K>],
) -> Result<Vec<E<K>>, NoMemory>
    requires left { are_elems (K.ops field.now) a.now ≡ true }
    requires right { are_elems (K.ops field.now) b.now ≡ true }
    ensures value { IfOk result (λ v. v.items ≡ list_add (K.ops field.now) a.now b.now) }
    ensures elem { IfOk result (λ v. is_canonical (K.ops field.now) v.items ≡ true) }
{
    Ok(trimmed(field, sum_values(alloc, field, a, b)?))
}

/// The negatives of the coefficients, place by place.
pub fn neg_values<K: Field>(alloc: Global, field: &K, list: &[E<K>]) -> Result<Vec<E<K>>, NoMemory>
    requires { are_elems (K.ops field.now) list.now ≡ true }
    ensures value { IfOk result
        (λ v. let r = K.ops field.now in v.items ≡ first_values (length list.now) (λ i. r.neg (coeff r list.now i))) }
    ensures elems { IfOk result (λ v. are_elems (K.ops field.now) v.items ≡ true) }
{
    let mut negatives = Vec::new(alloc);
    for i in 0..list.len() {
        let coeff = coeff_at(field, list, i);
        let negative = field.neg(coeff);
        negatives.push(negative)?;
    }
    Ok(negatives)
}

/// The negative of a polynomial.
pub fn neg_list<K: Field>(alloc: Global, field: &K, list: &[E<K>]) -> Result<Vec<E<K>>, NoMemory>
    requires { are_elems (K.ops field.now) list.now ≡ true }
    ensures value { IfOk result (λ v. v.items ≡ list_neg (K.ops field.now) list.now) }
    ensures elem { IfOk result (λ v. is_canonical (K.ops field.now) v.items ≡ true) }
{
    Ok(trimmed(field, neg_values(alloc, field, list)?))
}

/// Each member times `c`, from the left.
pub fn scaled_values<K: Field>(
    alloc: Global,
    field: &K,
    c: E<K>,
    list: &[E<K>],
) -> Result<Vec<E<K>>, NoMemory>
    requires factor { IsElem (K.ops field.now) c }
    requires elems { are_elems (K.ops field.now) list.now ≡ true }
    ensures value { IfOk result
        (λ v. let r = K.ops field.now in v.items ≡ first_values (length list.now) (λ i. r.mul c (coeff r list.now i))) }
    ensures elems { IfOk result (λ v. are_elems (K.ops field.now) v.items ≡ true) }
{
    let mut values = Vec::new(alloc);
    for i in 0..list.len() {
        let member = coeff_at(field, list, i);
        let product = field.mul(c, member);
        values.push(product)?;
    }
    Ok(values)
}

/// The inverse of the top coefficient of a polynomial; None exactly for the zero polynomial.
pub fn top_inverse<K: Field>(field: &K, list: &[E<K>]) -> Option<E<K>>
    requires { is_canonical (K.ops field.now) list.now ≡ true }
    ensures { let r = K.ops field.now in
        MatchOption result (list.now ≡ [])
        (λ c. (0 < length list.now) × IsElem r c × (r.mul (coeff r list.now (length list.now - 1)) c ≡ r.one)) }
{
    let Some(last) = list.len().checked_sub(1) else {
        return None;
    };
    let top = coeff_at(field, list, last);
    field.inv(top)
}

/// Whether each member of the list is an element of the field.
pub fn all_elems<K: Field>(field: &K, list: &[E<K>]) -> bool
    ensures { result ≡ are_elems (K.ops field.now) list.now }
{
    for c in list {
        if !field.is_elem(*c) {
            return false;
        }
    }
    true
}

/// Whether the list is a polynomial: elements of the field, with no zero at the top.
pub fn are_canonical<K: Field>(field: &K, list: &[E<K>]) -> bool
    ensures { result ≡ is_canonical (K.ops field.now) list.now }
{
    all_elems(field, list) && trimmed_len(field, list) == list.len()
}

/// Whether the two lists are equal.
pub fn equal_lists<K: Field>(field: &K, a: &[E<K>], b: &[E<K>]) -> bool
    requires left { are_elems (K.ops field.now) a.now ≡ true }
    requires right { are_elems (K.ops field.now) b.now ≡ true }
    ensures { result ≡ same_lists (K.ops field.now) a.now b.now }
{
    if a.len() != b.len() {
        return false;
    }
    for i in 0..a.len() {
        let left = coeff_at(field, a, i);
        let right = coeff_at(field, b, i);
        if !field.equal(left, right) {
            return false;
        }
    }
    true
}
