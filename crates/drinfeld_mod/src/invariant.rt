//! The invariants of a module. Their exponents pass every machine word, so their powers are made as products of
//! images under the Frobenius.
ghost use Rattle.std.specs.Prelude.{◌≡◌, ◌↔◌, ◌⊎◌, ◌<◌, ◌≤◌, IsTrue, MatchOption};
ghost use Rattle.ring_core.specs.Ring.{IsElem};
ghost use Rattle.ring_core.specs.Powers.{power_of};
ghost use Rattle.drinfeld_mod.specs.Module.{IsModule, rank_of};
ghost use Rattle.drinfeld_mod.specs.Invariant.{Divides, IsGreatestCommonDivisor, IsInvariant};
ghost use Rattle.drinfeld_mod.specs.steps.FrobProduct.{frob_product};

use super::module::Module;
use ring_core::lists::coeff_at;
use ring_core::{E, Field, FrobField};

/// Whether `e` divides both numbers.
fn divides_both(e: usize, k: usize, n: usize) -> bool
    requires { 0 < e }
    ensures { IsTrue result ↔ (Divides e k × Divides e n) }
{
    k % e == 0 && n % e == 0
}

/// The greatest common divisor of `k` and `n`.
fn greatest_common_divisor(k: usize, n: usize) -> usize
    requires { 0 < k }
    ensures divisor { IsGreatestCommonDivisor result k n }
    ensures positive { 0 < result }
{
    for i in (0..k).rev() {
        if divides_both(i + 1, k, n) {
            return i + 1;
        }
    }
    // one divides both
    unreachable!()
}

/// The product of the images of `c` under `step * i` powers of the Frobenius, over `i` below `count`.
fn frobenius_product<K: FrobField>(field: &K, c: E<K>, step: usize, count: usize) -> E<K>
    requires { IsElem (K.ops field.now) c }
    ensures value { result ≡ frob_product (K.ops field.now) (K.frob_ops field.now).frob c step count }
    ensures elem { IsElem (K.ops field.now) result }
{
    let mut product = field.one();
    let mut image = c;
    for _i in 0..count {
        product = field.mul(product, image);
        image = field.frob(image, step);
    }
    product
}

/// The invariant `j_i` of a module `z, g_1, .., g_r` over a base of `q` elements: the power of `g_i` by
/// `(q^r - 1) / (q^e - 1)`, divided by the power of `g_r` by `(q^i - 1) / (q^e - 1)`, where `e` is the greatest
/// common divisor of `i` and `r` (the SageMath reference manual, chapter Drinfeld modules). None exactly where `i`
/// isn't a number from 1 to `r - 1`. Takes no memory.
pub fn j<K: FrobField>(field: &K, q: u32, phi: &Module<E<K>>, i: usize) -> Option<E<K>>
    requires module { IsModule (K.ops field.now) phi.now }
    requires size { 2 ≤ q }
    requires power { (c : K.Elem) → IsElem (K.ops field.now) c → (K.frob_ops field.now).frob c 1 ≡ power_of (K.ops field.now) c q }
    ensures { MatchOption result ((i ≡ 0) ⊎ (rank_of phi.now ≤ i))
        (λ x. (0 < i) × (i < rank_of phi.now) × IsInvariant (K.ops field.now) q phi.now i x) }
{
    let rank = phi.rank();
    if i == 0 || i >= rank {
        return None;
    }
    let e = greatest_common_divisor(i, rank);
    let member = coeff_at(field, phi.as_slice(), i);
    let last = coeff_at(field, phi.as_slice(), rank);
    let top = frobenius_product(field, member, e, rank / e);
    let bottom = frobenius_product(field, last, e, i / e);
    let Some(inverse) = field.inv(bottom) else {
        // the last coefficient isn't zero, and no product of its images is
        unreachable!()
    };
    Some(field.mul(top, inverse))
}
