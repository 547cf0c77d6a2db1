//! What holds in every finite commutative ring and field. The contract of each function is the law; its
//! body does nothing.
ghost use Rattle.std.specs.Prelude.{◌≡◌, ◌≢◌, ℕ, ◌-◌, ◌<◌, ◌≤◌, Option};
ghost use Rattle.ring_core.specs.Ring.{RingOps, IsElem, IsRing, IsCommutative, IsNumbered};
ghost use Rattle.ring_core.specs.Field.{IsField};
ghost use Rattle.ring_core.specs.Powers.{power_of};
ghost use Rattle.finite_ring.specs.Finite.{HasNoPair, inverse_by_power, root_product};

use ring_core::Field;

/// A commutative ring of `count` elements in which one is not zero and no two nonzero elements multiply
/// to zero is a field, and the inverse of a nonzero element is its power `count - 2`.
pub fn no_pair_gives_field<E>()
    ensures { (r : RingOps E) (count : ℕ) → IsRing r → IsCommutative r → IsNumbered r count → r.one ≢ r.zero → HasNoPair r
        → IsField r (inverse_by_power r count) }
{}

/// In a field of `count` elements the power `count - 1` of each nonzero element is one.
pub fn power_of_nonzero<E>()
    ensures { (r : RingOps E) (inv : E → Option E) (count : ℕ) (c : E) → IsField r inv → IsNumbered r count → IsElem r c → c ≢ r.zero
        → power_of r c (count - 1) ≡ r.one }
{}

/// In a field, `x^q - x` is the product of the `x - c` over any `q` different elements `c` that the power
/// `q` fixes, for `q` from 2. So no more than `q` elements are fixed.
pub fn product_of_fixed<K: Field>()
    ensures { (k : K) (q : ℕ) (c : ℕ → K.Elem) (x : K.Elem) → let r = K.ops k in
        2 ≤ q → ((j : ℕ) → IsElem r (c j)) → ((i j : ℕ) → i < j → j < q → c i ≢ c j)
        → ((j : ℕ) → j < q → power_of r (c j) q ≡ c j) → IsElem r x
        → r.add (power_of r x q) (r.neg x) ≡ root_product r c q x }
{}
