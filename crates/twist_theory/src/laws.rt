//! What holds over every field with a Frobenius, as contracts over the definitions alone.
ghost use Rattle.std.specs.Prelude.{◌≡◌, ◌≢◌, ◌<◌, ℕ, [], List, length, true};
ghost use Rattle.ring_core.specs.Ring.{IsElem};
ghost use Rattle.ring_core.specs.Coeffs.{coeff, is_canonical};
ghost use Rattle.ring_core.specs.Powers.{value_at};
ghost use Rattle.ring_core.specs.Twisted.{list_mul};

use ring_core::{Field, FrobField};

/// Each power of the Frobenius is onto: every element is the image of one.
pub fn frobenius_is_onto<K: FrobField>()
    ensures { (k : K) (c : K.Elem) (i : ℕ) → let r = K.ops k in IsElem r c → (b : K.Elem) × IsElem r b × ((K.frob_ops k).frob b i ≡ c) }
{}

/// A left factor of two equal products of twisted polynomials cancels where it isn't zero.
pub fn left_factor_cancels<K: FrobField>()
    ensures { (k : K) (a b c : List K.Elem) → let r = K.ops k in let frob = (K.frob_ops k).frob in
        is_canonical r a ≡ true → is_canonical r b ≡ true → is_canonical r c ≡ true → a ≢ [] → list_mul r frob a b ≡ list_mul r frob a c → b ≡ c }
{}

/// A right factor of two equal products of twisted polynomials cancels where it isn't zero.
pub fn right_factor_cancels<K: FrobField>()
    ensures { (k : K) (a b c : List K.Elem) → let r = K.ops k in let frob = (K.frob_ops k).frob in
        is_canonical r a ≡ true → is_canonical r b ≡ true → is_canonical r c ≡ true → c ≢ [] → list_mul r frob a c ≡ list_mul r frob b c → a ≡ b }
{}

/// A polynomial that isn't zero has no more roots than its degree: fewer than it has coefficients.
pub fn few_roots<K: Field>()
    ensures { (k : K) (u : List K.Elem) (c : ℕ → K.Elem) → let r = K.ops k in
        is_canonical r u ≡ true → u ≢ [] → ((j : ℕ) → IsElem r (c j)) → ((i j : ℕ) → i < j → j < length u → c i ≢ c j)
        → ((j : ℕ) → j < length u → value_at r u (c j) ≡ r.zero) → ⊥ }
{}
