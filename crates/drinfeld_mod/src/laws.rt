//! Laws of the images, the height and the invariants of modules. Each function's contract is the law, and calls
//! no operation.
ghost use Rattle.std.specs.Prelude.{◌≡◌, ◌≢◌, ℕ, ◌+◌, ◌-◌, ◌*◌, ◌≤◌, [], List, length, true};
ghost use Rattle.ring_core.specs.Coeffs.{is_canonical};
ghost use Rattle.ring_core.specs.Twisted.{list_add, list_mul};
ghost use Rattle.fq_poly.specs.Poly.{poly_mul};
ghost use Rattle.drinfeld_mod.specs.Module.{IsModule, rank_of};
ghost use Rattle.drinfeld_mod.specs.Image.{image};
ghost use Rattle.drinfeld_mod.specs.Height.{IsCharacteristic, IsHeight};
ghost use Rattle.drinfeld_mod.specs.Invariant.{IsInvariant};

use ring_core::FrobField;

/// The image of a sum is the sum of the images, and that of a product is the product.
pub fn images_act<K: FrobField>()
    ensures sum { (k : K) (phi : List K.Elem) (a b : List K.Base.Elem) → let r = K.ops k in let base = K.Base.ops (K.base_of k) in let f = K.frob_ops k in
        IsModule r phi → is_canonical base a ≡ true → is_canonical base b ≡ true
        → image r base f phi (list_add base a b) ≡ list_add r (image r base f phi a) (image r base f phi b) }
    ensures product { (k : K) (phi : List K.Elem) (a b : List K.Base.Elem) → let r = K.ops k in let base = K.Base.ops (K.base_of k) in let f = K.frob_ops k in
        IsModule r phi → is_canonical base a ≡ true → is_canonical base b ≡ true
        → image r base f phi (poly_mul base a b) ≡ list_mul r f.frob (image r base f phi a) (image r base f phi b) }
{}

/// The degree of the image of a polynomial that isn't zero is the rank times the degree of the polynomial.
pub fn image_degree<K: FrobField>()
    ensures { (k : K) (phi : List K.Elem) (a : List K.Base.Elem) → let r = K.ops k in let base = K.Base.ops (K.base_of k) in let f = K.frob_ops k in
        IsModule r phi → is_canonical base a ≡ true → a ≢ [] → length (image r base f phi a) ≡ rank_of phi * (length a - 1) + 1 }
{}

/// Each module has a height, which is at least one and at most the rank.
pub fn height_exists<K: FrobField>()
    ensures { (k : K) (phi : List K.Elem) → let r = K.ops k in let base = K.Base.ops (K.base_of k) in let f = K.frob_ops k in
        IsModule r phi → (h : ℕ) × IsHeight r base f phi h × (1 ≤ h) × (h ≤ rank_of phi) }
{}

/// A module has one characteristic and one height.
pub fn one_height<K: FrobField>()
    ensures characteristic { (k : K) (phi : List K.Elem) (a b : List K.Base.Elem) → let r = K.ops k in let base = K.Base.ops (K.base_of k) in let f = K.frob_ops k in
        IsModule r phi → IsCharacteristic r base f phi a → IsCharacteristic r base f phi b → a ≡ b }
    ensures height { (k : K) (phi : List K.Elem) (g h : ℕ) → let r = K.ops k in let base = K.Base.ops (K.base_of k) in let f = K.frob_ops k in
        IsModule r phi → IsHeight r base f phi g → IsHeight r base f phi h → g ≡ h }
{}

/// A module has at most one invariant of each number.
pub fn one_invariant<K: FrobField>()
    ensures { (k : K) (q : ℕ) (phi : List K.Elem) (i : ℕ) (x y : K.Elem) → let r = K.ops k in
        2 ≤ q → IsModule r phi → IsInvariant r q phi i x → IsInvariant r q phi i y → x ≡ y }
{}
