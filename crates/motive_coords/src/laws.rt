//! Laws of motive coordinates and of coordinates over the polynomials in T. Each function's contract is the law,
//! and calls no operation.
ghost use Rattle.std.specs.Prelude.{◌≡◌, ℕ, List, length, true};
ghost use Rattle.ring_core.specs.Ring.{IsElem};
ghost use Rattle.ring_core.specs.Coeffs.{coeff, are_elems, is_canonical};
ghost use Rattle.ring_core.specs.Twisted.{list_add, list_mul};
ghost use Rattle.ring_core.specs.Monomial.{constant};
ghost use Rattle.fq_poly.specs.Poly.{poly_ops, poly_mul, letter};
ghost use Rattle.drinfeld_mod.specs.Module.{IsModule, rank_of};
ghost use Rattle.drinfeld_mod.specs.Image.{image};
ghost use Rattle.motive_coords.specs.Motive.{motive_value, IsMotive};
ghost use Rattle.motive_coords.specs.OverT.{IsOverT};

use ring_core::FrobField;

/// Each twisted polynomial has exactly one list of motive coordinates, and each list of as many polynomials as the
/// rank is that of exactly one.
pub fn one_motive<K: FrobField>()
    ensures exists { (k : K) (phi u : List K.Elem) → let r = K.ops k in let frob = (K.frob_ops k).frob in
        IsModule r phi → is_canonical r u ≡ true → (list : List (List K.Elem)) × IsMotive r frob phi u list }
    ensures only { (k : K) (phi u : List K.Elem) (x y : List (List K.Elem)) → let r = K.ops k in let frob = (K.frob_ops k).frob in
        IsModule r phi → is_canonical r u ≡ true → IsMotive r frob phi u x → IsMotive r frob phi u y → x ≡ y }
    ensures back { (k : K) (phi : List K.Elem) (list : List (List K.Elem)) → let r = K.ops k in let frob = (K.frob_ops k).frob in
        IsModule r phi → length list ≡ rank_of phi → are_elems (poly_ops r) list ≡ true
        → is_canonical r (motive_value r frob phi list) ≡ true × IsMotive r frob phi (motive_value r frob phi list) list }
{}

/// The motive coordinates are additive, linear over the field, and multiplied by the letter where the twisted
/// polynomial is multiplied by the image of T on the right.
pub fn motive_acts<K: FrobField>()
    ensures sum { (k : K) (phi u v : List K.Elem) (x y z : List (List K.Elem)) → let r = K.ops k in let frob = (K.frob_ops k).frob in
        IsModule r phi → is_canonical r u ≡ true → is_canonical r v ≡ true → IsMotive r frob phi u x → IsMotive r frob phi v y → IsMotive r frob phi (list_add r u v) z
        → (i : ℕ) → coeff (poly_ops r) z i ≡ list_add r (coeff (poly_ops r) x i) (coeff (poly_ops r) y i) }
    ensures scaled { (k : K) (phi u : List K.Elem) (c : K.Elem) (x z : List (List K.Elem)) → let r = K.ops k in let frob = (K.frob_ops k).frob in
        IsModule r phi → is_canonical r u ≡ true → IsElem r c → IsMotive r frob phi u x → IsMotive r frob phi (list_mul r frob (constant r c) u) z
        → (i : ℕ) → coeff (poly_ops r) z i ≡ poly_mul r (constant r c) (coeff (poly_ops r) x i) }
    ensures letter { (k : K) (phi u : List K.Elem) (x z : List (List K.Elem)) → let r = K.ops k in let frob = (K.frob_ops k).frob in
        IsModule r phi → is_canonical r u ≡ true → IsMotive r frob phi u x → IsMotive r frob phi (list_mul r frob u phi) z
        → (i : ℕ) → coeff (poly_ops r) z i ≡ poly_mul r (letter r) (coeff (poly_ops r) x i) }
{}

/// A twisted polynomial has one list of coordinates over the polynomials in T, and no other has the same. They are
/// additive, linear over the base, and multiplied by `a` where the twisted polynomial is multiplied by the image of
/// `a` on the right, so by the letter at the image of T.
pub fn over_t_acts<K: FrobField>()
    ensures only { (k : K) (phi u : List K.Elem) (x y : List (List K.Base.Elem)) → let r = K.ops k in let base = K.Base.ops (K.base_of k) in let f = K.frob_ops k in
        IsModule r phi → is_canonical r u ≡ true → IsOverT r base f phi u x → IsOverT r base f phi u y → x ≡ y }
    ensures back { (k : K) (phi u v : List K.Elem) (x : List (List K.Base.Elem)) → let r = K.ops k in let base = K.Base.ops (K.base_of k) in let f = K.frob_ops k in
        IsModule r phi → is_canonical r u ≡ true → is_canonical r v ≡ true → IsOverT r base f phi u x → IsOverT r base f phi v x → u ≡ v }
    ensures sum { (k : K) (phi u v : List K.Elem) (x y z : List (List K.Base.Elem)) → let r = K.ops k in let base = K.Base.ops (K.base_of k) in let f = K.frob_ops k in
        IsModule r phi → is_canonical r u ≡ true → is_canonical r v ≡ true → IsOverT r base f phi u x → IsOverT r base f phi v y → IsOverT r base f phi (list_add r u v) z
        → (q : ℕ) → coeff (poly_ops base) z q ≡ list_add base (coeff (poly_ops base) x q) (coeff (poly_ops base) y q) }
    ensures scaled { (k : K) (phi u : List K.Elem) (c : K.Base.Elem) (x z : List (List K.Base.Elem)) → let r = K.ops k in let base = K.Base.ops (K.base_of k) in let f = K.frob_ops k in
        IsModule r phi → is_canonical r u ≡ true → IsElem base c → IsOverT r base f phi u x → IsOverT r base f phi (list_mul r f.frob (constant r (f.embed c)) u) z
        → (q : ℕ) → coeff (poly_ops base) z q ≡ poly_mul base (constant base c) (coeff (poly_ops base) x q) }
    ensures image { (k : K) (phi u : List K.Elem) (a : List K.Base.Elem) (x z : List (List K.Base.Elem)) → let r = K.ops k in let base = K.Base.ops (K.base_of k) in let f = K.frob_ops k in
        IsModule r phi → is_canonical r u ≡ true → is_canonical base a ≡ true → IsOverT r base f phi u x → IsOverT r base f phi (list_mul r f.frob u (image r base f phi a)) z
        → (q : ℕ) → coeff (poly_ops base) z q ≡ poly_mul base a (coeff (poly_ops base) x q) }
    ensures letter { (k : K) (phi u : List K.Elem) (x z : List (List K.Base.Elem)) → let r = K.ops k in let base = K.Base.ops (K.base_of k) in let f = K.frob_ops k in
        IsModule r phi → is_canonical r u ≡ true → IsOverT r base f phi u x → IsOverT r base f phi (list_mul r f.frob u phi) z
        → (q : ℕ) → coeff (poly_ops base) z q ≡ poly_mul base (letter base) (coeff (poly_ops base) x q) }
{}
