//! Laws of the coordinates over the polynomials in `tau^n`. Each function's contract is the law, and calls no operation.
ghost use Rattle.std.specs.Prelude.{◌≡◌, ◌*◌, List, true};
ghost use Rattle.ring_core.specs.Ring.{IsElem};
ghost use Rattle.ring_core.specs.Coeffs.{is_canonical, first_values};
ghost use Rattle.ring_core.specs.Twisted.{list_add, list_mul};
ghost use Rattle.ring_core.specs.Monomial.{constant, tau_power};
ghost use Rattle.linear_algebra.specs.Linear.{row_at};
ghost use Rattle.fq_poly.specs.Poly.{poly_mul, letter};
ghost use Rattle.central_coords.specs.Central.{AreCentralCoordinates};

use ring_core::FrobField;

/// A twisted polynomial has one list of polynomials, and a list belongs to one twisted polynomial.
pub fn one_to_one<K: FrobField>()
    ensures list { (k : K) (u : List K.Elem) (a b : List (List K.Base.Elem)) → let r = K.ops k in let base = K.Base.ops (K.base_of k) in let f = K.frob_ops k in
        AreCentralCoordinates r base f u a → AreCentralCoordinates r base f u b → a ≡ b }
    ensures polynomial { (k : K) (u v : List K.Elem) (a : List (List K.Base.Elem)) → let r = K.ops k in let base = K.Base.ops (K.base_of k) in let f = K.frob_ops k in
        is_canonical r u ≡ true → is_canonical r v ≡ true → AreCentralCoordinates r base f u a → AreCentralCoordinates r base f v a → u ≡ v }
{}

/// The polynomials are linear in the twisted polynomial, over the polynomials in `tau^n`: those of a sum are the sums,
/// those of a product with a constant of the base are the products with it, and those of a product with `tau^n` are the
/// products with the letter.
pub fn linear<K: FrobField>()
    ensures sum { (k : K) (u v : List K.Elem) (a b : List (List K.Base.Elem)) → let r = K.ops k in let base = K.Base.ops (K.base_of k) in let f = K.frob_ops k in
        is_canonical r u ≡ true → is_canonical r v ≡ true → AreCentralCoordinates r base f u a → AreCentralCoordinates r base f v b
        → AreCentralCoordinates r base f (list_add r u v) (first_values (f.degree * f.degree) (λ p. list_add base (row_at a p) (row_at b p))) }
    ensures constant { (k : K) (c : K.Base.Elem) (u : List K.Elem) (a : List (List K.Base.Elem)) → let r = K.ops k in let base = K.Base.ops (K.base_of k) in let f = K.frob_ops k in
        IsElem base c → is_canonical r u ≡ true → AreCentralCoordinates r base f u a
        → AreCentralCoordinates r base f (list_mul r f.frob (constant r (f.embed c)) u) (first_values (f.degree * f.degree) (λ p. poly_mul base (constant base c) (row_at a p))) }
    ensures letter { (k : K) (u : List K.Elem) (a : List (List K.Base.Elem)) → let r = K.ops k in let base = K.Base.ops (K.base_of k) in let f = K.frob_ops k in
        is_canonical r u ≡ true → AreCentralCoordinates r base f u a
        → AreCentralCoordinates r base f (list_mul r f.frob (tau_power r f.degree) u) (first_values (f.degree * f.degree) (λ p. poly_mul base (letter base) (row_at a p))) }
{}
