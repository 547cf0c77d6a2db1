//! Laws of the twisted product, as contracts over its definition alone.
ghost use Rattle.std.specs.Prelude.{◌≡◌, List, true};
ghost use Rattle.ring_core.specs.Ring.{IsElem};
ghost use Rattle.ring_core.specs.Coeffs.{is_canonical};
ghost use Rattle.ring_core.specs.Twisted.{list_mul};
ghost use Rattle.ring_core.specs.Monomial.{constant, tau_power};
ghost use Rattle.ore_poly.specs.ProductLaws.{TwistedProductLaws};

use ring_core::{Field, FrobField};

/// Over every field with a Frobenius the twisted product is associative, has the unit one on both
/// sides and both distributive laws, and the degrees of nonzero factors add.
pub fn twisted_product<K: FrobField>()
    ensures { (k : K) → TwistedProductLaws (K.ops k) (K.frob_ops k).frob }
{}

/// The power of tau by the degree of the field over its base commutes with every twisted polynomial.
pub fn tau_degree_central<K: FrobField>()
    ensures { (k : K) (u : List K.Elem) → let r = K.ops k in let f = K.frob_ops k in is_canonical r u ≡ true
        → list_mul r f.frob (tau_power r f.degree) u ≡ list_mul r f.frob u (tau_power r f.degree) }
{}

/// A constant of the base commutes with every twisted polynomial.
pub fn base_central<K: FrobField>()
    ensures { (k : K) (b : K.Base.Elem) (u : List K.Elem) → let r = K.ops k in let f = K.frob_ops k in
        IsElem (K.Base.ops (K.base_of k)) b → is_canonical r u ≡ true
        → list_mul r f.frob (constant r (f.embed b)) u ≡ list_mul r f.frob u (constant r (f.embed b)) }
{}
