//! Laws of polynomials that have a root in a field over that of their coefficients. Each function's contract is
//! the law, and calls no operation.
ghost use Rattle.std.specs.Prelude.{◌≡◌, List};
ghost use Rattle.ring_core.specs.Ring.{IsElem};
ghost use Rattle.minimal_poly.specs.MinPoly.{IsMinPoly};

use ring_core::FrobField;

/// An element has one polynomial over the base that is monic, has it as a root, and is of least degree.
pub fn one_min_poly<K: FrobField>()
    ensures { (k : K) (c : K.Elem) (a b : List K.Base.Elem) → let r = K.ops k in let base = K.Base.ops (K.base_of k) in let embed = (K.frob_ops k).embed in
        IsElem r c → IsMinPoly r base embed c a → IsMinPoly r base embed c b → a ≡ b }
{}
