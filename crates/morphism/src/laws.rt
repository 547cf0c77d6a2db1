//! Laws of homomorphisms. Each function's contract is the law, and calls no operation.
ghost use Rattle.std.specs.Prelude.{◌≡◌, ◌≢◌, ℕ, ◌<◌, ◌≤◌, [], List, length, true};
ghost use Rattle.ring_core.specs.Ring.{IsElem};
ghost use Rattle.ring_core.specs.Coeffs.{is_canonical};
ghost use Rattle.ring_core.specs.Powers.{power_of};
ghost use Rattle.ring_core.specs.Twisted.{list_add, list_mul};
ghost use Rattle.ring_core.specs.Monomial.{tau_power};
ghost use Rattle.drinfeld_mod.specs.Module.{IsModule, rank_of};
ghost use Rattle.drinfeld_mod.specs.Image.{image};
ghost use Rattle.drinfeld_mod.specs.Invariant.{IsInvariant};
ghost use Rattle.morphism.specs.Homomorphism.{IsHomomorphism};

use ring_core::FrobField;

/// Homomorphisms between two modules may be added, and multiplied on the left by polynomials over the base in the
/// power of tau by the degree of the field, and on the right by images of polynomials over the base. A product of
/// two homomorphisms whose modules meet is one.
pub fn homomorphisms<K: FrobField>()
    ensures sum { (k : K) (phi psi u v : List K.Elem) → let r = K.ops k in let frob = (K.frob_ops k).frob in
        IsModule r phi → IsModule r psi → IsHomomorphism r frob phi psi u → IsHomomorphism r frob phi psi v → IsHomomorphism r frob phi psi (list_add r u v) }
    ensures central { (k : K) (phi psi u : List K.Elem) (c : List K.Base.Elem) → let r = K.ops k in let base = K.Base.ops (K.base_of k) in let f = K.frob_ops k in
        IsModule r phi → IsModule r psi → is_canonical base c ≡ true → IsHomomorphism r f.frob phi psi u
        → IsHomomorphism r f.frob phi psi (list_mul r f.frob (image r base f (tau_power r f.degree) c) u) }
    ensures image { (k : K) (phi psi u : List K.Elem) (a : List K.Base.Elem) → let r = K.ops k in let base = K.Base.ops (K.base_of k) in let f = K.frob_ops k in
        IsModule r phi → IsModule r psi → is_canonical base a ≡ true → IsHomomorphism r f.frob phi psi u
        → IsHomomorphism r f.frob phi psi (list_mul r f.frob u (image r base f phi a)) }
    ensures product { (k : K) (phi psi chi u v : List K.Elem) → let r = K.ops k in let frob = (K.frob_ops k).frob in
        IsModule r phi → IsModule r psi → IsModule r chi → IsHomomorphism r frob phi psi u → IsHomomorphism r frob psi chi v
        → IsHomomorphism r frob phi chi (list_mul r frob v u) }
{}

/// Modules between which there is a homomorphism that isn't zero have the same rank.
pub fn equal_ranks<K: FrobField>()
    ensures { (k : K) (phi psi u : List K.Elem) → let r = K.ops k in let frob = (K.frob_ops k).frob in
        IsModule r phi → IsModule r psi → IsHomomorphism r frob phi psi u → u ≢ [] → rank_of phi ≡ rank_of psi }
{}

/// Modules between which a constant is an isomorphism have the same invariants.
pub fn equal_invariants<K: FrobField>()
    ensures { (k : K) (q : ℕ) (phi psi u : List K.Elem) (i : ℕ) (x : K.Elem) → let r = K.ops k in let frob = (K.frob_ops k).frob in
        2 ≤ q → ((c : K.Elem) → IsElem r c → frob c 1 ≡ power_of r c q) → IsModule r phi → IsModule r psi → IsHomomorphism r frob phi psi u → length u ≡ 1
        → 0 < i → i < rank_of phi → IsInvariant r q phi i x → IsInvariant r q psi i x }
{}
