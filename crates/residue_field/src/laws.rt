//! What the definitions mean, as contracts of functions that compute nothing.
ghost use Rattle.std.specs.Prelude.{◌≡◌, ℕ, suc, ◌+◌, ◌-◌, ◌^◌, ◌≤◌, ◌↔◌, List, length, true};
ghost use Rattle.ring_core.specs.Coeffs.{coeff, are_elems};
ghost use Rattle.finite_ring.specs.Finite.{HasNoPair};
ghost use Rattle.residue_field.specs.Sizes.{most_places};
ghost use Rattle.residue_field.specs.Residue.{residue, constant_at, IsRemainder, HasFieldPowers};
ghost use Rattle.residue_field.specs.Prime.{is_listed, prime_ops};
ghost use Rattle.ring_core.specs.Ring.{IsNumbered};
ghost use Rattle.residue_field.specs.Base.{Base, ops_of, size_of};
ghost use Rattle.residue_field.specs.TopElem.{top_places};
ghost use Rattle.residue_field.specs.Top.{Top, top_ops, ops_of_top};

use ring_core::Field;

/// The residue of the polynomial `a` modulo a monic polynomial, both lowest coefficient first, is its
/// remainder: `a` is the sum of a multiple of the modulus and the residue, which has no coefficient
/// past the degree of the modulus, and there is no other such remainder.
pub fn residue_is_remainder<F: Field>(field: &F, modulus: &[F::Elem], a: &[F::Elem])
    requires degree { 2 ≤ length modulus.now }
    requires modulus { are_elems (F.ops field.now) modulus.now ≡ true }
    requires monic { coeff (F.ops field.now) modulus.now (length modulus.now - 1) ≡ (F.ops field.now).one }
    requires elems { are_elems (F.ops field.now) a.now ≡ true }
    ensures is { let r = F.ops field.now in let n = length modulus.now - 2 in let f = coeff r modulus.now in
        IsRemainder r n f (coeff r a.now) (residue r n f (length a.now) (coeff r a.now)) }
    ensures only { (v : ℕ → F.Elem) → let r = F.ops field.now in let n = length modulus.now - 2 in let f = coeff r modulus.now in
        IsRemainder r n f (coeff r a.now) v → (i : ℕ) → v i ≡ residue r n f (length a.now) (coeff r a.now) i }
{}

/// Modulo a listed prime no two nonzero numbers multiply to zero.
pub fn listed_is_prime(p: u32)
    requires { is_listed p ≡ true }
    ensures { HasNoPair (prime_ops p) }
{}

/// Residues modulo a monic polynomial of degree `n + 1`, up to the greatest degree, over a base field of `q` elements
/// have no two nonzero elements that multiply to zero exactly where only zero has the power `q` zero, and
/// only constants have the power `q` that they are.
pub fn powers_tell_fields()
    ensures { (base : Base) (n : ℕ) (modulus : List ℕ) → let r = ops_of base in
        suc n ≤ most_places → are_elems r modulus ≡ true → length modulus ≡ suc n + 1 → coeff r modulus (suc n) ≡ r.one
        → HasNoPair (top_ops base n modulus) ↔ HasFieldPowers r (top_ops base n modulus) (λ b. (top_places r n).pack (constant_at r b)) (size_of base) }
{}

/// The elements of a base field are counted: there are `p^s`.
pub fn base_is_numbered()
    ensures { (k : Base) → IsNumbered (ops_of k) (size_of k) }
{}

/// The elements of a top field are counted: there are `q^n`, where the base has `q` and the degree is `n`.
pub fn top_is_numbered()
    ensures { (t : Top) → IsNumbered (ops_of_top t) (size_of t.base ^ t.n) }
{}
