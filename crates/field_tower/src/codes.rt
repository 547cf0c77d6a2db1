//! Codes of residues modulo a polynomial over a prime field, and what is computed of them by their digits.

ghost use Rattle.std.specs.Prelude.{◌≡◌, ◌-◌, ◌^◌, ◌≤◌, ◌<◌, ℕ, IfSome, length, slice_index};
ghost use Rattle.ring_core.specs.Ring.{IsElem};
ghost use Rattle.residue_field.specs.declared.TheConstants.{WIDTH};
ghost use Rattle.residue_field.specs.Prime.{prime_ops};
ghost use Rattle.residue_field.specs.Digits.{digit, number as number_of};
ghost use Rattle.field_tower.specs.declared.size.TheConstants.{CODES};
ghost use Rattle.field_tower.specs.steps.Places.{IsModulus, stored_ops, codes_modulo};
ghost use Rattle.field_tower.specs.steps.Tables.{IsRest};

use super::algebra::Algebra;
use super::prime::PrimeField;
use super::residue_ring::Residues;
use residue_field::{Code, TopElem, WIDTH};

/// The `n` lowest digits of `c` in base `p`, lowest first.
pub(crate) fn digits(p: usize, n: usize, c: usize) -> TopElem
    requires base { 0 < p }
    requires small { p ≤ CODES }
    requires room { n ≤ WIDTH }
    ensures values { (i : ℕ) → i < n → slice_index result.0 i ≡ digit p c i }
    ensures past { (i : ℕ) → n ≤ i → slice_index result.0 i ≡ 0 }
{
    let mut places = [0; WIDTH];
    let mut rest = c;
    for i in 0..n {
        places[i] = (rest % p) as Code;
        rest /= p;
    }
    TopElem(places)
}

/// The number whose `n` lowest digits in base `p` are the places of `a`.
pub(crate) fn number(p: usize, n: usize, a: TopElem) -> Code
    requires small { p ^ n ≤ CODES }
    requires room { n ≤ WIDTH }
    requires digits { (i : ℕ) → slice_index a.0 i < p }
    ensures { result ≡ number_of p n (slice_index a.0) }
{
    let mut c = 0;
    for i in (0..n).rev() {
        c = c * p + a.0[i] as usize;
    }
    c as Code
}

/// The codes of the residues modulo `modulus`: the numbers below `q`, whose digits in base `p` are the coefficients,
/// lowest first.
#[derive(Drop)]
pub(crate) struct Codes<'f> {
    pub(crate) prime: PrimeField,
    pub(crate) modulus: &'f [Code],
    pub(crate) q: usize,
    ghost monic: { IsModulus (prime_ops prime.p) modulus.now },
    ghost count: { q ≡ prime.p ^ (length modulus.now - 1) },
    ghost small: { q ≤ CODES },
}

impl<'f> Codes<'f> {
    /// The residue of the code `a`.
    fn residue(&self, a: usize) -> TopElem
        requires { a < self.now.q }
        ensures elem { IsElem (stored_ops (prime_ops self.now.prime.p) self.now.modulus.now) result }
        ensures digits { (i : ℕ) → slice_index result.0 i ≡ digit self.now.prime.p a i }
    {
        digits(self.prime.p as usize, self.modulus.len() - 1, a)
    }

    /// The code of a residue.
    pub(crate) fn code(&self, a: TopElem) -> Code
        requires { IsElem (stored_ops (prime_ops self.now.prime.p) self.now.modulus.now) a }
        ensures { result ≡ number_of self.now.prime.p (length self.now.modulus.now - 1) (slice_index a.0) }
    {
        number(self.prime.p as usize, self.modulus.len() - 1, a)
    }

    /// The sum of the codes `a` and `b`.
    pub(crate) fn sum(&self, a: usize, b: usize) -> Code
        requires left { a < self.now.q }
        requires right { b < self.now.q }
        ensures { result ≡ (codes_modulo self.now.prime.p self.now.modulus.now).add a b }
    {
        if self.prime.p == 2 {
            return a as Code ^ b as Code;
        }
        let left = self.residue(a);
        let right = self.residue(b);
        let ring = Residues {
            field: &self.prime,
            modulus: self.modulus,
        };
        self.code(ring.add(left, right))
    }

    /// The negative of the code `a`.
    pub(crate) fn negative(&self, a: usize) -> Code
        requires { a < self.now.q }
        ensures { result ≡ (codes_modulo self.now.prime.p self.now.modulus.now).neg a }
    {
        let residue = self.residue(a);
        let ring = Residues {
            field: &self.prime,
            modulus: self.modulus,
        };
        self.code(ring.neg(residue))
    }

    /// The product of the codes `a` and `b`.
    pub(crate) fn product(&self, a: usize, b: usize) -> Code
        requires left { a < self.now.q }
        requires right { b < self.now.q }
        ensures { result ≡ (codes_modulo self.now.prime.p self.now.modulus.now).mul a b }
    {
        let left = self.residue(a);
        let right = self.residue(b);
        let ring = Residues {
            field: &self.prime,
            modulus: self.modulus,
        };
        self.code(ring.mul(left, right))
    }

    /// The place of the top digit of `a`, where `place` is that of the number before; that it is so serves speed alone.
    pub(crate) fn top_place(&self, place: usize, a: usize) -> usize {
        if place.saturating_mul(self.prime.p as usize) == a {
            a
        } else {
            place
        }
    }

    /// The code whose sum with the code `place` is `a`, if both are below `a`. Where `place` is that of the top digit of `a`, None comes for
    /// no other `a` than zero and `place`; that it is so serves speed alone.
    pub(crate) fn without_place(&self, a: usize, place: usize) -> Option<usize>
        requires { a < self.now.q }
        ensures { IfSome result (IsRest (codes_modulo self.now.prime.p self.now.modulus.now) a place) }
    {
        let rest = a.saturating_sub(place);
        if place < a && rest < a {
            let sum = self.sum(rest, place);
            if sum as usize == a {
                return Some(rest);
            }
        }
        None
    }
}
