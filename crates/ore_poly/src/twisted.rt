ghost use Rattle.std.specs.Prelude.{◌≡◌, [], List, IfOk, MatchOption, length, slice_get, true};
ghost use Rattle.ring_core.specs.Coeffs.{trim, are_elems, is_canonical};
ghost use Rattle.ring_core.specs.Ring.{IsElem};
ghost use Rattle.ring_core.specs.Twisted.{list_mul, twisted_ops};
ghost use Rattle.ring_core.specs.Monomial.{constant, tau_power};
ghost use Rattle.ring_core.proofs.ListRing.{frob_ring};
ghost use Rattle.ring_core.proofs.Twist.{frob_twist};
ghost use Rattle.ring_core.specs.Degrees.{degree_of};
ghost use Rattle.ore_poly.specs.Terms.{IsLowest, applied_at};

use super::product::twisted_product;
use super::terms::{apply_list, lowest_place, raise_row, shifted_list};
use ring_core::lists::{
    are_canonical, copy_list, equal_lists, neg_list, single_list, sum_list, trimmed,
};
use ring_core::product::scaled_list;
use ring_core::{E, Field, FrobField, NoMemory, Ring, TwistedRing};
use std::alloc::Global;
use std::marker::Model;

/// A twisted polynomial, which contracts see as the list of its coefficients, lowest first. It is an
/// element of an `OreRing` where no zero stands at the top.
#[derive(Drop)]
pub struct Ore<C> {
    coeffs: Vec<C>,
}

impl<C> Model for Ore<C> {
    ghost Value = { List C };

    ghost view = { λ u. u.coeffs.items };
}

impl<C: Copy> Ore<C> {
    /// The twisted polynomial with these coefficients, lowest first, as they stand. Takes no memory.
    pub fn from_vec(coeffs: Vec<C>) -> Ore<C>
        ensures { result ≡ coeffs.items }
    {
        Ore { coeffs }
    }

    /// The coefficients, lowest first. Takes no memory.
    pub fn into_vec(self) -> Vec<C>
        ensures { result.items ≡ self }
    {
        let Ore { coeffs } = self;
        coeffs
    }

    /// The coefficients, lowest first.
    pub fn as_slice(&self) -> &[C]
        ensures { result.now ≡ self.now }
    {
        &self.coeffs
    }

    /// How many coefficients there are, from the lowest power to the highest.
    pub fn len(&self) -> usize
        ensures { result ≡ length self.now }
    {
        self.coeffs.len()
    }

    /// The highest power of tau; None exactly at zero.
    pub fn degree(&self) -> Option<usize>
        ensures { result ≡ degree_of self.now }
    {
        self.coeffs.len().checked_sub(1)
    }

    /// The coefficient at `tau^i`; None exactly past the end.
    pub fn at(&self, i: usize) -> Option<C>
        ensures { result ≡ slice_get self.now i }
    {
        self.coeffs.get(i).copied()
    }
}

/// The ring of twisted polynomials over a field, which contracts see as that field.
#[derive(Drop)]
pub struct OreRing<'k, K: FrobField> {
    field: &'k K,
}

impl<'k, K: FrobField> Model for OreRing<'k, K> {
    ghost Value = { K };

    ghost view = { λ r. r.field.now };
}

impl<'k, K: FrobField> OreRing<'k, K> {
    /// The twisted polynomials over `field`. Takes no memory.
    pub fn new(field: &'k K) -> OreRing<'k, K>
        ensures { result ≡ field.now }
    {
        OreRing { field }
    }

    /// The twisted polynomial with these coefficients, lowest first, without the zeros at the top.
    pub fn make(&self, alloc: Global, list: &[E<K>]) -> Result<Ore<E<K>>, NoMemory>
        requires { are_elems (K.ops self.now) list.now ≡ true }
        ensures value { IfOk result (λ v. v ≡ trim (K.ops self.now) list.now) }
        ensures elem { IfOk result (λ v. is_canonical (K.ops self.now) v ≡ true) }
    {
        let coeffs = trimmed(self.field, copy_list(alloc, list)?);
        Ok(Ore { coeffs })
    }

    /// The lowest power of tau whose coefficient isn't zero; None exactly at zero. Takes no memory.
    pub fn lowest(&self, u: &Ore<E<K>>) -> Option<usize>
        requires { is_canonical (K.ops self.now) u.now ≡ true }
        ensures { MatchOption result (u.now ≡ []) (IsLowest (K.ops self.now) u.now) }
    {
        lowest_place(self.field, &u.coeffs)
    }

    /// The product of the constant `c` and `u`, which goes by places.
    pub fn scale(&self, alloc: Global, c: E<K>, u: &Ore<E<K>>) -> Result<Ore<E<K>>, NoMemory>
        requires factor { IsElem (K.ops self.now) c }
        requires elem { is_canonical (K.ops self.now) u.now ≡ true }
        ensures value { IfOk result
            (λ v. let r = K.ops self.now in v ≡ list_mul r (K.frob_ops self.now).frob (constant r c) u.now) }
        ensures elem { IfOk result (λ v. is_canonical (K.ops self.now) v ≡ true) }
    {
        let coeffs = scaled_list(alloc, self, c, &u.coeffs)?;
        Ok(Ore { coeffs })
    }

    /// The product of `tau^k` and `u`. A length past `usize` is want of memory.
    pub fn tau_shift(&self, alloc: Global, u: &Ore<E<K>>, k: usize) -> Result<Ore<E<K>>, NoMemory>
        requires { is_canonical (K.ops self.now) u.now ≡ true }
        ensures value { IfOk result
            (λ v. let r = K.ops self.now in v ≡ list_mul r (K.frob_ops self.now).frob (tau_power r k) u.now) }
        ensures elem { IfOk result (λ v. is_canonical (K.ops self.now) v ≡ true) }
    {
        let coeffs = shifted_list(alloc, self.field, &u.coeffs, k)?;
        Ok(Ore { coeffs })
    }

    /// The value at `x` of `u` as an additive polynomial, the sum of `u_i x^(q^i)`. Takes no memory.
    pub fn apply(&self, u: &Ore<E<K>>, x: E<K>) -> E<K>
        requires elem { is_canonical (K.ops self.now) u.now ≡ true }
        requires point { IsElem (K.ops self.now) x }
        ensures value { result ≡ applied_at (K.ops self.now) (K.frob_ops self.now).frob u.now x }
        ensures elem { IsElem (K.ops self.now) result }
    {
        apply_list(self.field, &u.coeffs, x)
    }
}

impl<'k, K: FrobField> TwistedRing for OreRing<'k, K> {
    type Over = K;

    ghost over = { λ k. k };

    ghost twist = { λ k. (K.frob_ops k).frob };

    fn field(&self) -> &K {
        self.field
    }

    fn raise(&self, row: &mut [E<K>]) {
        raise_row(self.field, row);
    }

    ghost twist_laws = { λ k. frob_twist (K.ops k) (K.inv_of k) (K.Base.ops (K.base_of k)) (K.frob_ops k) (K.laws k) (K.frob_laws k) };
}

impl<'k, K: FrobField> Ring for OreRing<'k, K> {
    type Elem = Ore<E<K>>;

    ghost ops = { λ k. twisted_ops (K.ops k) (K.frob_ops k).frob };

    fn is_elem(&self, a: &Ore<E<K>>) -> bool {
        are_canonical(self.field, &a.coeffs)
    }

    fn zero(&self, alloc: Global) -> Result<Ore<E<K>>, NoMemory> {
        Ok(Ore {
            coeffs: Vec::new(alloc),
        })
    }

    fn one(&self, alloc: Global) -> Result<Ore<E<K>>, NoMemory> {
        let coeffs = single_list(alloc, self.field.one())?;
        Ok(Ore { coeffs })
    }

    fn copy(&self, alloc: Global, a: &Ore<E<K>>) -> Result<Ore<E<K>>, NoMemory> {
        let coeffs = copy_list(alloc, &a.coeffs)?;
        Ok(Ore { coeffs })
    }

    fn add(&self, alloc: Global, a: &Ore<E<K>>, b: &Ore<E<K>>) -> Result<Ore<E<K>>, NoMemory> {
        let coeffs = sum_list(alloc, self.field, &a.coeffs, &b.coeffs)?;
        Ok(Ore { coeffs })
    }

    fn neg(&self, alloc: Global, a: &Ore<E<K>>) -> Result<Ore<E<K>>, NoMemory> {
        let coeffs = neg_list(alloc, self.field, &a.coeffs)?;
        Ok(Ore { coeffs })
    }

    fn mul(&self, alloc: Global, a: &Ore<E<K>>, b: &Ore<E<K>>) -> Result<Ore<E<K>>, NoMemory> {
        let coeffs = twisted_product(alloc, self.field, &a.coeffs, &b.coeffs)?;
        Ok(Ore { coeffs })
    }

    fn equal(&self, a: &Ore<E<K>>, b: &Ore<E<K>>) -> bool {
        equal_lists(self.field, &a.coeffs, &b.coeffs)
    }

    ghost laws = { λ k. frob_ring (K.ops k) (K.inv_of k) (K.Base.ops (K.base_of k)) (K.frob_ops k) (K.laws k) (K.frob_laws k) };
}
