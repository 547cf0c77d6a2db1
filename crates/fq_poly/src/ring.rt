ghost use Rattle.std.specs.Prelude.{◌≡◌, IfOk, true};
ghost use Rattle.ring_core.specs.Ring.{IsElem};
ghost use Rattle.ring_core.specs.Coeffs.{trim, are_elems, is_canonical};
ghost use Rattle.ring_core.specs.Powers.{power_of, value_at};
ghost use Rattle.ring_core.proofs.ListRing.{poly_ring, poly_comm};
ghost use Rattle.ring_core.proofs.Twist.{no_twist};
ghost use Rattle.fq_poly.specs.Poly.{poly_ops, poly_mul, letter};
ghost use Rattle.fq_poly.specs.Division.{IsDivisionAnswer};
ghost use Rattle.fq_poly.specs.Monic.{IsMonicAnswer};

use super::division::divide_list;
use super::fault::PolyFault;
use super::monic::monic_list;
use super::poly::Poly;
use super::shift::shifted_list;
use ring_core::lists::{
    are_canonical, copy_list, equal_lists, neg_list, single_list, sum_list, top_inverse, trimmed,
};
use ring_core::product::product_list;
use ring_core::{CommRing, E, Field, NoMemory, Ring, TwistedRing, value_of};
use std::alloc::Global;
use std::marker::Model;

/// The ring of polynomials over a field, which contracts see as that field.
#[derive(Drop)]
pub struct PolyRing<'f, F: Field> {
    field: &'f F,
}

impl<'f, F: Field> Model for PolyRing<'f, F> {
    ghost Value = { F };

    ghost view = { λ r. r.field.now };
}

impl<'f, F: Field> PolyRing<'f, F> {
    /// The polynomials over `field`. Takes no memory.
    pub fn new(field: &'f F) -> PolyRing<'f, F>
        ensures { result ≡ field.now }
    {
        PolyRing { field }
    }

    /// The polynomial with these coefficients, lowest first, without the zeros at the top.
    pub fn make(&self, alloc: Global, list: &[E<F>]) -> Result<Poly<E<F>>, NoMemory>
        requires { are_elems (F.ops self.now) list.now ≡ true }
        ensures value { IfOk result (λ v. v ≡ trim (F.ops self.now) list.now) }
        ensures elem { IfOk result (λ v. is_canonical (F.ops self.now) v ≡ true) }
    {
        let coeffs = trimmed(self.field, copy_list(alloc, list)?);
        Ok(Poly { coeffs })
    }

    /// Quotient and remainder of `a` by `b`, in this order: `a` is the quotient times `b` and the
    /// remainder, which is zero or of lower degree than `b`. The fault is ZeroDivisor exactly where `b`
    /// is zero.
    pub fn divide(
        &self,
        alloc: Global,
        a: &Poly<E<F>>,
        b: &Poly<E<F>>,
    ) -> Result<(Poly<E<F>>, Poly<E<F>>), PolyFault>
        requires dividend { is_canonical (F.ops self.now) a.now ≡ true }
        requires divisor { is_canonical (F.ops self.now) b.now ≡ true }
        ensures { IsDivisionAnswer (F.ops self.now) a.now b.now result }
    {
        let Some(inverse) = top_inverse(self.field, &b.coeffs) else {
            return Err(PolyFault::ZeroDivisor);
        };
        let (quotient, rest) = divide_list(alloc, self.field, &a.coeffs, &b.coeffs, inverse)?;
        Ok((Poly { coeffs: quotient }, Poly { coeffs: rest }))
    }

    /// The multiple of `a` by a constant with top coefficient one. The fault is ZeroDivisor exactly where
    /// `a` is zero.
    pub fn monic(&self, alloc: Global, a: &Poly<E<F>>) -> Result<Poly<E<F>>, PolyFault>
        requires { is_canonical (F.ops self.now) a.now ≡ true }
        ensures { IsMonicAnswer (F.ops self.now) a.now result }
    {
        let Some(inverse) = top_inverse(self.field, &a.coeffs) else {
            return Err(PolyFault::ZeroDivisor);
        };
        let coeffs = monic_list(alloc, self, &a.coeffs, inverse)?;
        Ok(Poly { coeffs })
    }

    /// The product of `a` and the `k`-th power of the letter. A length past `usize` is want of memory.
    pub fn shift(&self, alloc: Global, a: &Poly<E<F>>, k: usize) -> Result<Poly<E<F>>, NoMemory>
        requires { is_canonical (F.ops self.now) a.now ≡ true }
        ensures value { IfOk result
            (λ v. let r = F.ops self.now in v ≡ poly_mul r a.now (power_of (poly_ops r) (letter r) k)) }
        ensures elem { IfOk result (λ v. is_canonical (F.ops self.now) v ≡ true) }
    {
        let coeffs = shifted_list(alloc, self.field, &a.coeffs, k)?;
        Ok(Poly { coeffs })
    }

    /// The value of `a` at `x`. Takes no memory.
    pub fn eval(&self, a: &Poly<E<F>>, x: E<F>) -> E<F>
        requires poly { is_canonical (F.ops self.now) a.now ≡ true }
        requires point { IsElem (F.ops self.now) x }
        ensures value { result ≡ value_at (F.ops self.now) a.now x }
        ensures elem { IsElem (F.ops self.now) result }
    {
        value_of(self.field, &a.coeffs, x)
    }
}

impl<'f, F: Field> TwistedRing for PolyRing<'f, F> {
    type Over = F;

    ghost over = { λ k. k };

    ghost twist = { λ k c i. c };

    fn field(&self) -> &F {
        self.field
    }

    fn raise(&self, _row: &mut [E<F>]) {}

    ghost twist_laws = { λ k. no_twist (F.ops k) };
}

impl<'f, F: Field> Ring for PolyRing<'f, F> {
    type Elem = Poly<E<F>>;

    ghost ops = { λ k. poly_ops (F.ops k) };

    fn is_elem(&self, a: &Poly<E<F>>) -> bool {
        are_canonical(self.field, &a.coeffs)
    }

    fn zero(&self, alloc: Global) -> Result<Poly<E<F>>, NoMemory> {
        Ok(Poly {
            coeffs: Vec::new(alloc),
        })
    }

    fn one(&self, alloc: Global) -> Result<Poly<E<F>>, NoMemory> {
        let coeffs = single_list(alloc, self.field.one())?;
        Ok(Poly { coeffs })
    }

    fn copy(&self, alloc: Global, a: &Poly<E<F>>) -> Result<Poly<E<F>>, NoMemory> {
        let coeffs = copy_list(alloc, &a.coeffs)?;
        Ok(Poly { coeffs })
    }

    fn add(&self, alloc: Global, a: &Poly<E<F>>, b: &Poly<E<F>>) -> Result<Poly<E<F>>, NoMemory> {
        let coeffs = sum_list(alloc, self.field, &a.coeffs, &b.coeffs)?;
        Ok(Poly { coeffs })
    }

    fn neg(&self, alloc: Global, a: &Poly<E<F>>) -> Result<Poly<E<F>>, NoMemory> {
        let coeffs = neg_list(alloc, self.field, &a.coeffs)?;
        Ok(Poly { coeffs })
    }

    fn mul(&self, alloc: Global, a: &Poly<E<F>>, b: &Poly<E<F>>) -> Result<Poly<E<F>>, NoMemory> {
        let coeffs = product_list(alloc, self, &a.coeffs, &b.coeffs)?;
        Ok(Poly { coeffs })
    }

    fn equal(&self, a: &Poly<E<F>>, b: &Poly<E<F>>) -> bool {
        equal_lists(self.field, &a.coeffs, &b.coeffs)
    }

    ghost laws = { λ k. poly_ring (F.ops k) (F.laws k).ring (F.laws k).one_ne_zero };
}

impl<'f, F: Field> CommRing for PolyRing<'f, F> {
    ghost commutes = { λ k. poly_comm (F.ops k) (F.laws k).ring (F.laws k).one_ne_zero (F.laws k).mul_comm };
}
