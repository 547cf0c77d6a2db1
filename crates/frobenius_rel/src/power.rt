//! Powers of polynomials in X over the polynomials in T.
ghost use Rattle.std.specs.Prelude.{◌≡◌, ◌+◌, ◌^◌, ◌<◌, IfOk, IfErr, length, true};
ghost use Rattle.ring_core.specs.Coeffs.{coeff, are_elems, is_canonical};
ghost use Rattle.ring_core.specs.Powers.{power_of};
ghost use Rattle.ring_core.specs.Twisted.{product_at};
ghost use Rattle.fq_poly.specs.Poly.{poly_ops, poly_mul};
ghost use Rattle.drinfeld_mod.specs.Module.{IsModule};
ghost use Rattle.frobenius_rel.specs.RankPower.{IsRankPower, IsNoPower};

use super::fault::NoPower;
use super::relation::least_relation;
use drinfeld_mod::Module;
use fq_poly::{Poly, PolyRing};
use ring_core::{B, E, Field, FrobField, NoMemory, Ring};
use std::alloc::Global;

/// The least relation of Frobenius as a polynomial in X, to the power that has the degree of the rank: its
/// coefficients, polynomials over the base, lowest first. The fault is Degrees, with both numbers, exactly where the
/// degree of the least relation doesn't divide the rank. Where it does and Frobenius generates a field of that
/// degree, this is its characteristic polynomial.
pub fn rank_power<K: FrobField>(
    alloc: Global,
    field: &K,
    phi: &Module<E<K>>,
) -> Result<Vec<Poly<B<K>>>, NoPower>
    requires { IsModule (K.ops field.now) phi.now }
    ensures power { IfOk result
        (λ v. IsRankPower (K.ops field.now) (K.Base.ops (K.base_of field.now)) (K.frob_ops field.now) phi.now v.items) }
    ensures refused { IfErr result
        (IsNoPower (K.ops field.now) (K.Base.ops (K.base_of field.now)) (K.frob_ops field.now) phi.now) }
{
    let relation = least_relation(alloc, field, phi)?;
    let m = relation.len() - 1;
    let r = phi.rank();
    if r % m != 0 {
        return Err(NoPower::Degrees { m, r });
    }
    let list = power(alloc, field.base(), &relation, r / m)?;
    Ok(list)
}

/// The power of a polynomial in X by `e`.
fn power<F: Field>(
    alloc: Global,
    base: &F,
    a: &[Poly<E<F>>],
    e: usize,
) -> Result<Vec<Poly<E<F>>>, NoMemory>
    requires elem { is_canonical (poly_ops (F.ops base.now)) a.now ≡ true }
    requires nonzero { 0 < length a.now }
    ensures { IfOk result (λ v. v.items ≡ power_of (poly_ops (poly_ops (F.ops base.now))) a.now e) }
{
    let ring = PolyRing::new(base);
    let mut list = Vec::new(alloc);
    list.push(ring.one(alloc)?)?;
    for _ in 0..e {
        list = product(alloc, base, &list, a)?;
    }
    Ok(list)
}

/// The product of two polynomials in X, neither of them zero: it has one coefficient less than both together.
fn product<F: Field>(
    alloc: Global,
    base: &F,
    a: &[Poly<E<F>>],
    b: &[Poly<E<F>>],
) -> Result<Vec<Poly<E<F>>>, NoMemory>
    requires left { is_canonical (poly_ops (F.ops base.now)) a.now ≡ true }
    requires right { is_canonical (poly_ops (F.ops base.now)) b.now ≡ true }
    requires some { 0 < length a.now }
    requires others { 0 < length b.now }
    ensures { IfOk result (λ v. v.items ≡ poly_mul (poly_ops (F.ops base.now)) a.now b.now) }
{
    let Some(count) = a.len().checked_add(b.len()) else {
        return Err(NoMemory);
    };
    let mut list = Vec::new(alloc);
    for k in 0..count - 1 {
        let one = coefficient(alloc, base, a, b, k)?;
        list.push(one)?;
    }
    Ok(list)
}

/// Coefficient `k` of the product: the sum of `a_i b_(k - i)`.
fn coefficient<F: Field>(
    alloc: Global,
    base: &F,
    a: &[Poly<E<F>>],
    b: &[Poly<E<F>>],
    k: usize,
) -> Result<Poly<E<F>>, NoMemory>
    requires left { are_elems (poly_ops (F.ops base.now)) a.now ≡ true }
    requires right { are_elems (poly_ops (F.ops base.now)) b.now ≡ true }
    requires place { k + 1 < 2 ^ 64 }
    ensures { IfOk result (λ v. v ≡ product_at (poly_ops (F.ops base.now)) (λ c i. c) a.now b.now k) }
{
    let ring = PolyRing::new(base);
    let mut sum = ring.zero(alloc)?;
    for i in 0..k + 1 {
        let one = term(alloc, base, a, b, i, k - i)?;
        sum = ring.add(alloc, &sum, &one)?;
    }
    Ok(sum)
}

/// The product of member `i` of `a` and member `j` of `b`, which are zero past the ends.
fn term<F: Field>(
    alloc: Global,
    base: &F,
    a: &[Poly<E<F>>],
    b: &[Poly<E<F>>],
    i: usize,
    j: usize,
) -> Result<Poly<E<F>>, NoMemory>
    requires left { are_elems (poly_ops (F.ops base.now)) a.now ≡ true }
    requires right { are_elems (poly_ops (F.ops base.now)) b.now ≡ true }
    ensures value { let r = F.ops base.now in IfOk result (λ v. v ≡ poly_mul r (coeff (poly_ops r) a.now i) (coeff (poly_ops r) b.now j)) }
    ensures elem { IfOk result (λ v. is_canonical (F.ops base.now) v ≡ true) }
{
    let ring = PolyRing::new(base);
    if i < a.len() && j < b.len() {
        Ok(ring.mul(alloc, &a[i], &b[j])?)
    } else {
        Ok(ring.zero(alloc)?)
    }
}
