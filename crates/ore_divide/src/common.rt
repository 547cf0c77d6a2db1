//! Common right divisors and common left multiples. Both stand on the end of Euclid's algorithm.
ghost use Rattle.std.specs.Prelude.{◌≡◌, ◌-◌, ◌<◌, IfOk, [], length, true};
ghost use Rattle.ring_core.specs.Ring.{IsElem};
ghost use Rattle.ring_core.specs.Coeffs.{coeff, are_elems, is_canonical, list_of};
ghost use Rattle.ore_divide.specs.Divisor.{IsCommonRight};
ghost use Rattle.ore_divide.specs.Multiple.{IsLeastMultiple};
ghost use Rattle.ore_divide.specs.steps.Links.{IsLastRemainder, IsLastRelation, IsMadeMonic};

use super::euclid::{Link, last_relation, last_remainder};
use ore_poly::{Ore, OreRing};
use ring_core::lists::{scaled_values, top_inverse};
use ring_core::{E, Field, FrobField, NoMemory, Ring};
use std::alloc::Global;

/// The greatest common right divisor of two operands `a` and `b`, with its cofactors: `d = s a + w b`.
#[derive(Drop)]
pub struct Common<C> {
    /// The divisor: monic, or zero where both operands are.
    pub d: Ore<C>,
    /// The cofactor of the left operand.
    pub s: Ore<C>,
    /// The cofactor of the right operand.
    pub w: Ore<C>,
}

/// The least common left multiple of two operands `a` and `b`, with its factors: `m = s a = w b`.
#[derive(Drop)]
pub struct Multiple<C> {
    /// The multiple: monic, or zero where one operand is.
    pub m: Ore<C>,
    /// The factor of the left operand.
    pub s: Ore<C>,
    /// The factor of the right operand.
    pub w: Ore<C>,
}

/// Each member of the list times `inverse`, which is one at the last: that takes no product.
fn made_monic<K: FrobField>(
    alloc: Global,
    k: &K,
    inverse: E<K>,
    list: &[E<K>],
) -> Result<Vec<E<K>>, NoMemory>
    requires elems { are_elems (K.ops k.now) list.now ≡ true }
    requires some { 0 < length list.now }
    requires inverse_in { IsElem (K.ops k.now) inverse }
    requires inverts { let r = K.ops k.now in r.mul (coeff r list.now (length list.now - 1)) inverse ≡ r.one }
    ensures { IfOk result (λ v. let r = K.ops k.now in v.items ≡ list_of r (length list.now) (λ i. r.mul inverse (coeff r list.now i))) }
{
    let mut values = scaled_values(alloc, k, inverse, &list[..list.len() - 1])?;
    values.push(k.one())?;
    Ok(values)
}

/// The monic multiple of `u` by a constant, and the constant; both are zero where `u` is. Its top coefficient is one
/// without a product.
fn monic_of<K: FrobField>(
    alloc: Global,
    k: &K,
    u: &Ore<E<K>>,
) -> Result<(Ore<E<K>>, Ore<E<K>>), NoMemory>
    requires { is_canonical (K.ops k.now) u.now ≡ true }
    ensures { IfOk result (λ p. IsMadeMonic (K.ops k.now) (K.frob_ops k.now).frob u.now p.0 p.1) }
{
    let ring = OreRing::new(k);
    let Some(inverse) = top_inverse(k, u.as_slice()) else {
        return Ok((ring.zero(alloc)?, ring.zero(alloc)?));
    };
    let multiple = made_monic(alloc, k, inverse, u.as_slice())?;
    let unit = ring.make(alloc, &[inverse])?;
    Ok((Ore::from_vec(multiple), unit))
}

/// Divisor and cofactors from the last remainder of Euclid's algorithm.
fn common_from<K: FrobField>(
    alloc: Global,
    k: &K,
    a: &Ore<E<K>>,
    b: &Ore<E<K>>,
    last: Link<E<K>>,
) -> Result<Common<E<K>>, NoMemory>
    requires left { is_canonical (K.ops k.now) a.now ≡ true }
    requires right { is_canonical (K.ops k.now) b.now ≡ true }
    requires some { 0 < length a.now }
    requires nonzero { 0 < length b.now }
    requires last { IsLastRemainder (K.ops k.now) (K.frob_ops k.now).frob a.now b.now last.remainder.items last.left.items last.right.items }
    ensures { IfOk result (λ v. IsCommonRight (K.ops k.now) (K.frob_ops k.now).frob a.now b.now v.d v.s v.w) }
{
    let ring = OreRing::new(k);
    let divisor = Ore::from_vec(last.remainder);
    let left = Ore::from_vec(last.left);
    let right = Ore::from_vec(last.right);
    let (d, unit) = monic_of(alloc, k, &divisor)?;
    let s = ring.mul(alloc, &unit, &left)?;
    let w = ring.mul(alloc, &unit, &right)?;
    Ok(Common { d, s, w })
}

/// The multiple and its factors from the last relation of Euclid's algorithm.
fn multiple_from<K: FrobField>(
    alloc: Global,
    k: &K,
    a: &Ore<E<K>>,
    b: &Ore<E<K>>,
    last: Link<E<K>>,
) -> Result<Multiple<E<K>>, NoMemory>
    requires left { is_canonical (K.ops k.now) a.now ≡ true }
    requires right { is_canonical (K.ops k.now) b.now ≡ true }
    requires some { 0 < length a.now }
    requires nonzero { 0 < length b.now }
    requires last { IsLastRelation (K.ops k.now) (K.frob_ops k.now).frob a.now b.now last.left.items last.right.items }
    ensures { IfOk result (λ v. IsLeastMultiple (K.ops k.now) (K.frob_ops k.now).frob a.now b.now v.m v.s v.w) }
{
    let ring = OreRing::new(k);
    let left = Ore::from_vec(last.left);
    let right = Ore::from_vec(last.right);
    let product = ring.mul(alloc, &left, a)?;
    let (m, unit) = monic_of(alloc, k, &product)?;
    let s = ring.mul(alloc, &unit, &left)?;
    let minus = ring.mul(alloc, &unit, &right)?;
    let w = ring.neg(alloc, &minus)?;
    Ok(Multiple { m, s, w })
}

/// The greatest common right divisor `d = s a + w b`, which is monic, or zero where both operands are. The
/// cofactors are fixed so: where both operands are nonzero, `s` is zero or of lower degree than `b` less that
/// of `d`; where one is zero, its cofactor is zero and the other one a constant, zero where both are zero. So
/// there is only one answer. The divisor is `right_gcd` of twisted polynomials in the SageMath reference manual. The
/// only refusal is want of memory.
pub fn common_right<K: FrobField>(
    alloc: Global,
    k: &K,
    a: &Ore<E<K>>,
    b: &Ore<E<K>>,
) -> Result<Common<E<K>>, NoMemory>
    requires left { is_canonical (K.ops k.now) a.now ≡ true }
    requires right { is_canonical (K.ops k.now) b.now ≡ true }
    ensures { IfOk result (λ v. IsCommonRight (K.ops k.now) (K.frob_ops k.now).frob a.now b.now v.d v.s v.w) }
{
    let ring = OreRing::new(k);
    let Some(inverse) = top_inverse(k, b.as_slice()) else {
        let (d, s) = monic_of(alloc, k, a)?;
        let w = ring.zero(alloc)?;
        return Ok(Common { d, s, w });
    };
    if a.as_slice().is_empty() {
        let (d, w) = monic_of(alloc, k, b)?;
        let s = ring.zero(alloc)?;
        return Ok(Common { d, s, w });
    }
    let last = last_remainder(alloc, k, a.as_slice(), b.as_slice(), inverse)?;
    Ok(common_from(alloc, k, a, b, last)?)
}

/// Three zeros.
fn no_multiple<K: FrobField>(alloc: Global, k: &K) -> Result<Multiple<E<K>>, NoMemory>
    ensures { IfOk result (λ v. (v.m ≡ []) × (v.s ≡ []) × (v.w ≡ [])) }
{
    let ring = OreRing::new(k);
    Ok(Multiple {
        m: ring.zero(alloc)?,
        s: ring.zero(alloc)?,
        w: ring.zero(alloc)?,
    })
}

/// The least common left multiple `m = s a = w b`, which is monic; all three are zero where an operand is zero.
/// There is only one answer. The multiple is `left_lcm` of twisted polynomials in the SageMath reference manual. The
/// only refusal is want of memory.
pub fn common_multiple<K: FrobField>(
    alloc: Global,
    k: &K,
    a: &Ore<E<K>>,
    b: &Ore<E<K>>,
) -> Result<Multiple<E<K>>, NoMemory>
    requires left { is_canonical (K.ops k.now) a.now ≡ true }
    requires right { is_canonical (K.ops k.now) b.now ≡ true }
    ensures { IfOk result (λ v. IsLeastMultiple (K.ops k.now) (K.frob_ops k.now).frob a.now b.now v.m v.s v.w) }
{
    if a.as_slice().is_empty() {
        return Ok(no_multiple(alloc, k)?);
    }
    let Some(inverse) = top_inverse(k, b.as_slice()) else {
        return Ok(no_multiple(alloc, k)?);
    };
    let last = last_relation(alloc, k, a.as_slice(), b.as_slice(), inverse)?;
    Ok(multiple_from(alloc, k, a, b, last)?)
}
