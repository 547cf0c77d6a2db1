ghost use Rattle.std.specs.Prelude.{◌≡◌, IfOk, true};
ghost use Rattle.ring_core.specs.Coeffs.{are_elems, is_canonical};
ghost use Rattle.ring_core.specs.Ring.{IsElem};
ghost use Rattle.ring_core.specs.Monomial.{constant};
ghost use Rattle.drinfeld_mod.specs.Module.{IsModule};
ghost use Rattle.drinfeld_mod.specs.Image.{image};

use super::coefficients::as_ore;
use super::module::Module;
use fq_poly::Poly;
use ore_poly::{Ore, OreRing};
use ring_core::lists::{coeff_at, single_list, trimmed};
use ring_core::{B, E, FrobField, NoMemory, Ring};
use std::alloc::Global;

/// The image `phi_a` of a polynomial over the base, the sum of `a_i phi_T^i`, where `a_i` is taken as a
/// constant (the SageMath reference manual, chapter Drinfeld modules). It is zero exactly where `a` is. A step of
/// Horner's rule multiplies by `phi_T`, which has at most nine coefficients. The only refusal is want of memory.
pub fn image_of<K: FrobField>(
    alloc: Global,
    field: &K,
    phi: &Module<E<K>>,
    a: &Poly<B<K>>,
) -> Result<Ore<E<K>>, NoMemory>
    requires module { IsModule (K.ops field.now) phi.now }
    requires poly { is_canonical (K.Base.ops (K.base_of field.now)) a.now ≡ true }
    ensures value { IfOk result
        (λ u. u ≡ image (K.ops field.now) (K.Base.ops (K.base_of field.now)) (K.frob_ops field.now) phi.now a.now) }
    ensures elem { IfOk result (λ u. is_canonical (K.ops field.now) u ≡ true) }
{
    let letter = as_ore(alloc, field, phi)?;
    image_at(alloc, field, &letter, a.as_slice())
}

/// The sum of `a[i] x^i`, by Horner's rule.
fn image_at<K: FrobField>(
    alloc: Global,
    field: &K,
    x: &Ore<E<K>>,
    a: &[B<K>],
) -> Result<Ore<E<K>>, NoMemory>
    requires point { is_canonical (K.ops field.now) x.now ≡ true }
    requires poly { are_elems (K.Base.ops (K.base_of field.now)) a.now ≡ true }
    ensures value { IfOk result
        (λ u. u ≡ image (K.ops field.now) (K.Base.ops (K.base_of field.now)) (K.frob_ops field.now) x.now a.now) }
    ensures elem { IfOk result (λ u. is_canonical (K.ops field.now) u ≡ true) }
{
    let ring = OreRing::new(field);
    let mut sum = ring.zero(alloc)?;
    for i in (0..a.len()).rev() {
        let shifted = ring.mul(alloc, &sum, x)?;
        let member = coeff_at(field.base(), a, i);
        let constant = constant_of(alloc, field, member)?;
        sum = ring.add(alloc, &constant, &shifted)?;
    }
    Ok(sum)
}

/// The constant `b` of the base as a twisted polynomial.
fn constant_of<K: FrobField>(alloc: Global, field: &K, b: B<K>) -> Result<Ore<E<K>>, NoMemory>
    requires { IsElem (K.Base.ops (K.base_of field.now)) b }
    ensures value { IfOk result (λ u. u ≡ constant (K.ops field.now) ((K.frob_ops field.now).embed b)) }
    ensures elem { IfOk result (λ u. is_canonical (K.ops field.now) u ≡ true) }
{
    let list = single_list(alloc, field.embed(b))?;
    Ok(Ore::from_vec(trimmed(field, list)))
}
