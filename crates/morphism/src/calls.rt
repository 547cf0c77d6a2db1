ghost use Rattle.std.specs.Prelude.{◌≡◌, ◌↔◌, IfOk, IsTrue, MatchOption, true};
ghost use Rattle.ring_core.specs.Coeffs.{is_canonical};
ghost use Rattle.ring_core.specs.Twisted.{list_add, list_mul};
ghost use Rattle.drinfeld_mod.specs.Module.{IsModule, constant_of};
ghost use Rattle.drinfeld_mod.specs.Image.{image};
ghost use Rattle.morphism.specs.Homomorphism.{IsHomomorphism};
ghost use Rattle.morphism.specs.Arrow.{IsMorphism, arrow};

use super::value::Morphism;
use drinfeld_mod::{Module, as_ore, image_of};
use fq_poly::Poly;
use ore_poly::{Ore, OreRing};
use ring_core::{B, E, FrobField, NoMemory, Ring};
use std::alloc::Global;

/// Whether `u` is a homomorphism from `phi` to `psi`: whether `u phi_T` and `psi_T u` are equal.
pub fn is_homomorphism<K: FrobField>(
    alloc: Global,
    field: &K,
    phi: &Module<E<K>>,
    psi: &Module<E<K>>,
    u: &Ore<E<K>>,
) -> Result<bool, NoMemory>
    requires source { IsModule (K.ops field.now) phi.now }
    requires target { IsModule (K.ops field.now) psi.now }
    requires candidate { is_canonical (K.ops field.now) u.now ≡ true }
    ensures { IfOk result (λ yes. IsTrue yes ↔ IsHomomorphism (K.ops field.now) (K.frob_ops field.now).frob phi.now psi.now u.now) }
{
    let ring = OreRing::new(field);
    let source = as_ore(alloc, field, phi)?;
    let target = as_ore(alloc, field, psi)?;
    let left = ring.mul(alloc, u, &source)?;
    let right = ring.mul(alloc, &target, u)?;
    Ok(ring.equal(&left, &right))
}

/// The homomorphism `u` from `phi` to `psi`, two modules with the same constant, as a value that holds copies of
/// all three (the SageMath reference manual, chapter Drinfeld modules); None exactly where `u phi_T` differs from
/// `psi_T u`. Zero is a homomorphism. The only refusal is want of memory.
pub fn check<K: FrobField>(
    alloc: Global,
    field: &K,
    phi: &Module<E<K>>,
    psi: &Module<E<K>>,
    u: &Ore<E<K>>,
) -> Result<Option<Morphism<E<K>>>, NoMemory>
    requires source { IsModule (K.ops field.now) phi.now }
    requires target { IsModule (K.ops field.now) psi.now }
    requires constants { constant_of (K.ops field.now) phi.now ≡ constant_of (K.ops field.now) psi.now }
    requires candidate { is_canonical (K.ops field.now) u.now ≡ true }
    ensures { let r = K.ops field.now in let frob = (K.frob_ops field.now).frob in
        IfOk result (λ o. MatchOption o (IsHomomorphism r frob phi.now psi.now u.now → ⊥)
        (λ m. (m ≡ arrow u.now phi.now psi.now) × IsMorphism r frob m)) }
{
    if !is_homomorphism(alloc, field, phi, psi, u)? {
        return Ok(None);
    }
    let u = OreRing::new(field).copy(alloc, u)?;
    let from = phi.copied(alloc)?;
    let to = psi.copied(alloc)?;
    Ok(Some(Morphism { u, from, to }))
}

/// The composition of `u` and then `v`, where the source of `v` is the target of `u`: the product `v u` as twisted
/// polynomials, from the source of `u` to the target of `v`. The only refusal is want of memory.
pub fn compose<K: FrobField>(
    alloc: Global,
    field: &K,
    v: &Morphism<E<K>>,
    u: &Morphism<E<K>>,
) -> Result<Morphism<E<K>>, NoMemory>
    requires second { IsMorphism (K.ops field.now) (K.frob_ops field.now).frob v.now }
    requires first { IsMorphism (K.ops field.now) (K.frob_ops field.now).frob u.now }
    requires meet { v.now.source ≡ u.now.target }
    ensures value { IfOk result
        (λ m. m ≡ arrow (list_mul (K.ops field.now) (K.frob_ops field.now).frob v.now.ore u.now.ore) u.now.source v.now.target) }
    ensures morphism { IfOk result (IsMorphism (K.ops field.now) (K.frob_ops field.now).frob) }
{
    let product = OreRing::new(field).mul(alloc, v.ore(), u.ore())?;
    let from = u.source().copied(alloc)?;
    let to = v.target().copied(alloc)?;
    Ok(Morphism {
        u: product,
        from,
        to,
    })
}

/// The sum of two homomorphisms that have the same source and the same target, which it keeps. The only refusal is
/// want of memory.
pub fn add<K: FrobField>(
    alloc: Global,
    field: &K,
    u: &Morphism<E<K>>,
    v: &Morphism<E<K>>,
) -> Result<Morphism<E<K>>, NoMemory>
    requires left { IsMorphism (K.ops field.now) (K.frob_ops field.now).frob u.now }
    requires right { IsMorphism (K.ops field.now) (K.frob_ops field.now).frob v.now }
    requires sources { u.now.source ≡ v.now.source }
    requires targets { u.now.target ≡ v.now.target }
    ensures value { IfOk result (λ m. m ≡ arrow (list_add (K.ops field.now) u.now.ore v.now.ore) u.now.source u.now.target) }
    ensures morphism { IfOk result (IsMorphism (K.ops field.now) (K.frob_ops field.now).frob) }
{
    let sum = OreRing::new(field).add(alloc, u.ore(), v.ore())?;
    let from = u.source().copied(alloc)?;
    let to = u.target().copied(alloc)?;
    Ok(Morphism { u: sum, from, to })
}

/// What the polynomial `a` over the base makes of a homomorphism `u` from `phi`: the product `u phi_a`, between the
/// same modules. The only refusal is want of memory.
pub fn act<K: FrobField>(
    alloc: Global,
    field: &K,
    u: &Morphism<E<K>>,
    a: &Poly<B<K>>,
) -> Result<Morphism<E<K>>, NoMemory>
    requires homomorphism { IsMorphism (K.ops field.now) (K.frob_ops field.now).frob u.now }
    requires poly { is_canonical (K.Base.ops (K.base_of field.now)) a.now ≡ true }
    ensures value { let r = K.ops field.now in let f = K.frob_ops field.now in
        IfOk result (λ m. m ≡ arrow (list_mul r f.frob u.now.ore (image r (K.Base.ops (K.base_of field.now)) f u.now.source a.now)) u.now.source u.now.target) }
    ensures morphism { IfOk result (IsMorphism (K.ops field.now) (K.frob_ops field.now).frob) }
{
    let image = image_of(alloc, field, u.source(), a)?;
    let product = OreRing::new(field).mul(alloc, u.ore(), &image)?;
    let from = u.source().copied(alloc)?;
    let to = u.target().copied(alloc)?;
    Ok(Morphism {
        u: product,
        from,
        to,
    })
}
