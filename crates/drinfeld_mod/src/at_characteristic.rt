ghost use Rattle.std.specs.Prelude.{◌≡◌, ◌≤◌, ◌↔◌, IsTrue, IfOk};
ghost use Rattle.drinfeld_mod.specs.Module.{IsModule, rank_of};
ghost use Rattle.drinfeld_mod.specs.Height.{IsCharacteristic, IsHeight};

use super::image::image_of;
use super::module::Module;
use fq_poly::Poly;
use minimal_poly::min_poly;
use ore_poly::OreRing;
use ring_core::{B, E, FrobField, NoMemory};
use std::alloc::Global;

/// The characteristic, lowest coefficient first: the monic polynomial over the base of least degree that has the
/// constant of the module as a root, and the only one (the SageMath reference manual, chapter Drinfeld modules).
/// The only refusal is want of memory.
pub fn characteristic<K: FrobField>(
    alloc: Global,
    field: &K,
    phi: &Module<E<K>>,
) -> Result<Poly<B<K>>, NoMemory>
    requires { IsModule (K.ops field.now) phi.now }
    ensures { IfOk result
        (IsCharacteristic (K.ops field.now) (K.Base.ops (K.base_of field.now)) (K.frob_ops field.now) phi.now) }
{
    let constant = phi.constant();
    min_poly(alloc, field, constant)
}

/// The height: the lowest power of tau in the image of the characteristic, divided by the degree of the
/// characteristic (Papikian, Drinfeld Modules, Springer 2023). It is a whole number, at least one and at most
/// the rank. The only refusal is want of memory.
pub fn height<K: FrobField>(alloc: Global, field: &K, phi: &Module<E<K>>) -> Result<usize, NoMemory>
    requires { IsModule (K.ops field.now) phi.now }
    ensures { IfOk result
        (λ h. IsHeight (K.ops field.now) (K.Base.ops (K.base_of field.now)) (K.frob_ops field.now) phi.now h × (1 ≤ h) × (h ≤ rank_of phi.now)) }
{
    let p = characteristic(alloc, field, phi)?;
    let image = image_of(alloc, field, phi, &p)?;
    let ring = OreRing::new(field);
    let Some(lowest) = ring.lowest(&image) else {
        // the image of a polynomial that isn't zero isn't zero
        unreachable!()
    };
    Ok(lowest / (p.len() - 1))
}

/// Whether the module is ordinary: its height is one (Papikian, Drinfeld Modules, Springer 2023). A module of rank
/// one always is. The only refusal is want of memory.
pub fn is_ordinary<K: FrobField>(
    alloc: Global,
    field: &K,
    phi: &Module<E<K>>,
) -> Result<bool, NoMemory>
    requires { IsModule (K.ops field.now) phi.now }
    ensures { IfOk result
        (λ yes. IsTrue yes ↔ IsHeight (K.ops field.now) (K.Base.ops (K.base_of field.now)) (K.frob_ops field.now) phi.now 1) }
{
    let h = height(alloc, field, phi)?;
    Ok(h == 1)
}

/// Whether the module is supersingular: its height is the rank (Papikian, Drinfeld Modules, Springer 2023). A
/// module of rank one always is, and is ordinary, too. The only refusal is want of memory.
pub fn is_supersingular<K: FrobField>(
    alloc: Global,
    field: &K,
    phi: &Module<E<K>>,
) -> Result<bool, NoMemory>
    requires { IsModule (K.ops field.now) phi.now }
    ensures { IfOk result
        (λ yes. IsTrue yes ↔ IsHeight (K.ops field.now) (K.Base.ops (K.base_of field.now)) (K.frob_ops field.now) phi.now (rank_of phi.now)) }
{
    let h = height(alloc, field, phi)?;
    Ok(h == phi.rank())
}
