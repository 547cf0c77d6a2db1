ghost use Rattle.std.specs.Prelude.{◌≡◌, IfOk, MatchOption};
ghost use Rattle.drinfeld_mod.specs.Module.{IsModule, constant_of};
ghost use Rattle.hom_space.specs.Bounded.{IsBoundedList};
ghost use Rattle.hom_space.specs.Full.{IsFullList};
ghost use Rattle.isomorphism.specs.Isomorphism.{IsFirstIsomorphism, HasNoIsomorphism};

use drinfeld_mod::Module;
use hom_space::{bounded, bounded_from};
use ore_poly::Ore;
use ring_core::lists::coeff_at;
use ring_core::{E, FrobField, NoMemory};
use std::alloc::Global;

/// The constant coefficient of the first member of the bounded list for the degree 0, where `phi` and `psi` are the
/// modules; None exactly where it has no members.
fn first_constant<K: FrobField>(
    k: &K,
    phi: &Module<E<K>>,
    psi: &Module<E<K>>,
    list: &[Ore<E<K>>],
) -> Option<E<K>>
    requires { IsBoundedList (K.ops k.now) (K.Base.ops (K.base_of k.now)) (K.frob_ops k.now) phi.now psi.now 0 list.now }
    ensures { let r = K.ops k.now in let f = K.frob_ops k.now in
        MatchOption result (HasNoIsomorphism r f phi.now psi.now) (IsFirstIsomorphism r (K.Base.ops (K.base_of k.now)) f phi.now psi.now) }
{
    if list.len() == 0 {
        return None;
    }
    Some(coeff_at(k, list[0].as_slice(), 0))
}

/// A constant of the field that is an isomorphism from `phi` to `psi`, two modules with the same constant: the first
/// member of their bounded list for the degree 0. None exactly where no constant but zero is a homomorphism.
pub fn isomorphic<K: FrobField>(
    alloc: Global,
    k: &K,
    phi: &Module<E<K>>,
    psi: &Module<E<K>>,
) -> Result<Option<E<K>>, NoMemory>
    requires source { IsModule (K.ops k.now) phi.now }
    requires target { IsModule (K.ops k.now) psi.now }
    requires constants { constant_of (K.ops k.now) phi.now ≡ constant_of (K.ops k.now) psi.now }
    ensures { let r = K.ops k.now in let f = K.frob_ops k.now in
        IfOk result (λ o. MatchOption o (HasNoIsomorphism r f phi.now psi.now) (IsFirstIsomorphism r (K.Base.ops (K.base_of k.now)) f phi.now psi.now)) }
{
    let list = bounded(alloc, k, phi, psi, 0)?;
    Ok(first_constant(k, phi, psi, &list))
}

/// What `isomorphic` gives, made from the full list of the homomorphisms from `phi` to `psi` in place of a linear system.
/// The only refusal is want of memory.
pub fn isomorphic_from<K: FrobField>(
    alloc: Global,
    k: &K,
    phi: &Module<E<K>>,
    psi: &Module<E<K>>,
    full: &[Ore<E<K>>],
) -> Result<Option<E<K>>, NoMemory>
    requires source { IsModule (K.ops k.now) phi.now }
    requires target { IsModule (K.ops k.now) psi.now }
    requires constants { constant_of (K.ops k.now) phi.now ≡ constant_of (K.ops k.now) psi.now }
    requires full { IsFullList (K.ops k.now) (K.Base.ops (K.base_of k.now)) (K.frob_ops k.now) phi.now psi.now full.now }
    ensures { let r = K.ops k.now in let f = K.frob_ops k.now in
        IfOk result (λ o. MatchOption o (HasNoIsomorphism r f phi.now psi.now) (IsFirstIsomorphism r (K.Base.ops (K.base_of k.now)) f phi.now psi.now)) }
{
    let list = bounded_from(alloc, k, phi, psi, full, 0)?;
    Ok(first_constant(k, phi, psi, &list))
}
