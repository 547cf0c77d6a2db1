ghost use Rattle.std.specs.Prelude.{◌≡◌, IfOk, MatchOption};
ghost use Rattle.drinfeld_mod.specs.Module.{IsModule, constant_of};
ghost use Rattle.hom_space.specs.Full.{IsFullList};
ghost use Rattle.isomorphism.specs.Isogeny.{HasNoIsogeny, IsFirstIsogeny};

use drinfeld_mod::Module;
use hom_space::full;
use ore_poly::Ore;
use ring_core::lists::copy_list;
use ring_core::{E, FrobField, NoMemory};
use std::alloc::Global;

/// An isogeny from `phi` to `psi`, two modules with the same constant: the first member of their full list, which is the
/// one of lowest lead. None exactly where no twisted polynomial but zero is a homomorphism.
pub fn isogenous<K: FrobField>(
    alloc: Global,
    k: &K,
    phi: &Module<E<K>>,
    psi: &Module<E<K>>,
) -> Result<Option<Ore<E<K>>>, NoMemory>
    requires source { IsModule (K.ops k.now) phi.now }
    requires target { IsModule (K.ops k.now) psi.now }
    requires constants { constant_of (K.ops k.now) phi.now ≡ constant_of (K.ops k.now) psi.now }
    ensures { let r = K.ops k.now in let base = K.Base.ops (K.base_of k.now) in let f = K.frob_ops k.now in
        IfOk result (λ o. MatchOption o (HasNoIsogeny r f phi.now psi.now) (IsFirstIsogeny r base f phi.now psi.now)) }
{
    let list = full(alloc, k, phi, psi)?;
    isogenous_from(alloc, k, phi, psi, &list)
}

/// What `isogenous` gives, a copy from the full list of the homomorphisms from `phi` to `psi`. The only refusal is want of
/// memory.
pub fn isogenous_from<K: FrobField>(
    alloc: Global,
    k: &K,
    phi: &Module<E<K>>,
    psi: &Module<E<K>>,
    full: &[Ore<E<K>>],
) -> Result<Option<Ore<E<K>>>, NoMemory>
    requires { IsFullList (K.ops k.now) (K.Base.ops (K.base_of k.now)) (K.frob_ops k.now) phi.now psi.now full.now }
    ensures { let r = K.ops k.now in let base = K.Base.ops (K.base_of k.now) in let f = K.frob_ops k.now in
        IfOk result (λ o. MatchOption o (HasNoIsogeny r f phi.now psi.now) (IsFirstIsogeny r base f phi.now psi.now)) }
{
    if full.is_empty() {
        return Ok(None);
    }
    let first = copy_list(alloc, full[0].as_slice())?;
    Ok(Some(Ore::from_vec(first)))
}
