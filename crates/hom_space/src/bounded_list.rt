ghost use Rattle.std.specs.Prelude.{◌≡◌, ◌≤◌, IfOk};
ghost use Rattle.drinfeld_mod.specs.Module.{IsModule, constant_of};
ghost use Rattle.hom_space.specs.Bounded.{IsBoundedList};

use super::reading::read_rows;
use super::system::system;
use drinfeld_mod::Module;
use fq_linear::kernel;
use ore_poly::Ore;
use ring_core::{E, Field, FrobField, NoMemory};
use std::alloc::Global;

/// The bounded list of the homomorphisms from `phi` to `psi`, two modules with the same constant, for `d`: the list of
/// homomorphisms of degree at most `d` such that each homomorphism that is zero or of such a degree is exactly one
/// combination of them over the base. Their leads rise, where the lead is the highest index with a nonzero coordinate
/// over the base; each member has coordinate one at its lead and zero at those of the others. There is one such list.
pub fn bounded<K: FrobField>(
    alloc: Global,
    k: &K,
    phi: &Module<E<K>>,
    psi: &Module<E<K>>,
    d: usize,
) -> Result<Vec<Ore<E<K>>>, NoMemory>
    requires source { IsModule (K.ops k.now) phi.now }
    requires target { IsModule (K.ops k.now) psi.now }
    requires constants { constant_of (K.ops k.now) phi.now ≡ constant_of (K.ops k.now) psi.now }
    requires bound { d ≤ 64 }
    ensures { IfOk result (λ v. IsBoundedList (K.ops k.now) (K.Base.ops (K.base_of k.now)) (K.frob_ops k.now) phi.now psi.now d v.items) }
{
    let rows = system(alloc, k, phi.as_slice(), psi.as_slice(), d)?;
    let relations = kernel(alloc, k.base(), &rows)?;
    Ok(read_rows(alloc, k, &relations)?)
}
