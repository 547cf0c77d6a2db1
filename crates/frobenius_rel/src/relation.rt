ghost use Rattle.std.specs.Prelude.{IfOk};
ghost use Rattle.drinfeld_mod.specs.Module.{IsModule};
ghost use Rattle.frobenius_rel.specs.Relation.{IsLeastRelation};

use super::scale::{scaled_polys, top_constant};
use super::search::first_relation;
use drinfeld_mod::Module;
use fq_poly::Poly;
use ring_core::{B, E, Field, FrobField, NoMemory};
use std::alloc::Global;

/// The least relation of Frobenius over the polynomials in T (Papikian, Drinfeld Modules, Springer 2023; the minimal
/// polynomial of Frobenius): the polynomials `a_0, .., a_m` over the base, lowest first, with `m` at least 1 and
/// `a_m` one, for which the sum of `phi_(a_i) tau^(n i)` is zero in a field of degree `n` over the base. No list of
/// fewer polynomials that aren't all zero has that sum zero, so it is the only one.
pub fn least_relation<K: FrobField>(
    alloc: Global,
    field: &K,
    phi: &Module<E<K>>,
) -> Result<Vec<Poly<B<K>>>, NoMemory>
    requires { IsModule (K.ops field.now) phi.now }
    ensures { IfOk result
        (λ v. IsLeastRelation (K.ops field.now) (K.Base.ops (K.base_of field.now)) (K.frob_ops field.now) phi.now v.items) }
{
    let width = phi.rank() * field.degree();
    let first = first_relation(alloc, field, phi, width)?;
    let base = field.base();
    let top = top_constant(base, &first);
    let Some(inverse) = base.inv(top) else {
        // the last polynomial is a constant that isn't zero
        unreachable!()
    };
    let list = scaled_polys(alloc, base, inverse, &first)?;
    Ok(list)
}
