//! The first power of Frobenius that depends on the powers before it, through its coordinates. Those of each power
//! come from those of the one before.
ghost use Rattle.std.specs.Prelude.{◌≡◌, ◌+◌, ◌*◌, ◌^◌, ◌<◌, ◌≤◌, IfOk, true, length};
ghost use Rattle.linear_algebra.specs.Linear.{row_at};
ghost use Rattle.ring_core.specs.Coeffs.{is_canonical};
ghost use Rattle.drinfeld_mod.specs.Module.{IsModule, rank_of};
ghost use Rattle.frobenius_rel.specs.steps.FirstRelation.{IsFirstRelation};

use super::matrix::{frobenius_rows, times_frobenius};
use drinfeld_mod::Module;
use flat_reduce::lists::copies;
use fq_poly::Poly;
use motive_coords::{motive, motive_over_t};
use ore_poly::OreRing;
use poly_reduce::{PolyRows, kernel};
use ring_core::{B, E, FrobField, NoMemory, Ring};
use std::alloc::Global;

/// The first relation between the coordinates of the powers of Frobenius, of which there are `width`. There always
/// is one, as more rows than places depend.
pub(super) fn first_relation<K: FrobField>(
    alloc: Global,
    field: &K,
    phi: &Module<E<K>>,
    width: usize,
) -> Result<Vec<Poly<B<K>>>, NoMemory>
    requires module { IsModule (K.ops field.now) phi.now }
    requires width { width ≡ rank_of phi.now * (K.frob_ops field.now).degree }
    requires small { width + 1 < 2 ^ 64 }
    ensures { IfOk result
        (λ v. IsFirstRelation (K.ops field.now) (K.Base.ops (K.base_of field.now)) (K.frob_ops field.now) phi.now v.items) }
{
    let matrix = frobenius_rows(alloc, field, phi)?;
    let one = OreRing::new(field).one(alloc)?;
    let mut power = motive(alloc, field, phi, &one)?;
    let mut rows = PolyRows::new(alloc, width);
    for _ in 0..width + 1 {
        let row = motive_over_t(alloc, field, phi, &power)?;
        rows.push(row)?;
        let basis = kernel(alloc, field.base(), &rows)?;
        if basis.len() > 0 {
            let first = copies(alloc, basis.as_slice()[0].as_slice())?;
            return Ok(first);
        }
        power = times_frobenius(alloc, field, phi, &matrix, power)?;
    }
    // more rows than places can't be independent
    unreachable!()
}
