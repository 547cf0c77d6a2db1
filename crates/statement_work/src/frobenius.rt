//! Motive coordinates, and the relations of the Frobenius of a module.
ghost use Rattle.std.specs.Prelude.{◌≡◌, ℕ, List, true, IfOk};
ghost use Rattle.ring_core.specs.Coeffs.{is_canonical};
ghost use Rattle.residue_field.specs.declared.TopElem.{TopElem};
ghost use Rattle.residue_field.specs.Top.{ops_of_top, frob_of_top};
ghost use Rattle.drinfeld_mod.specs.Module.{IsModule};
ghost use Rattle.motive_coords.specs.Motive.{IsMotive};
ghost use Rattle.statement_work.specs.Results.{gives_value};
ghost use Rattle.statement_work.specs.Works.{IsItsLeastRelation, IsPowerOf};

use answer::Answer;
use drinfeld_mod::Module;
use field_tower::{TopElem, Tower};
use frobenius_rel::{NoPower, least_relation, rank_power};
use ore_poly::Ore;
use ring_core::NoMemory;
use sqlite_items::Items;
use std::alloc::Global;

/// The motive coordinates of `u`.
pub(crate) fn motive(
    alloc: Global,
    t: &Tower,
    phi: &Module<TopElem>,
    u: &Ore<TopElem>,
) -> Result<Answer, NoMemory>
    requires module { IsModule (ops_of_top t.now) phi.now }
    requires elem { is_canonical (ops_of_top t.now) u.now ≡ true }
    ensures ok { IfOk result (λ a. (list : List (List TopElem)) × (a ≡ Answer.Motive list) × IsMotive (ops_of_top t.now) (frob_of_top t.now).frob phi.now u.now list) }
    ensures elem { IfOk result (λ a. gives_value t.now a ≡ true) }
{
    let list = motive_coords::motive(alloc, t, phi, u)?;
    Ok(Answer::Motive(Items::from_vec(list)))
}

/// The least relation of Frobenius.
pub(crate) fn frob(alloc: Global, t: &Tower, phi: &Module<TopElem>) -> Result<Answer, NoMemory>
    requires { IsModule (ops_of_top t.now) phi.now }
    ensures ok { IfOk result (λ a. (list : List (List ℕ)) × (a ≡ Answer.Relation list) × IsItsLeastRelation t.now phi.now list) }
    ensures elem { IfOk result (λ a. gives_value t.now a ≡ true) }
{
    let list = least_relation(alloc, t, phi)?;
    Ok(Answer::Relation(Items::from_vec(list)))
}

/// The power of the least relation of Frobenius that has the degree of the rank, or why there is none.
pub(crate) fn frobpower(alloc: Global, t: &Tower, phi: &Module<TopElem>) -> Result<Answer, NoMemory>
    requires { IsModule (ops_of_top t.now) phi.now }
    ensures ok { IfOk result (λ a. IsPowerOf t.now phi.now a) }
    ensures elem { IfOk result (λ a. gives_value t.now a ≡ true) }
{
    match rank_power(alloc, t, phi) {
        Ok(list) => Ok(Answer::Relation(Items::from_vec(list))),
        Err(NoPower::Degrees { m, r }) => Ok(Answer::NoPower { m, r }),
        Err(NoPower::NoMemory) => Err(NoMemory),
    }
}
