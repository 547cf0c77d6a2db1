//! Lists of homomorphisms of two modules, whose constants are to be equal, and what their first members tell. Full lists
//! are kept, and what is asked again of two modules is told from their list.
ghost use Rattle.std.specs.Prelude.{◌≡◌, ◌≢◌, ◌≤◌, true, false, IfOk, IfErr, OnOk, OnErr};
ghost use Rattle.residue_field.specs.Top.{ops_of_top};
ghost use Rattle.drinfeld_mod.specs.Module.{IsModule};
ghost use Rattle.kept_lists.specs.Pairs.{has_pair, with_pair, pairs_of};
ghost use Rattle.script_parse.specs.Version.{version_1};
ghost use Rattle.statement_work.specs.Greatest.{greater, greatest_degree};
ghost use Rattle.statement_work.specs.Keeps.{AreItsFullLists};
ghost use Rattle.statement_work.specs.Refusals.{constants_differ};
ghost use Rattle.statement_work.specs.Results.{gives_value};
ghost use Rattle.statement_work.specs.Works.{IsMembersOf, IsItsBoundedList, IsItsFullList, IsIsomorphismOf};
ghost use Rattle.statement_work.specs.steps.Full.{IsTold};

use super::copies::copied_ore;
use super::homomorphism::same_constant;
use answer::Answer;
use drinfeld_mod::Module;
use field_tower::{TopElem, Tower};
use hom_space::bounded_from;
use isomorphism::{isogenous_from, isomorphic, isomorphic_from};
use kept_lists::{KeptList, KeptLists, find};
use ore_poly::Ore;
use ring_core::NoMemory;
use sqlite_items::Items;
use statement_operands::{MeaningKind, Stop};
use std::alloc::Global;

/// What a form asks of the full list.
#[derive(Clone, Copy)]
pub(crate) enum OfFull {
    Members,
    Count,
    First,
}

/// A copy of some twisted polynomials.
fn copied_members(alloc: Global, list: &[Ore<TopElem>]) -> Result<Items<Ore<TopElem>>, NoMemory>
    ensures { IfOk result (λ v. v ≡ list.now) }
{
    let mut copies = Vec::new(alloc);
    for u in list {
        copies.push(copied_ore(alloc, u)?)?;
    }
    Ok(Items::from_vec(copies))
}

/// What the full list of the homomorphisms from `phi` to `psi` tells. A count takes no memory.
fn told(
    alloc: Global,
    t: &Tower,
    phi: &Module<TopElem>,
    psi: &Module<TopElem>,
    asked: OfFull,
    list: &[Ore<TopElem>],
) -> Result<Answer, NoMemory>
    requires { IsItsFullList t.now phi.now psi.now list.now }
    ensures ok { IfOk result (λ a. IsTold t.now phi.now psi.now asked a) }
    ensures elem { IfOk result (λ a. gives_value t.now a ≡ true) }
    ensures counted { asked ≡ OfFull.Count → OnErr result ⊥ }
{
    match asked {
        OfFull::Members => Ok(Answer::Members(copied_members(alloc, list)?)),
        OfFull::Count => {
            let members = list.len() as u32;
            let degree = greatest_degree(list);
            Ok(Answer::Count { members, degree })
        }
        OfFull::First => Ok(Answer::Isogenous(isogenous_from(alloc, t, phi, psi, list)?)),
    }
}

/// What the full list of the homomorphisms from `phi` to `psi` tells, whose constants are to be equal. A list that isn't
/// kept is found, and kept once it has told; the room for it is taken before the work. A count by a kept list takes no
/// memory.
pub(crate) fn of_full(
    alloc: Global,
    t: &Tower,
    kept: &mut KeptLists<TopElem>,
    phi: &Module<TopElem>,
    psi: &Module<TopElem>,
    asked: OfFull,
) -> Result<Answer, Stop>
    requires lists { AreItsFullLists t.now kept.old }
    requires source { IsModule (ops_of_top t.now) phi.now }
    requires target { IsModule (ops_of_top t.now) psi.now }
    ensures ok { IfOk result (λ a. (constants_differ (ops_of_top t.now) phi.now psi.now ≡ false) × IsTold t.now phi.now psi.now asked a) }
    ensures elem { IfOk result (λ a. gives_value t.now a ≡ true) }
    ensures stop { IfErr result (λ c. c ≢ Stop.NoMemory → (constants_differ (ops_of_top t.now) phi.now psi.now ≡ true) × (c ≡ Stop.Meaning MeaningKind.OtherConstant)) }
    ensures lists { AreItsFullLists t.now kept.new }
    ensures pairs { OnOk result (pairs_of kept.new ≡ with_pair (ops_of_top t.now) phi.now psi.now (pairs_of kept.old)) }
    ensures same { OnErr result (pairs_of kept.new ≡ pairs_of kept.old) }
    ensures counted { asked ≡ OfFull.Count → has_pair (ops_of_top t.now) phi.now psi.now (pairs_of kept.old) ≡ true → OnErr result ⊥ }
{
    same_constant(t, phi, psi)?;
    if let Some(list) = find(t, kept, phi, psi) {
        return Ok(told(alloc, t, phi, psi, asked, list)?);
    }
    let source = phi.copied(alloc)?;
    let target = psi.copied(alloc)?;
    kept.room()?;
    let list = hom_space::full(alloc, t, phi, psi)?;
    let answer = told(alloc, t, phi, psi, asked, &list)?;
    let members = Items::from_vec(list);
    let one = KeptList {
        source,
        target,
        members,
    };
    kept.keep(one)?;
    Ok(answer)
}

/// The bounded list of the homomorphisms from `phi` to `psi`, whose constants are to be equal, for the
/// degree `d`.
pub(crate) fn bounded(
    alloc: Global,
    t: &Tower,
    kept: &KeptLists<TopElem>,
    phi: &Module<TopElem>,
    psi: &Module<TopElem>,
    d: u32,
) -> Result<Answer, Stop>
    requires lists { AreItsFullLists t.now kept.now }
    requires source { IsModule (ops_of_top t.now) phi.now }
    requires target { IsModule (ops_of_top t.now) psi.now }
    requires bound { d ≤ version_1.bound }
    ensures ok { IfOk result (λ a. (constants_differ (ops_of_top t.now) phi.now psi.now ≡ false)
        × IsMembersOf a (λ list. IsItsBoundedList t.now phi.now psi.now d list)) }
    ensures elem { IfOk result (λ a. gives_value t.now a ≡ true) }
    ensures stop { IfErr result (λ c. c ≢ Stop.NoMemory → (constants_differ (ops_of_top t.now) phi.now psi.now ≡ true) × (c ≡ Stop.Meaning MeaningKind.OtherConstant)) }
{
    same_constant(t, phi, psi)?;
    let list = match find(t, kept, phi, psi) {
        Some(full) => bounded_from(alloc, t, phi, psi, full, d as usize)?,
        None => hom_space::bounded(alloc, t, phi, psi, d as usize)?,
    };
    Ok(Answer::Members(Items::from_vec(list)))
}

/// The first isomorphism from `phi` to `psi` over the field, whose constants are to be equal, or that there
/// is none.
pub(crate) fn iso(
    alloc: Global,
    t: &Tower,
    kept: &KeptLists<TopElem>,
    phi: &Module<TopElem>,
    psi: &Module<TopElem>,
) -> Result<Answer, Stop>
    requires lists { AreItsFullLists t.now kept.now }
    requires source { IsModule (ops_of_top t.now) phi.now }
    requires target { IsModule (ops_of_top t.now) psi.now }
    ensures ok { IfOk result (λ a. (constants_differ (ops_of_top t.now) phi.now psi.now ≡ false)
        × IsIsomorphismOf t.now phi.now psi.now a) }
    ensures elem { IfOk result (λ a. gives_value t.now a ≡ true) }
    ensures stop { IfErr result (λ c. c ≢ Stop.NoMemory → (constants_differ (ops_of_top t.now) phi.now psi.now ≡ true) × (c ≡ Stop.Meaning MeaningKind.OtherConstant)) }
{
    same_constant(t, phi, psi)?;
    let first = match find(t, kept, phi, psi) {
        Some(full) => isomorphic_from(alloc, t, phi, psi, full)?,
        None => isomorphic(alloc, t, phi, psi)?,
    };
    Ok(Answer::Iso(first))
}

/// The greatest of the degrees of some twisted polynomials, None where there are none or all are zero.
fn greatest_degree(list: &[Ore<TopElem>]) -> Option<usize>
    ensures { result ≡ greatest_degree list.now }
{
    let mut greatest = None;
    for i in (0..list.len()).rev() {
        greatest = greater(list[i].degree(), greatest);
    }
    greatest
}

/// The greater of two degrees, where zero has none.
fn greater(a: Option<usize>, b: Option<usize>) -> Option<usize>
    ensures { result ≡ greater a b }
{
    match a {
        None => b,
        Some(m) => match b {
            None => Some(m),
            Some(n) => Some(m.max(n)),
        },
    }
}
