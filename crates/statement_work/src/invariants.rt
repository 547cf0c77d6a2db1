//! The data of a Drinfeld module: rank, characteristic, height and invariants.
ghost use Rattle.std.specs.Prelude.{◌≡◌, ◌≢◌, ℕ, ◌≤◌, List, not, true, false, IfOk, IfErr};
ghost use Rattle.residue_field.specs.declared.TopElem.{TopElem};
ghost use Rattle.residue_field.specs.Base.{size_of};
ghost use Rattle.residue_field.specs.Top.{ops_of_top};
ghost use Rattle.drinfeld_mod.specs.Module.{IsModule, rank_of};
ghost use Rattle.drinfeld_mod.specs.Invariant.{IsInvariant};
ghost use Rattle.statement_work.specs.Refusals.{has_invariant};
ghost use Rattle.statement_work.specs.Results.{gives_value};
ghost use Rattle.statement_work.specs.Works.{IsTruth, IsItsCharacteristic, IsItsHeight};

use answer::Answer;
use drinfeld_mod::{self, Module};
use field_tower::{TopElem, Tower};
use ring_core::{FrobField, NoMemory};
use statement_operands::{MeaningKind, Stop};
use std::alloc::Global;

/// The rank of a module.
pub(crate) fn rank(phi: &Module<TopElem>) -> Answer
    requires { rank_of phi.now ≤ 8 }
    ensures { result ≡ Answer.Number (rank_of phi.now) }
{
    Answer::Number(phi.rank() as u32)
}

/// The characteristic of a module.
pub(crate) fn characteristic(
    alloc: Global,
    t: &Tower,
    phi: &Module<TopElem>,
) -> Result<Answer, NoMemory>
    requires { IsModule (ops_of_top t.now) phi.now }
    ensures ok { IfOk result (λ a. (p : List ℕ) × (a ≡ Answer.BasePoly p) × IsItsCharacteristic t.now phi.now p) }
    ensures elem { IfOk result (λ a. gives_value t.now a ≡ true) }
{
    let p = drinfeld_mod::characteristic(alloc, t, phi)?;
    Ok(Answer::BasePoly(p))
}

/// The height of a module.
pub(crate) fn height(alloc: Global, t: &Tower, phi: &Module<TopElem>) -> Result<Answer, NoMemory>
    requires { IsModule (ops_of_top t.now) phi.now }
    ensures ok { IfOk result (λ a. (h : ℕ) × (a ≡ Answer.Number h) × IsItsHeight t.now phi.now h) }
    ensures elem { IfOk result (λ a. gives_value t.now a ≡ true) }
{
    let h = drinfeld_mod::height(alloc, t, phi)?;
    Ok(Answer::Number(h as u32))
}

/// Whether the height of a module is one.
pub(crate) fn ordinary(alloc: Global, t: &Tower, phi: &Module<TopElem>) -> Result<Answer, NoMemory>
    requires { IsModule (ops_of_top t.now) phi.now }
    ensures ok { IfOk result (λ a. IsTruth a (IsItsHeight t.now phi.now 1)) }
    ensures elem { IfOk result (λ a. gives_value t.now a ≡ true) }
{
    let yes = drinfeld_mod::is_ordinary(alloc, t, phi)?;
    Ok(Answer::Truth(yes))
}

/// Whether the height of a module is its rank.
pub(crate) fn supersingular(
    alloc: Global,
    t: &Tower,
    phi: &Module<TopElem>,
) -> Result<Answer, NoMemory>
    requires { IsModule (ops_of_top t.now) phi.now }
    ensures ok { IfOk result (λ a. IsTruth a (IsItsHeight t.now phi.now (rank_of phi.now))) }
    ensures elem { IfOk result (λ a. gives_value t.now a ≡ true) }
{
    let yes = drinfeld_mod::is_supersingular(alloc, t, phi)?;
    Ok(Answer::Truth(yes))
}

/// The invariant `j_k` of a module, which has it where `k` is from 1 to the rank less one.
pub(crate) fn j(t: &Tower, phi: &Module<TopElem>, k: u32) -> Result<Answer, Stop>
    requires { IsModule (ops_of_top t.now) phi.now }
    ensures ok { IfOk result (λ a. (not (has_invariant phi.now k) ≡ false)
        × ((x : TopElem) × (a ≡ Answer.Element x) × IsInvariant (ops_of_top t.now) (size_of t.now.base) phi.now k x)) }
    ensures elem { IfOk result (λ a. gives_value t.now a ≡ true) }
    ensures stop { IfErr result (λ c. c ≢ Stop.NoMemory → (not (has_invariant phi.now k) ≡ true) × (c ≡ Stop.Meaning MeaningKind.NoInvariant)) }
{
    match drinfeld_mod::j(t, t.base().q(), phi, k as usize) {
        Some(x) => Ok(Answer::Element(x)),
        None => Err(Stop::Meaning(MeaningKind::NoInvariant)),
    }
}
