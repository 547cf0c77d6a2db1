ghost use Rattle.std.specs.Prelude.{◌≡◌, ◌≢◌, None, Some, option_map, true, false, IfOk, IfErr, OnOk, OnErr};
ghost use Rattle.kept_lists.specs.Pairs.{pairs_of};
ghost use Rattle.script_parse.specs.Version.{version_1};
ghost use Rattle.script_parse.specs.Within.{IsWithin};
ghost use Rattle.statement_operands.specs.Asked.{unknown_name, wrong_kind};
ghost use Rattle.statement_operands.specs.Demands.{demands};
ghost use Rattle.statement_operands.specs.Ranks.{unranked_operands};
ghost use Rattle.statement_operands.specs.Resolved.{held, AreOperands, AreResolved};
ghost use Rattle.statement_operands.specs.Seen.{seen};
ghost use Rattle.statement_operands.specs.Sound.{AreValues};
ghost use Rattle.statement_work.specs.Keeps.{AreItsFullLists, pairs_after, is_kept_count};
ghost use Rattle.statement_work.specs.Refusals.{work_refusal};
ghost use Rattle.statement_work.specs.Results.{gives_value};
ghost use Rattle.statement_work.specs.Works.{Works};
ghost use Rattle.statement_work.specs.steps.Full.{keeps_list};

use super::division::{common, ldiv, multiple, rdiv};
use super::frobenius::{frob, frobpower, motive};
use super::homomorphism::check;
use super::invariants::{characteristic, height, j, ordinary, rank, supersingular};
use super::lists::{OfFull, bounded, iso, of_full};
use super::modules::{image, module, quotient};
use super::names::{ore, show};
use super::sums::{add, mul, sub};
use answer::Answer;
use field_tower::{TopElem, Tower};
use kept_lists::KeptLists;
use script_statement::Form;
use statement_operands::{Demands, Held, Names, Need, Operands, Stop, resolve};
use std::alloc::Global;

/// The operand, which is there.
fn given<'s, 'a, T>(operand: &'s Option<Held<'a, T>>) -> &'s T
    requires { operand.now ≢ None }
    ensures { Some result.now ≡ option_map held operand.now }
{
    match operand {
        Some(held) => held.get(),
        None => unreachable!(),
    }
}

/// What a form answers or refuses that has no full list kept, once its operands have values.
#[tactic(auto, unfolding(crate::specs::Refusals::work_refusal))]
fn plain_work(
    alloc: Global,
    t: &Tower,
    names: &Names,
    kept: &KeptLists<TopElem>,
    form: &Form,
    o: &Operands<'_>,
) -> Result<Answer, Stop>
    requires known { unknown_name names.now (demands form.now) ≡ false }
    requires within { IsWithin version_1 form.now }
    requires resolved { AreResolved t.now names.now (demands form.now) o.now }
    requires ranked { unranked_operands t.now (demands form.now) ≡ false }
    requires over { (demands form.now).field ≡ Need.ATop }
    requires plain { keeps_list form.now ≡ false }
    requires lists { AreItsFullLists t.now kept.now }
    ensures ok { IfOk result (λ a. (work_refusal t.now names.now form.now ≡ None) × Works t.now names.now form.now a) }
    ensures elem { IfOk result (λ a. gives_value t.now a ≡ true) }
    ensures stop { IfErr result (λ c. c ≢ Stop.NoMemory → work_refusal t.now names.now form.now ≡ Some c) }
{
    match form {
        Form::Module { name, list } => module(alloc, t, name, list.as_slice()),
        Form::Ore { name, .. } => Ok(ore(alloc, name, given(&o.u))?),
        Form::Show { name } => Ok(show(alloc, names, name)?),
        Form::Rank { .. } => Ok(rank(given(&o.phi))),
        Form::Char { .. } => Ok(characteristic(alloc, t, given(&o.phi))?),
        Form::Height { .. } => Ok(height(alloc, t, given(&o.phi))?),
        Form::Ordinary { .. } => Ok(ordinary(alloc, t, given(&o.phi))?),
        Form::Supersingular { .. } => Ok(supersingular(alloc, t, given(&o.phi))?),
        Form::J { k, .. } => j(t, given(&o.phi), *k),
        Form::Image { a, .. } => Ok(image(alloc, t, given(&o.phi), a)?),
        Form::Add { .. } => Ok(add(alloc, t, given(&o.u), given(&o.v))?),
        Form::Sub { .. } => Ok(sub(alloc, t, given(&o.u), given(&o.v))?),
        Form::Mul { .. } => mul(alloc, t, given(&o.u), given(&o.v)),
        Form::Rdiv { .. } => rdiv(alloc, t, given(&o.u), given(&o.v)),
        Form::Ldiv { .. } => ldiv(alloc, t, given(&o.u), given(&o.v)),
        Form::Common { .. } => Ok(common(alloc, t, given(&o.u), given(&o.v))?),
        Form::Multiple { .. } => Ok(multiple(alloc, t, given(&o.u), given(&o.v))?),
        Form::Check { .. } => check(alloc, t, given(&o.phi), given(&o.psi), given(&o.u)),
        Form::Quotient { .. } => Ok(quotient(alloc, t, given(&o.phi), given(&o.u))?),
        Form::Iso { .. } => iso(alloc, t, kept, given(&o.phi), given(&o.psi)),
        Form::Bounded { d, .. } => bounded(alloc, t, kept, given(&o.phi), given(&o.psi), *d),
        Form::Motive { .. } => Ok(motive(alloc, t, given(&o.phi), given(&o.u))?),
        Form::Frob { .. } => Ok(frob(alloc, t, given(&o.phi))?),
        Form::Frobpower { .. } => Ok(frobpower(alloc, t, given(&o.phi))?),
        _ => unreachable!(),
    }
}

/// What a form over a top field answers or refuses once its operands have values.
#[tactic(auto, unfolding(crate::specs::Refusals::work_refusal))]
fn work(
    alloc: Global,
    t: &Tower,
    names: &Names,
    kept: &mut KeptLists<TopElem>,
    form: &Form,
    o: &Operands<'_>,
) -> Result<Answer, Stop>
    requires known { unknown_name names.now (demands form.now) ≡ false }
    requires within { IsWithin version_1 form.now }
    requires resolved { AreResolved t.now names.now (demands form.now) o.now }
    requires ranked { unranked_operands t.now (demands form.now) ≡ false }
    requires over { (demands form.now).field ≡ Need.ATop }
    requires lists { AreItsFullLists t.now kept.old }
    ensures ok { IfOk result (λ a. (work_refusal t.now names.now form.now ≡ None) × Works t.now names.now form.now a) }
    ensures elem { IfOk result (λ a. gives_value t.now a ≡ true) }
    ensures stop { IfErr result (λ c. c ≢ Stop.NoMemory → work_refusal t.now names.now form.now ≡ Some c) }
    ensures lists { AreItsFullLists t.now kept.new }
    ensures pairs { OnOk result (pairs_of kept.new ≡ pairs_after t.now names.now form.now (pairs_of kept.old)) }
    ensures same { OnErr result (pairs_of kept.new ≡ pairs_of kept.old) }
    ensures counted { is_kept_count t.now names.now form.now (pairs_of kept.old) ≡ true → OnErr result ⊥ }
{
    match form {
        Form::Isogenous { .. } => {
            of_full(alloc, t, kept, given(&o.phi), given(&o.psi), OfFull::First)
        }
        Form::Full { .. } => of_full(
            alloc,
            t,
            kept,
            given(&o.phi),
            given(&o.psi),
            OfFull::Members,
        ),
        Form::Fullsize { .. } => {
            of_full(alloc, t, kept, given(&o.phi), given(&o.psi), OfFull::Count)
        }
        _ => plain_work(alloc, t, names, kept, form, o),
    }
}

/// What a form over a top field answers or refuses, where the names meet what it asks. `isogenous`, `full` and `fullsize`
/// have the full list of their two modules kept, and what the forms on lists, isomorphisms and isogenies ask of a kept pair is
/// told from its list; a count for two names by a kept list takes no memory.
pub fn answer_of(
    alloc: Global,
    t: &Tower,
    names: &Names,
    kept: &mut KeptLists<TopElem>,
    form: &Form,
    d: &Demands<'_>,
) -> Result<Answer, Stop>
    requires asked { seen d.now ≡ demands form.now }
    requires sound { AreValues t.now names.now }
    requires known { unknown_name names.now (demands form.now) ≡ false }
    requires kind { wrong_kind names.now (demands form.now) ≡ false }
    requires within { IsWithin version_1 form.now }
    requires over { (demands form.now).field ≡ Need.ATop }
    requires lists { AreItsFullLists t.now kept.old }
    ensures ok { IfOk result (λ a. (work_refusal t.now names.now form.now ≡ None) × Works t.now names.now form.now a) }
    ensures operands { IfOk result (λ a. AreOperands t.now names.now (demands form.now)) }
    ensures elem { IfOk result (λ a. gives_value t.now a ≡ true) }
    ensures stop { IfErr result (λ c. c ≢ Stop.NoMemory → work_refusal t.now names.now form.now ≡ Some c) }
    ensures lists { AreItsFullLists t.now kept.new }
    ensures pairs { OnOk result (pairs_of kept.new ≡ pairs_after t.now names.now form.now (pairs_of kept.old)) }
    ensures same { OnErr result (pairs_of kept.new ≡ pairs_of kept.old) }
    ensures counted { is_kept_count t.now names.now form.now (pairs_of kept.old) ≡ true → OnErr result ⊥ }
{
    match resolve(alloc, t, names, d) {
        Ok(operands) => work(alloc, t, names, kept, form, &operands),
        Err(stop) => Err(stop),
    }
}
