ghost use Rattle.std.specs.Prelude.{◌≡◌, ◌≢◌, None, Some, true, false, option_map, IfOk, IfErr, OnOk, OnErr};
ghost use Rattle.kept_lists.specs.Pairs.{pairs_of};
ghost use Rattle.script_parse.specs.Version.{version_1};
ghost use Rattle.script_parse.specs.Within.{IsWithin};
ghost use Rattle.statement_operands.specs.Asked.{unknown_name, wrong_kind, name_taken};
ghost use Rattle.statement_operands.specs.Demands.{demands};
ghost use Rattle.statement_operands.specs.Names.{value_of};
ghost use Rattle.statement_operands.specs.Resolved.{AreOperands};
ghost use Rattle.statement_operands.specs.Seen.{seen};
ghost use Rattle.statement_operands.specs.Sound.{AreValues};
ghost use Rattle.statement_work.specs.Keeps.{AreItsFullLists, pairs_after, is_kept_count};
ghost use Rattle.statement_work.specs.Refusals.{work_refusal};
ghost use Rattle.statement_work.specs.Results.{gives_value, named_value};
ghost use Rattle.statement_work.specs.Works.{Works};
ghost use Rattle.session.specs.Steps.{added, with_name};

use answer::Answer;
use field_tower::{TopElem, Tower};
use kept_lists::KeptLists;
use ring_core::NoMemory;
use script_statement::Form;
use statement_operands::{Demands, Names, Need, Stop};
use statement_work::{answer_of, named_value};
use std::alloc::Global;

/// Adds the name of a result, where the answer has a value for it.
fn give_name(
    alloc: Global,
    t: &Tower,
    names: &mut Names,
    key: Vec<u8>,
    answer: &Answer,
) -> Result<(), NoMemory>
    requires free { value_of names.old key.items ≡ None }
    requires sound { AreValues t.now names.old }
    requires elem { gives_value t.now answer.now ≡ true }
    ensures ok { OnOk result (names.new ≡ added key.items (named_value answer.now) names.old) }
    ensures same { OnErr result (names.new ≡ names.old) }
    ensures sound { AreValues t.now names.new }
{
    let Some(value) = named_value(alloc, answer)? else {
        return Ok(());
    };
    names.define(key, value)
}

/// The bytes of the new name, if there is one, and room for it.
fn room(alloc: Global, names: &mut Names, d: &Demands<'_>) -> Result<Option<Vec<u8>>, NoMemory>
    ensures key { IfOk result (λ o. option_map (λ key. key.items) o ≡ option_map (λ n. n.bytes) (seen d.now).gives) }
    ensures same { names.new ≡ names.old }
    ensures none { (seen d.now).gives ≡ None → OnErr result ⊥ }
{
    match d.gives {
        None => Ok(None),
        Some(name) => Ok(Some(names.room(alloc, name)?)),
    }
}

/// The answer of a form over a top field, and its name. The room for the name is taken before the
/// work begins.
pub(crate) fn answer_over(
    alloc: Global,
    t: &Tower,
    names: &mut Names,
    kept: &mut KeptLists<TopElem>,
    form: &Form,
    d: &Demands<'_>,
) -> Result<Answer, Stop>
    requires asked { seen d.now ≡ demands form.now }
    requires sound { AreValues t.now names.old }
    requires known { unknown_name names.old (demands form.now) ≡ false }
    requires kind { wrong_kind names.old (demands form.now) ≡ false }
    requires free { name_taken names.old (demands form.now) ≡ false }
    requires within { IsWithin version_1 form.now }
    requires over { (demands form.now).field ≡ Need.ATop }
    requires lists { AreItsFullLists t.now kept.old }
    ensures ok { IfOk result (λ a. (work_refusal t.now names.old form.now ≡ None) × Works t.now names.old form.now a
        × (names.new ≡ with_name (demands form.now).gives (named_value a) names.old)) }
    ensures operands { IfOk result (λ a. AreOperands t.now names.old (demands form.now)) }
    ensures same { OnErr result (names.new ≡ names.old) }
    ensures sound { AreValues t.now names.new }
    ensures stop { IfErr result (λ c. c ≢ Stop.NoMemory → work_refusal t.now names.old form.now ≡ Some c) }
    ensures lists { AreItsFullLists t.now kept.new }
    ensures pairs { OnOk result (pairs_of kept.new ≡ pairs_after t.now names.old form.now (pairs_of kept.old)) }
    ensures unkept { OnErr result (pairs_of kept.new ≡ pairs_of kept.old) }
    ensures counted { is_kept_count t.now names.old form.now (pairs_of kept.old) ≡ true → OnErr result ⊥ }
{
    let key = room(alloc, names, d)?;
    let answer = answer_of(alloc, t, names, kept, form, d)?;
    if let Some(key) = key {
        give_name(alloc, t, names, key, &answer)?;
    }
    Ok(answer)
}
