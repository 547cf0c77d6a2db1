ghost use Rattle.std.specs.Prelude.{◌≡◌, IfOk};
ghost use Rattle.statement_work.specs.Results.{named_value};

use answer::{Answer, Value};
use field_tower::TopElem;
use ore_poly::Ore;
use ring_core::NoMemory;
use script_lang::Name;
use sqlite_items::Items;
use std::alloc::Global;

/// A copy of the value that an answer has for a new name, None where it has none; want of memory alone
/// refuses it.
pub fn named_value(alloc: Global, answer: &Answer) -> Result<Option<Value>, NoMemory>
    ensures { IfOk result (λ v. v ≡ named_value answer.now) }
{
    match answer {
        Answer::Named(_, value) => Ok(Some(copied_value(alloc, value)?)),
        Answer::Twisted(u) => Ok(Some(Value::Ore(copied_ore(alloc, u)?))),
        Answer::Quotient(phi) => Ok(Some(Value::Module(phi.copied(alloc)?))),
        _ => Ok(None),
    }
}

/// A copy of a value.
pub(crate) fn copied_value(alloc: Global, value: &Value) -> Result<Value, NoMemory>
    ensures { IfOk result (λ v. v ≡ value.now) }
{
    match value {
        Value::Module(phi) => Ok(Value::Module(phi.copied(alloc)?)),
        Value::Ore(u) => Ok(Value::Ore(copied_ore(alloc, u)?)),
    }
}

/// A copy of a twisted polynomial.
pub(crate) fn copied_ore(alloc: Global, u: &Ore<TopElem>) -> Result<Ore<TopElem>, NoMemory>
    ensures { IfOk result (λ v. v ≡ u.now) }
{
    Ok(Ore::from_vec(Vec::from_slice(alloc, u.as_slice())?))
}

/// A copy of a name.
pub(crate) fn copied_name(alloc: Global, name: &Name) -> Result<Name, NoMemory>
    ensures { IfOk result (λ n. n ≡ name.now) }
{
    Ok(Name {
        bytes: Items::from_slice(alloc, name.bytes.as_slice())?,
    })
}
