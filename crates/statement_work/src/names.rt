ghost use Rattle.std.specs.Prelude.{◌≡◌, ◌≢◌, None, IfOk};
ghost use Rattle.statement_operands.specs.Names.{value_of};
ghost use Rattle.statement_work.specs.Works.{IsShown};

use super::copies::{copied_name, copied_ore, copied_value};
use answer::{Answer, Value};
use field_tower::TopElem;
use ore_poly::Ore;
use ring_core::NoMemory;
use script_lang::Name;
use statement_operands::Names;
use std::alloc::Global;

/// What a name stands for.
pub(crate) fn show(alloc: Global, names: &Names, name: &Name) -> Result<Answer, NoMemory>
    requires { value_of names.now name.now.bytes ≢ None }
    ensures { IfOk result (λ a. IsShown (value_of names.now name.now.bytes) a) }
{
    match names.get(name) {
        Some(value) => Ok(Answer::Shown(copied_value(alloc, value)?)),
        None => unreachable!(),
    }
}

/// A new name for a twisted polynomial.
pub(crate) fn ore(alloc: Global, name: &Name, u: &Ore<TopElem>) -> Result<Answer, NoMemory>
    ensures { IfOk result (λ a. a ≡ Answer.Named name.now (Value.Ore u.now)) }
{
    let name = copied_name(alloc, name)?;
    Ok(Answer::Named(name, Value::Ore(copied_ore(alloc, u)?)))
}
