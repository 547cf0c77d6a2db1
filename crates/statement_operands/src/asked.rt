ghost use Rattle.std.specs.Prelude.{◌≡◌, option_map};
ghost use Rattle.statement_operands.specs.Asked.{if_some, is_unknown, unknown_module, unknown_twisted, wrong_module, wrong_twisted, unknown_name, wrong_kind, name_taken};
ghost use Rattle.statement_operands.specs.Seen.{seen};

use super::demands::Demands;
use super::names::Names;
use answer::Value;
use script_lang::{ModArg, Name, OreArg};

fn is_unknown(names: &Names, name: &Name) -> bool
    ensures { result ≡ is_unknown names.now name.now }
{
    names.get(name).is_none()
}

fn unknown_module(names: &Names, phi: Option<&ModArg>) -> bool
    ensures { result ≡ if_some (unknown_module names.now) (option_map (λ m. m.now) phi.entry) }
{
    match phi {
        Some(ModArg::Name(name)) => is_unknown(names, name),
        _ => false,
    }
}

fn unknown_twisted(names: &Names, u: Option<&OreArg>) -> bool
    ensures { result ≡ if_some (unknown_twisted names.now) (option_map (λ m. m.now) u.entry) }
{
    match u {
        Some(OreArg::Name(name)) => is_unknown(names, name),
        _ => false,
    }
}

fn unknown_shown(names: &Names, name: Option<&Name>) -> bool
    ensures { result ≡ if_some (is_unknown names.now) (option_map (λ m. m.now) name.entry) }
{
    match name {
        Some(name) => is_unknown(names, name),
        None => false,
    }
}

fn wrong_module(names: &Names, phi: Option<&ModArg>) -> bool
    ensures { result ≡ if_some (wrong_module names.now) (option_map (λ m. m.now) phi.entry) }
{
    let Some(ModArg::Name(name)) = phi else {
        return false;
    };
    match names.get(name) {
        Some(Value::Ore(_)) => true,
        _ => false,
    }
}

fn wrong_twisted(names: &Names, u: Option<&OreArg>) -> bool
    ensures { result ≡ if_some (wrong_twisted names.now) (option_map (λ m. m.now) u.entry) }
{
    let Some(OreArg::Name(name)) = u else {
        return false;
    };
    match names.get(name) {
        Some(Value::Module(_)) => true,
        _ => false,
    }
}

/// Whether an operand is a name that is not defined.
pub fn unknown_name(names: &Names, d: &Demands<'_>) -> bool
    ensures { result ≡ unknown_name names.now (seen d.now) }
{
    unknown_module(names, d.phi)
        || unknown_module(names, d.psi)
        || unknown_twisted(names, d.u)
        || unknown_twisted(names, d.v)
        || unknown_shown(names, d.shown)
}

/// Whether an operand is the name of a value of the other kind.
pub fn wrong_kind(names: &Names, d: &Demands<'_>) -> bool
    ensures { result ≡ wrong_kind names.now (seen d.now) }
{
    wrong_module(names, d.phi)
        || wrong_module(names, d.psi)
        || wrong_twisted(names, d.u)
        || wrong_twisted(names, d.v)
}

/// Whether the new name is defined already.
pub fn name_taken(names: &Names, d: &Demands<'_>) -> bool
    ensures { result ≡ name_taken names.now (seen d.now) }
{
    match d.gives {
        Some(name) => names.get(name).is_some(),
        None => false,
    }
}
