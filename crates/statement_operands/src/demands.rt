ghost use Rattle.std.specs.Prelude.{◌≡◌, Some, option_map};
ghost use Rattle.statement_operands.specs.Demands.{nothing, of_module, of_modules, of_twisted, giving, demands};
ghost use Rattle.statement_operands.specs.Seen.{seen};

use script_lang::{ModArg, Name, OreArg, Sum};
use script_statement::Form;

/// The field that a form needs.
#[derive(Clone, Copy, Debug, PartialEq, Eq)]
pub enum Need {
    /// No base is set yet.
    NoBase,
    /// A base is set and no top.
    NoTop,
    /// A top is set.
    ATop,
}

/// What a form asks of the state.
#[derive(Clone, Copy)]
pub struct Demands<'s> {
    pub field: Need,
    pub phi: Option<&'s ModArg>,
    pub psi: Option<&'s ModArg>,
    pub u: Option<&'s OreArg>,
    pub v: Option<&'s OreArg>,
    pub shown: Option<&'s Name>,
    pub list: Option<&'s [Sum]>,
    pub gives: Option<&'s Name>,
}

fn nothing<'s>(field: Need) -> Demands<'s>
    ensures { seen result ≡ nothing field }
{
    Demands {
        field,
        phi: None,
        psi: None,
        u: None,
        v: None,
        shown: None,
        list: None,
        gives: None,
    }
}

fn of_module(phi: &ModArg) -> Demands<'_>
    ensures { seen result ≡ of_module phi.now }
{
    Demands {
        phi: Some(phi),
        ..nothing(Need::ATop)
    }
}

fn of_modules<'s>(phi: &'s ModArg, psi: &'s ModArg) -> Demands<'s>
    ensures { seen result ≡ of_modules phi.now psi.now }
{
    Demands {
        phi: Some(phi),
        psi: Some(psi),
        ..nothing(Need::ATop)
    }
}

fn of_twisted<'s>(u: &'s OreArg, v: &'s OreArg) -> Demands<'s>
    ensures { seen result ≡ of_twisted u.now v.now }
{
    Demands {
        v: Some(v),
        ..and_twisted(u, nothing(Need::ATop))
    }
}

/// The demands, and a twisted polynomial.
fn and_twisted<'s>(u: &'s OreArg, demands: Demands<'s>) -> Demands<'s>
    ensures { seen result ≡ record (seen demands.entry) { u = Some u.now } }
{
    Demands {
        u: Some(u),
        ..demands
    }
}

/// The demands, and a new name where one is given.
fn giving<'s>(name: Option<&'s Name>, demands: Demands<'s>) -> Demands<'s>
    ensures { seen result ≡ giving (option_map (λ n. n.now) name.entry) (seen demands.entry) }
{
    Demands {
        gives: name,
        ..demands
    }
}

fn of_list<'s>(list: &'s [Sum]) -> Demands<'s>
    ensures { seen result ≡ record (nothing Need.ATop) { list = Some list.now } }
{
    Demands {
        list: Some(list),
        ..nothing(Need::ATop)
    }
}

fn of_name<'s>(name: &'s Name) -> Demands<'s>
    ensures { seen result ≡ record (nothing Need.ATop) { shown = Some name.now } }
{
    Demands {
        shown: Some(name),
        ..nothing(Need::ATop)
    }
}

/// What a form asks of the state.
pub fn asked_by(form: &Form) -> Demands<'_>
    ensures { seen result ≡ demands form.now }
{
    match form {
        Form::Base { .. } => nothing(Need::NoBase),
        Form::Over { .. } => nothing(Need::NoTop),
        Form::Module { name, list } => giving(Some(name), of_list(list.as_slice())),
        Form::Ore { name, value } => giving(Some(name), and_twisted(value, nothing(Need::ATop))),
        Form::Show { name } => of_name(name),
        Form::Rank { phi } => of_module(phi),
        Form::Char { phi } => of_module(phi),
        Form::Height { phi } => of_module(phi),
        Form::Ordinary { phi } => of_module(phi),
        Form::Supersingular { phi } => of_module(phi),
        Form::J { phi, .. } => of_module(phi),
        Form::Image { phi, name, .. } => giving(name.as_ref(), of_module(phi)),
        Form::Add { u, v, name } => giving(name.as_ref(), of_twisted(u, v)),
        Form::Sub { u, v, name } => giving(name.as_ref(), of_twisted(u, v)),
        Form::Mul { u, v, name } => giving(name.as_ref(), of_twisted(u, v)),
        Form::Rdiv { u, v } => of_twisted(u, v),
        Form::Ldiv { u, v } => of_twisted(u, v),
        Form::Common { u, v } => of_twisted(u, v),
        Form::Multiple { u, v } => of_twisted(u, v),
        Form::Check { phi, psi, u } => and_twisted(u, of_modules(phi, psi)),
        Form::Quotient { phi, u, name } => giving(name.as_ref(), and_twisted(u, of_module(phi))),
        Form::Iso { phi, psi } => of_modules(phi, psi),
        Form::Isogenous { phi, psi } => of_modules(phi, psi),
        Form::Bounded { phi, psi, .. } => of_modules(phi, psi),
        Form::Full { phi, psi } => of_modules(phi, psi),
        Form::Fullsize { phi, psi } => of_modules(phi, psi),
        Form::Motive { phi, u } => and_twisted(u, of_module(phi)),
        Form::Frob { phi } => of_module(phi),
        Form::Frobpower { phi } => of_module(phi),
    }
}
