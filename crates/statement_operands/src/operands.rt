ghost use Rattle.std.specs.Prelude.{◌≡◌, ◌≢◌, ◌≤◌, length, option_map, None, true, false, not, IfOk, IfErr, IfSome, OnOk, OnErr};
ghost use Rattle.ring_core.specs.Coeffs.{are_elems, is_canonical};
ghost use Rattle.residue_field.specs.Top.{ops_of_top};
ghost use Rattle.drinfeld_mod.specs.Module.{IsModule};
ghost use Rattle.operand_value.specs.Operands.{list_values};
ghost use Rattle.statement_operands.specs.Asked.{if_some, unknown_module, unknown_twisted, wrong_module, wrong_twisted, unknown_name, wrong_kind};
ghost use Rattle.statement_operands.specs.Fits.{OperandFits, DemandsFit};
ghost use Rattle.statement_operands.specs.Named.{is_name, has_only_named_modules};
ghost use Rattle.statement_operands.specs.Ranks.{unranked_list, unranked_module, unranked_operands};
ghost use Rattle.statement_operands.specs.Resolved.{held, AreResolved};
ghost use Rattle.statement_operands.specs.Seen.{seen};
ghost use Rattle.statement_operands.specs.Sound.{AreValues};
ghost use Rattle.statement_operands.specs.Values.{module_value, twisted_value};

use super::demands::Demands;
use super::names::Names;
use super::stop::{MeaningKind, Stop};
use answer::Value;
use drinfeld_mod::{Module, ModuleFault, make};
use field_tower::{TopElem, Tower};
use operand_value::{list_values, twisted_sum};
use ore_poly::{Ore, OreRing};
use ring_core::NoMemory;
use script_lang::{ModArg, OreArg, Sum};
use std::alloc::Global;

/// The value of an operand: one that a name has, which isn't copied, or one that was made.
#[derive(Drop)]
pub enum Held<'a, T> {
    Kept(&'a T),
    Made(T),
}

impl<'a, T> Held<'a, T> {
    /// The value.
    pub fn get(&self) -> &T
        ensures { result.now ≡ held self.now }
    {
        match self {
            Held::Kept(x) => x,
            Held::Made(x) => x,
        }
    }
}

/// The values of the operands of a form: `phi` and `psi` of those that are modules, `u` and `v` of
/// those that are twisted polynomials.
#[derive(Drop)]
pub struct Operands<'a> {
    pub phi: Option<Held<'a, Module<TopElem>>>,
    pub psi: Option<Held<'a, Module<TopElem>>>,
    pub u: Option<Held<'a, Ore<TopElem>>>,
    pub v: Option<Held<'a, Ore<TopElem>>>,
}

/// The value of an operand that is a twisted polynomial.
fn twisted<'a>(
    alloc: Global,
    t: &Tower,
    names: &'a Names,
    u: &OreArg,
) -> Result<Held<'a, Ore<TopElem>>, NoMemory>
    requires sound { AreValues t.now names.now }
    requires known { unknown_twisted names.now u.now ≡ false }
    requires kind { wrong_twisted names.now u.now ≡ false }
    ensures value { IfOk result (λ h. held h ≡ twisted_value t.now names.now u.now) }
    ensures elem { IfOk result (λ h. is_canonical (ops_of_top t.now) (held h) ≡ true) }
{
    match u {
        OreArg::Name(name) => match names.get(name) {
            Some(Value::Ore(u)) => Ok(Held::Kept(u)),
            _ => unreachable!(),
        },
        OreArg::List(list) => {
            let values = list_values(alloc, t, list.as_slice())?;
            Ok(Held::Made(OreRing::new(t).make(alloc, &values)?))
        }
        OreArg::Terms(sum) => {
            let coeffs = twisted_sum(alloc, t, sum)?;
            Ok(Held::Made(Ore::from_vec(coeffs)))
        }
    }
}

/// The module whose coefficients are the values of the sums, lowest first. NoRank exactly where there
/// are fewer than two, or the last is zero.
pub fn listed_module(alloc: Global, t: &Tower, list: &[Sum]) -> Result<Module<TopElem>, Stop>
    requires { length list.now ≤ 9 }
    ensures value { IfOk result (λ m. m ≡ list_values t.now list.now) }
    ensures elem { IfOk result (λ m. IsModule (ops_of_top t.now) m) }
    ensures ranked { IfOk result (λ m. unranked_list t.now list.now ≡ false) }
    ensures stop { IfErr result (λ c. c ≢ Stop.NoMemory → (c ≡ Stop.Meaning MeaningKind.NoRank) × (unranked_list t.now list.now ≡ true)) }
{
    let values = list_values(alloc, t, list)?;
    match make(alloc, t, &values) {
        Ok(phi) => Ok(phi),
        Err(ModuleFault::NoRank) => Err(Stop::Meaning(MeaningKind::NoRank)),
        Err(ModuleFault::TooLarge) => unreachable!(),
        Err(ModuleFault::NoMemory) => Err(Stop::NoMemory),
    }
}

/// The value of an operand that is a module, or what refuses it.
fn module<'a>(
    alloc: Global,
    t: &Tower,
    names: &'a Names,
    phi: &ModArg,
) -> Result<Held<'a, Module<TopElem>>, Stop>
    requires sound { AreValues t.now names.now }
    requires known { unknown_module names.now phi.now ≡ false }
    requires kind { wrong_module names.now phi.now ≡ false }
    requires fits { OperandFits phi.now }
    ensures value { IfOk result (λ h. held h ≡ module_value t.now names.now phi.now) }
    ensures elem { IfOk result (λ h. IsModule (ops_of_top t.now) (held h)) }
    ensures ranked { IfOk result (λ h. unranked_module t.now phi.now ≡ false) }
    ensures stop { IfErr result (λ c. c ≢ Stop.NoMemory → (c ≡ Stop.Meaning MeaningKind.NoRank) × (unranked_module t.now phi.now ≡ true)) }
    ensures named { is_name phi.now ≡ true → OnErr result ⊥ }
{
    match phi {
        ModArg::Name(name) => match names.get(name) {
            Some(Value::Module(phi)) => Ok(Held::Kept(phi)),
            _ => unreachable!(),
        },
        ModArg::List(list) => Ok(Held::Made(listed_module(alloc, t, list.as_slice())?)),
    }
}

/// The value of an operand that is a twisted polynomial, if there is one.
fn twisted_option<'a>(
    alloc: Global,
    t: &Tower,
    names: &'a Names,
    u: Option<&OreArg>,
) -> Result<Option<Held<'a, Ore<TopElem>>>, NoMemory>
    requires sound { AreValues t.now names.now }
    requires known { if_some (unknown_twisted names.now) (option_map (λ m. m.now) u) ≡ false }
    requires kind { if_some (wrong_twisted names.now) (option_map (λ m. m.now) u) ≡ false }
    ensures value { IfOk result (λ o. option_map held o ≡ option_map (twisted_value t.now names.now) (option_map (λ m. m.now) u.entry)) }
    ensures elem { IfOk result (λ o. IfSome o (λ h. is_canonical (ops_of_top t.now) (held h) ≡ true)) }
    ensures none { u.entry ≡ None → OnErr result ⊥ }
{
    match u {
        None => Ok(None),
        Some(u) => Ok(Some(twisted(alloc, t, names, u)?)),
    }
}

/// The value of an operand that is a module, if there is one, or what refuses it.
fn module_option<'a>(
    alloc: Global,
    t: &Tower,
    names: &'a Names,
    phi: Option<&ModArg>,
) -> Result<Option<Held<'a, Module<TopElem>>>, Stop>
    requires sound { AreValues t.now names.now }
    requires known { if_some (unknown_module names.now) (option_map (λ m. m.now) phi) ≡ false }
    requires kind { if_some (wrong_module names.now) (option_map (λ m. m.now) phi) ≡ false }
    requires fits { IfSome (option_map (λ m. m.now) phi) OperandFits }
    ensures value { IfOk result (λ o. option_map held o ≡ option_map (module_value t.now names.now) (option_map (λ m. m.now) phi.entry)) }
    ensures elem { IfOk result (λ o. IfSome o (λ h. IsModule (ops_of_top t.now) (held h))) }
    ensures ranked { OnOk result (if_some (unranked_module t.now) (option_map (λ m. m.now) phi.entry) ≡ false) }
    ensures stop { IfErr result (λ c. c ≢ Stop.NoMemory → (c ≡ Stop.Meaning MeaningKind.NoRank) × (if_some (unranked_module t.now) (option_map (λ m. m.now) phi.entry) ≡ true)) }
    ensures named { if_some (λ m. not (is_name m)) (option_map (λ m. m.now) phi.entry) ≡ false → OnErr result ⊥ }
{
    match phi {
        None => Ok(None),
        Some(phi) => Ok(Some(module(alloc, t, names, phi)?)),
    }
}

/// The values of the operands of a form, or what refuses a list among them. The twisted polynomials
/// come first, so that a size that one of them passes goes before a list that is no module. Names that are modules take
/// no memory.
pub fn resolve<'a>(
    alloc: Global,
    t: &Tower,
    names: &'a Names,
    d: &Demands<'_>,
) -> Result<Operands<'a>, Stop>
    requires sound { AreValues t.now names.now }
    requires known { unknown_name names.now (seen d.now) ≡ false }
    requires kind { wrong_kind names.now (seen d.now) ≡ false }
    requires fits { DemandsFit (seen d.now) }
    ensures resolved { IfOk result (λ o. AreResolved t.now names.now (seen d.now) o) }
    ensures ranked { OnOk result (unranked_operands t.now (seen d.now) ≡ false) }
    ensures stop { IfErr result (λ c. c ≢ Stop.NoMemory → (c ≡ Stop.Meaning MeaningKind.NoRank) × (unranked_operands t.now (seen d.now) ≡ true)) }
    ensures named { has_only_named_modules (seen d.now) ≡ true → OnErr result ⊥ }
{
    let u = twisted_option(alloc, t, names, d.u)?;
    let v = twisted_option(alloc, t, names, d.v)?;
    let phi = module_option(alloc, t, names, d.phi)?;
    let psi = module_option(alloc, t, names, d.psi)?;
    Ok(Operands { phi, psi, u, v })
}
