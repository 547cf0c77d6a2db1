//! New modules, images and quotients.
ghost use Rattle.std.specs.Prelude.{◌≡◌, ◌≢◌, ◌≤◌, true, false, IfOk, IfErr, length};
ghost use Rattle.ring_core.specs.Coeffs.{is_canonical};
ghost use Rattle.residue_field.specs.Base.{ops_of};
ghost use Rattle.residue_field.specs.Top.{ops_of_top, frob_of_top};
ghost use Rattle.drinfeld_mod.specs.Module.{IsModule};
ghost use Rattle.drinfeld_mod.specs.Image.{image as image_by};
ghost use Rattle.statement_operands.specs.Ranks.{unranked_list};
ghost use Rattle.operand_value.specs.Operands.{list_values, base_polynomial};
ghost use Rattle.statement_work.specs.Results.{gives_value};
ghost use Rattle.statement_work.specs.Works.{IsQuotientOf};

use super::copies::copied_name;
use answer::{Answer, Value};
use drinfeld_mod::{Module, image_of};
use field_tower::{TopElem, Tower};
use fq_poly::Poly;
use kernel_quotient::{self, NoQuotient};
use operand_value::base_polynomial;
use ore_poly::Ore;
use ring_core::{FrobField, NoMemory};
use script_lang::{Name, Sum};
use statement_operands::{MeaningKind, Stop, listed_module};
use std::alloc::Global;

/// A new name for the Drinfeld module with these coefficients.
pub(crate) fn module(alloc: Global, t: &Tower, name: &Name, list: &[Sum]) -> Result<Answer, Stop>
    requires { length list.now ≤ 9 }
    ensures ok { IfOk result (λ a. (unranked_list t.now list.now ≡ false) × (a ≡ Answer.Named name.now (Value.Module (list_values t.now list.now)))) }
    ensures elem { IfOk result (λ a. gives_value t.now a ≡ true) }
    ensures stop { IfErr result (λ c. c ≢ Stop.NoMemory → (unranked_list t.now list.now ≡ true) × (c ≡ Stop.Meaning MeaningKind.NoRank)) }
{
    let phi = listed_module(alloc, t, list)?;
    let name = copied_name(alloc, name)?;
    Ok(Answer::Named(name, Value::Module(phi)))
}

/// The image under `phi` of the polynomial in `T` that is typed.
pub(crate) fn image(
    alloc: Global,
    t: &Tower,
    phi: &Module<TopElem>,
    a: &Sum,
) -> Result<Answer, NoMemory>
    requires { IsModule (ops_of_top t.now) phi.now }
    ensures ok { IfOk result (λ v. v ≡ Answer.Twisted (image_by (ops_of_top t.now) (ops_of t.now.base) (frob_of_top t.now) phi.now (base_polynomial t.now.base a.now))) }
    ensures elem { IfOk result (λ v. gives_value t.now v ≡ true) }
{
    let coeffs = base_polynomial(alloc, t.base(), a)?;
    let image = image_of(alloc, t, phi, &Poly::from_vec(coeffs))?;
    Ok(Answer::Twisted(image))
}

/// The quotient of `phi` by `u`, or why there is none.
pub(crate) fn quotient(
    alloc: Global,
    t: &Tower,
    phi: &Module<TopElem>,
    u: &Ore<TopElem>,
) -> Result<Answer, NoMemory>
    requires module { IsModule (ops_of_top t.now) phi.now }
    requires divisor { is_canonical (ops_of_top t.now) u.now ≡ true }
    ensures ok { IfOk result (λ a. IsQuotientOf t.now phi.now u.now a) }
    ensures elem { IfOk result (λ a. gives_value t.now a ≡ true) }
{
    match kernel_quotient::quotient(alloc, t, phi, u) {
        Ok(psi) => Ok(Answer::Quotient(psi)),
        Err(NoQuotient::Zero) => Ok(Answer::NoneZero),
        Err(NoQuotient::Remainder(rest)) => Ok(Answer::NoneRemainder(rest)),
        Err(NoQuotient::Constant(c)) => Ok(Answer::NoneConstant(c)),
        Err(NoQuotient::NoMemory) => Err(NoMemory),
    }
}
