//! What the sums of a statement stand for over its field.
ghost use Rattle.std.specs.Prelude.{◌≡◌, IfOk, true};
ghost use Rattle.ring_core.specs.Coeffs.{are_elems, is_canonical};
ghost use Rattle.residue_field.specs.Prime.{is_listed, prime_ops};
ghost use Rattle.residue_field.specs.Base.{ops_of};
ghost use Rattle.residue_field.specs.Top.{ops_of_top};
ghost use Rattle.operand_value.specs.Operands.{base_modulus, base_polynomial, list_values, twisted_sum};

use super::poly::poly_value;
use super::value::sum_values;
use field_tower::{BaseField, Code, PrimeField, TopElem, Tower};
use ring_core::NoMemory;
use script_lang::Sum;
use std::alloc::Global;

/// The codes as numbers.
fn numbers(alloc: Global, list: &[Code]) -> Result<Vec<u32>, NoMemory>
    ensures { IfOk result (λ v. v.items ≡ list.now) }
{
    let mut numbers = Vec::new(alloc);
    for c in list {
        numbers.push(*c as u32)?;
    }
    Ok(numbers)
}

/// The modulus of a base over the numbers modulo a listed prime, lowest coefficient first: the polynomial
/// in `a` that is typed, and `a` itself where none is.
#[tactic(auto, unfolding(crate::specs::Operands::base_modulus))]
pub fn base_modulus(alloc: Global, p: u32, modulus: &Option<Sum>) -> Result<Vec<u32>, NoMemory>
    requires { is_listed p ≡ true }
    ensures value { IfOk result (λ v. v.items ≡ base_modulus p modulus.now) }
    ensures elem { IfOk result (λ v. are_elems (prime_ops p) v.items ≡ true) }
{
    let Some(sum) = modulus else {
        return Ok(vec![in alloc; 0, 1]?);
    };
    let Some(field) = PrimeField::new(p) else {
        unreachable!()
    };
    let list = poly_value(alloc, &field, sum)?;
    numbers(alloc, &list)
}

/// The polynomial over a base that is typed, lowest coefficient first: in `z` the modulus of a top field,
/// or in `T`.
#[tactic(auto, unfolding(crate::specs::Operands::base_polynomial))]
pub fn base_polynomial(alloc: Global, base: &BaseField, sum: &Sum) -> Result<Vec<Code>, NoMemory>
    ensures value { IfOk result (λ v. v.items ≡ base_polynomial base.now sum.now) }
    ensures elem { IfOk result (λ v. is_canonical (ops_of base.now) v.items ≡ true) }
{
    poly_value(alloc, base, sum)
}

/// The elements of a top field that a list of sums is, in its order, as typed.
#[tactic(auto, unfolding(crate::specs::Operands::list_values))]
pub fn list_values(alloc: Global, top: &Tower, list: &[Sum]) -> Result<Vec<TopElem>, NoMemory>
    ensures value { IfOk result (λ v. v.items ≡ list_values top.now list.now) }
    ensures elem { IfOk result (λ v. are_elems (ops_of_top top.now) v.items ≡ true) }
{
    sum_values(alloc, top, list)
}

/// The twisted polynomial that a sum is, lowest coefficient first, without zeros at the top: each term is
/// its value times the power of `t` that ends it.
#[tactic(auto, unfolding(crate::specs::Operands::twisted_sum))]
pub fn twisted_sum(alloc: Global, top: &Tower, sum: &Sum) -> Result<Vec<TopElem>, NoMemory>
    ensures value { IfOk result (λ v. v.items ≡ twisted_sum top.now sum.now) }
    ensures elem { IfOk result (λ v. is_canonical (ops_of_top top.now) v.items ≡ true) }
{
    poly_value(alloc, top, sum)
}
