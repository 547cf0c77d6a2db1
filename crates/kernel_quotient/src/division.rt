ghost use Rattle.std.specs.Prelude.{◌≡◌, ◌≢◌, [], List, IfErr, IfOk, true};
ghost use Rattle.ring_core.specs.Coeffs.{is_canonical};
ghost use Rattle.drinfeld_mod.specs.Module.{IsModule};
ghost use Rattle.kernel_quotient.specs.Quotient.{IsOtherFactor, IsQuotient, IsQuotientAnswer, IsRefusal};

use super::fault::NoQuotient;
use drinfeld_mod::{Module, as_ore};
use ore_divide::{Division, right_divide};
use ore_poly::{Ore, OreRing};
use ring_core::lists::coeff_at;
use ring_core::{E, Field, FrobField, NoMemory, Ring};
use std::alloc::Global;

/// Quotient and remainder of `u phi_T` by `u` on the right.
fn other_factor<K: FrobField>(
    alloc: Global,
    field: &K,
    phi: &Module<E<K>>,
    u: &Ore<E<K>>,
) -> Result<Division<E<K>>, NoMemory>
    requires module { IsModule (K.ops field.now) phi.now }
    requires divisor { is_canonical (K.ops field.now) u.now ≡ true }
    ensures { IfOk result (λ d. IsOtherFactor (K.ops field.now) (K.frob_ops field.now).frob phi.now u.now d.quotient d.remainder) }
{
    let letter = as_ore(alloc, field, phi)?;
    let product = OreRing::new(field).mul(alloc, u, &letter)?;
    let Ok(division) = right_divide(alloc, field, &product, u) else {
        return Err(NoMemory);
    };
    Ok(division)
}

/// The quotient of `phi` by `u`: the module with the constant of `phi` to which `u` is a homomorphism from `phi`
/// (the SageMath reference manual, chapter Drinfeld modules, `velu`). The refusals come in this order: Zero exactly
/// where `u` is zero; else Remainder exactly where `u` leaves a remainder when it divides `u phi_T` on the right, with
/// that remainder; else Constant exactly where the other factor has another constant than `phi`, with that constant.
/// Where one of them comes there is no quotient. Want of memory comes only where `u` isn't zero.
pub fn quotient<K: FrobField>(
    alloc: Global,
    field: &K,
    phi: &Module<E<K>>,
    u: &Ore<E<K>>,
) -> Result<Module<E<K>>, NoQuotient<E<K>>>
    requires module { IsModule (K.ops field.now) phi.now }
    requires divisor { is_canonical (K.ops field.now) u.now ≡ true }
    ensures answer { IsQuotientAnswer (K.ops field.now) (K.frob_ops field.now).frob phi.now u.now result }
    ensures none { IfErr result
        (λ e. IsRefusal e → (psi : List K.Elem) → IsQuotient (K.ops field.now) (K.frob_ops field.now).frob phi.now u.now psi → ⊥) }
{
    if u.len() == 0 {
        return Err(NoQuotient::Zero);
    }
    let Division {
        quotient,
        remainder,
    } = other_factor(alloc, field, phi, u)?;
    if remainder.len() > 0 {
        return Err(NoQuotient::Remainder(remainder));
    }
    let constant = coeff_at(field, quotient.as_slice(), 0);
    if !field.equal(constant, phi.constant()) {
        return Err(NoQuotient::Constant(constant));
    }
    Ok(Module::from_vec(quotient.into_vec()))
}
