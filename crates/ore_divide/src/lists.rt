//! Division with remainder over slices.
ghost use Rattle.std.specs.Prelude.{◌≡◌, ◌-◌, ◌<◌, IfOk, length, true};
ghost use Rattle.ring_core.specs.Ring.{IsElem};
ghost use Rattle.ring_core.specs.Coeffs.{coeff, is_canonical};
ghost use Rattle.ore_divide.specs.steps.Sides.{IsDivision};

use super::rows::clear_places;
use super::side::Side;
use ring_core::lists::{copy_list, trimmed};
use ring_core::rows::zero_list;
use ring_core::{E, Field, FrobField, NoMemory};
use std::alloc::Global;

/// Quotient and remainder of `a` by `b`, which isn't zero; `inverse` is that of the top coefficient of `b`.
pub(crate) fn divide_list<K: FrobField>(
    alloc: Global,
    field: &K,
    side: Side,
    a: &[E<K>],
    b: &[E<K>],
    inverse: E<K>,
) -> Result<(Vec<E<K>>, Vec<E<K>>), NoMemory>
    requires dividend { is_canonical (K.ops field.now) a.now ≡ true }
    requires divisor { is_canonical (K.ops field.now) b.now ≡ true }
    requires nonzero { 0 < length b.now }
    requires inverse_in { IsElem (K.ops field.now) inverse }
    requires inverts { let r = K.ops field.now in r.mul (coeff r b.now (length b.now - 1)) inverse ≡ r.one }
    ensures { IfOk result (λ p. IsDivision side (K.ops field.now) (K.frob_ops field.now).frob a.now b.now p.0.items p.1.items) }
{
    let places = a.len().saturating_sub(b.len() - 1);
    let mut rest = copy_list(alloc, a)?;
    let mut quotient = zero_list(alloc, field, places)?;
    clear_places(field, side, &mut rest, &mut quotient, b, inverse);
    Ok((trimmed(field, quotient), trimmed(field, rest)))
}
