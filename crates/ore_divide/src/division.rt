//! Division with remainder on either side.
ghost use Rattle.std.specs.Prelude.{◌≡◌, IfErr, IfOk, true};
ghost use Rattle.ring_core.specs.Coeffs.{is_canonical};
ghost use Rattle.ore_divide.specs.Division.{IsRightDivision, IsLeftDivision, IsDivisionFault};
ghost use Rattle.ore_divide.specs.steps.Sides.{IsDivision};

use super::fault::OreFault;
use super::lists::divide_list;
use super::side::Side;
use ore_poly::Ore;
use ring_core::lists::top_inverse;
use ring_core::{E, Field, FrobField};
use std::alloc::Global;

/// Quotient and remainder of a division.
#[derive(Drop)]
pub struct Division<C> {
    /// The factor of the divisor: on its left in a division on the right, and on its right in one on the left.
    pub quotient: Ore<C>,
    /// What is left: zero, or of lower degree than the divisor.
    pub remainder: Ore<C>,
}

/// Quotient and remainder of `a` by `b`.
fn divide<K: FrobField>(
    alloc: Global,
    k: &K,
    side: Side,
    a: &Ore<E<K>>,
    b: &Ore<E<K>>,
) -> Result<Division<E<K>>, OreFault>
    requires dividend { is_canonical (K.ops k.now) a.now ≡ true }
    requires divisor { is_canonical (K.ops k.now) b.now ≡ true }
    ensures division { IfOk result (λ v. IsDivision side (K.ops k.now) (K.frob_ops k.now).frob a.now b.now v.quotient v.remainder) }
    ensures refused { IfErr result (IsDivisionFault b.now) }
{
    let Some(inverse) = top_inverse(k, b.as_slice()) else {
        return Err(OreFault::ZeroDivisor);
    };
    let (quotient, rest) = divide_list(alloc, k, side, a.as_slice(), b.as_slice(), inverse)?;
    Ok(Division {
        quotient: Ore::from_vec(quotient),
        remainder: Ore::from_vec(rest),
    })
}

/// Division on the right: `a` is the quotient times `b`, and the remainder, which is zero or of lower degree
/// than `b`. There is only one answer. The fault is ZeroDivisor exactly where `b` is zero, else want of memory.
/// This is `right_quo_rem` of twisted polynomials in the SageMath reference manual.
pub fn right_divide<K: FrobField>(
    alloc: Global,
    k: &K,
    a: &Ore<E<K>>,
    b: &Ore<E<K>>,
) -> Result<Division<E<K>>, OreFault>
    requires dividend { is_canonical (K.ops k.now) a.now ≡ true }
    requires divisor { is_canonical (K.ops k.now) b.now ≡ true }
    ensures division { IfOk result (λ v. IsRightDivision (K.ops k.now) (K.frob_ops k.now).frob a.now b.now v.quotient v.remainder) }
    ensures refused { IfErr result (IsDivisionFault b.now) }
{
    divide(alloc, k, Side::Right, a, b)
}

/// Division on the left: `a` is `b` times the quotient, and the remainder, which is zero or of lower degree
/// than `b`. There is only one answer. The fault is ZeroDivisor exactly where `b` is zero, else want of memory.
/// This is `left_quo_rem` of twisted polynomials in the SageMath reference manual; it takes roots of the Frobenius.
pub fn left_divide<K: FrobField>(
    alloc: Global,
    k: &K,
    a: &Ore<E<K>>,
    b: &Ore<E<K>>,
) -> Result<Division<E<K>>, OreFault>
    requires dividend { is_canonical (K.ops k.now) a.now ≡ true }
    requires divisor { is_canonical (K.ops k.now) b.now ≡ true }
    ensures division { IfOk result (λ v. IsLeftDivision (K.ops k.now) (K.frob_ops k.now).frob a.now b.now v.quotient v.remainder) }
    ensures refused { IfErr result (IsDivisionFault b.now) }
{
    divide(alloc, k, Side::Left, a, b)
}
