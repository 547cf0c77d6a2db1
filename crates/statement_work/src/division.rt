//! Divisions, common divisors and common multiples.
ghost use Rattle.std.specs.Prelude.{◌≡◌, ◌≢◌, true, false, IfOk, IfErr};
ghost use Rattle.ring_core.specs.Coeffs.{is_canonical};
ghost use Rattle.residue_field.specs.Top.{ops_of_top, frob_of_top};
ghost use Rattle.ore_divide.specs.Division.{IsRightDivision, IsLeftDivision};
ghost use Rattle.statement_work.specs.Refusals.{is_nil};
ghost use Rattle.statement_work.specs.Results.{gives_value};
ghost use Rattle.statement_work.specs.Works.{IsDivided, IsCommonOf, IsMultipleOf};

use answer::Answer;
use field_tower::{TopElem, Tower};
use ore_divide::{Division, OreFault, common_multiple, common_right, left_divide, right_divide};
use ore_poly::Ore;
use ring_core::NoMemory;
use statement_operands::{MeaningKind, Stop};
use std::alloc::Global;

/// The division of `u` by `v` on the right, which isn't to be zero.
pub(crate) fn rdiv(
    alloc: Global,
    t: &Tower,
    u: &Ore<TopElem>,
    v: &Ore<TopElem>,
) -> Result<Answer, Stop>
    requires dividend { is_canonical (ops_of_top t.now) u.now ≡ true }
    requires divisor { is_canonical (ops_of_top t.now) v.now ≡ true }
    ensures ok { IfOk result (λ a. (is_nil v.now ≡ false)
        × IsDivided a (λ c rest. IsRightDivision (ops_of_top t.now) (frob_of_top t.now).frob u.now v.now c rest)) }
    ensures elem { IfOk result (λ a. gives_value t.now a ≡ true) }
    ensures stop { IfErr result (λ c. c ≢ Stop.NoMemory → (is_nil v.now ≡ true) × (c ≡ Stop.Meaning MeaningKind.ZeroDivisor)) }
{
    match right_divide(alloc, t, u, v) {
        Ok(
            Division {
                quotient,
                remainder,
            },
        ) => Ok(Answer::Division {
            quotient,
            remainder,
        }),
        Err(OreFault::ZeroDivisor) => Err(Stop::Meaning(MeaningKind::ZeroDivisor)),
        Err(OreFault::NoMemory) => Err(Stop::NoMemory),
    }
}

/// The division of `u` by `v` on the left, which isn't to be zero.
pub(crate) fn ldiv(
    alloc: Global,
    t: &Tower,
    u: &Ore<TopElem>,
    v: &Ore<TopElem>,
) -> Result<Answer, Stop>
    requires dividend { is_canonical (ops_of_top t.now) u.now ≡ true }
    requires divisor { is_canonical (ops_of_top t.now) v.now ≡ true }
    ensures ok { IfOk result (λ a. (is_nil v.now ≡ false)
        × IsDivided a (λ c rest. IsLeftDivision (ops_of_top t.now) (frob_of_top t.now).frob u.now v.now c rest)) }
    ensures elem { IfOk result (λ a. gives_value t.now a ≡ true) }
    ensures stop { IfErr result (λ c. c ≢ Stop.NoMemory → (is_nil v.now ≡ true) × (c ≡ Stop.Meaning MeaningKind.ZeroDivisor)) }
{
    match left_divide(alloc, t, u, v) {
        Ok(
            Division {
                quotient,
                remainder,
            },
        ) => Ok(Answer::Division {
            quotient,
            remainder,
        }),
        Err(OreFault::ZeroDivisor) => Err(Stop::Meaning(MeaningKind::ZeroDivisor)),
        Err(OreFault::NoMemory) => Err(Stop::NoMemory),
    }
}

/// The greatest common right divisor with its cofactors.
pub(crate) fn common(
    alloc: Global,
    t: &Tower,
    u: &Ore<TopElem>,
    v: &Ore<TopElem>,
) -> Result<Answer, NoMemory>
    requires left { is_canonical (ops_of_top t.now) u.now ≡ true }
    requires right { is_canonical (ops_of_top t.now) v.now ≡ true }
    ensures ok { IfOk result (λ a. IsCommonOf t.now u.now v.now a) }
    ensures elem { IfOk result (λ a. gives_value t.now a ≡ true) }
{
    Ok(Answer::Common(common_right(alloc, t, u, v)?))
}

/// The least common left multiple with its factors.
pub(crate) fn multiple(
    alloc: Global,
    t: &Tower,
    u: &Ore<TopElem>,
    v: &Ore<TopElem>,
) -> Result<Answer, NoMemory>
    requires left { is_canonical (ops_of_top t.now) u.now ≡ true }
    requires right { is_canonical (ops_of_top t.now) v.now ≡ true }
    ensures ok { IfOk result (λ a. IsMultipleOf t.now u.now v.now a) }
    ensures elem { IfOk result (λ a. gives_value t.now a ≡ true) }
{
    Ok(Answer::Multiple(common_multiple(alloc, t, u, v)?))
}
