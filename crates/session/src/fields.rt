ghost use Rattle.std.specs.Prelude.{◌≡◌, ◌≢◌, ◌<◌, ◌≤◌, ◌^◌, None, true, IfOk, IfErr, OnErr};
ghost use Rattle.residue_field.specs.Prime.{is_listed};
ghost use Rattle.field_tower.specs.MakeBase.{IsBaseOf};
ghost use Rattle.script_parse.specs.Version.{version_1};
ghost use Rattle.script_parse.specs.Within.{IsWithin};
ghost use Rattle.answer.specs.Texts.{top_of};
ghost use Rattle.statement_operands.specs.Demands.{demands};
ghost use Rattle.operand_value.specs.Operands.{base_modulus, top_modulus};
ghost use Rattle.session.specs.Refusals.{base_refusal, top_refusal, field_refusal, modulus_refusal};
ghost use Rattle.session.specs.Sound.{IsBaseSet, OverBase};
ghost use Rattle.session.specs.Steps.{HasBasePair, HasTopPair, IsReducible, SetsBase, SetsTop, SetsField, StopsAfter};

use answer::{Answer, FieldState};
use field_tower::{BaseFault, BaseField, Tower, TowerFault, TowerRefused};
use operand_value::{base_modulus, base_polynomial};
use script_lang::Sum;
use script_statement::Form;
use statement_operands::{MeaningKind, Stop};
use std::alloc::Global;
use std::mem;

/// The base field of a polynomial in `a`. It is refused where the polynomial isn't monic of degree `s`,
/// or two nonzero residues multiply to zero.
fn made_base(alloc: Global, p: u32, s: u32, modulus: &Option<Sum>) -> Result<BaseField, Stop>
    requires listed { is_listed p ≡ true }
    requires positive { 0 < s }
    requires small { p ^ s ≤ 256 }
    ensures free { IfOk result (λ k. base_refusal p s modulus.now ≡ None) }
    ensures value { IfOk result (λ k. IsBaseOf p s (base_modulus p modulus.now) k) }
    ensures stop { IfErr result (λ c. c ≢ Stop.NoMemory → StopsAfter (base_refusal p s modulus.now) c
        ((c ≡ Stop.Meaning MeaningKind.BaseReducible) × HasBasePair p s modulus.now)) }
{
    let list = base_modulus(alloc, p, modulus)?;
    match BaseField::make(alloc, p, s, &list) {
        Ok(base) => Ok(base),
        Err(BaseFault::TooLarge) => unreachable!(),
        Err(BaseFault::BadModulus) => Err(Stop::Meaning(MeaningKind::BadModulus)),
        Err(BaseFault::ZeroDivisors { .. }) => Err(Stop::Meaning(MeaningKind::BaseReducible)),
        Err(BaseFault::NoMemory) => Err(Stop::NoMemory),
    }
}

/// Sets the base field of a polynomial in `a`. Where it is refused the field is as before.
fn set_base(
    alloc: Global,
    field: &mut FieldState,
    p: u32,
    s: u32,
    modulus: &Option<Sum>,
) -> Result<Answer, Stop>
    requires nothing { field.old ≡ FieldState.Nothing }
    requires listed { is_listed p ≡ true }
    requires positive { 0 < s }
    requires small { p ^ s ≤ 256 }
    ensures free { IfOk result (λ a. base_refusal p s modulus.now ≡ None) }
    ensures ok { IfOk result (λ a. SetsBase p s modulus.now a field.new) }
    ensures same { OnErr result (field.new ≡ field.old) }
    ensures stop { IfErr result (λ c. c ≢ Stop.NoMemory → StopsAfter (base_refusal p s modulus.now) c
        ((c ≡ Stop.Meaning MeaningKind.BaseReducible) × HasBasePair p s modulus.now)) }
{
    let base = made_base(alloc, p, s, modulus)?;
    let q = base.q();
    *field = FieldState::Base(base);
    Ok(Answer::Q(q))
}

/// A refusal to make a top field, with the base field that was handed in.
#[derive(Drop)]
struct TopStopped {
    base: BaseField,
    stop: Stop,
}

/// The top field of a polynomial in `z` over a base. It is refused where the polynomial isn't monic of
/// degree `n`, or two nonzero residues multiply to zero; the base is handed back.
fn made_top(alloc: Global, base: BaseField, n: u32, modulus: &Sum) -> Result<Tower, TopStopped>
    requires positive { 0 < n }
    requires small { n ≤ 12 }
    ensures free { IfOk result (λ t. top_refusal base n modulus.now ≡ None) }
    ensures value { IfOk result (λ t. (t.base ≡ base) × (t.n ≡ n) × (t.modulus ≡ top_modulus base modulus.now)) }
    ensures same { IfErr result (λ r. r.base ≡ base) }
    ensures stop { IfErr result (λ r. r.stop ≢ Stop.NoMemory → StopsAfter (top_refusal base n modulus.now) r.stop
        ((r.stop ≡ Stop.Meaning MeaningKind.TopReducible) × HasTopPair base n modulus.now)) }
{
    let Ok(list) = base_polynomial(alloc, &base, modulus) else {
        return Err(TopStopped {
            base,
            stop: Stop::NoMemory,
        });
    };
    match Tower::make(alloc, base, n, &list) {
        Ok(t) => Ok(t),
        Err(TowerRefused { base, why }) => match why {
            TowerFault::TooLarge => unreachable!(),
            TowerFault::BadModulus => Err(TopStopped {
                base,
                stop: Stop::Meaning(MeaningKind::BadModulus),
            }),
            TowerFault::ZeroDivisors { .. } => Err(TopStopped {
                base,
                stop: Stop::Meaning(MeaningKind::TopReducible),
            }),
            TowerFault::NoMemory => Err(TopStopped {
                base,
                stop: Stop::NoMemory,
            }),
        },
    }
}

/// Sets the top field of a polynomial in `z`, over the base that is set. Where it is refused the field
/// is as before.
fn set_top(alloc: Global, field: &mut FieldState, n: u32, modulus: &Sum) -> Result<Answer, Stop>
    requires base { IsBaseSet field.old }
    requires positive { 0 < n }
    requires small { n ≤ 12 }
    ensures free { IfOk result (λ a. OverBase field.old (λ k. top_refusal k n modulus.now ≡ None)) }
    ensures ok { IfOk result (λ a. OverBase field.old (λ k. SetsTop k n modulus.now a field.new)) }
    ensures same { OnErr result (field.new ≡ field.old) }
    ensures stop { IfErr result (λ c. c ≢ Stop.NoMemory → OverBase field.old (λ k. StopsAfter (top_refusal k n modulus.now) c
        ((c ≡ Stop.Meaning MeaningKind.TopReducible) × HasTopPair k n modulus.now))) }
{
    match mem::replace(field, FieldState::Nothing) {
        FieldState::Base(base) => match made_top(alloc, base, n, modulus) {
            Ok(t) => {
                *field = FieldState::Top(t);
                Ok(Answer::N(n))
            }
            Err(TopStopped { base, stop }) => {
                *field = FieldState::Base(base);
                Err(stop)
            }
        },
        _ => unreachable!(),
    }
}

/// Sets the field of a form that sets one. Where it is refused the field is as before.
pub(crate) fn set_field(alloc: Global, field: &mut FieldState, form: &Form) -> Result<Answer, Stop>
    requires low { top_of field.old ≡ None }
    requires asked { field_refusal (demands form.now).field field.old ≡ None }
    requires within { IsWithin version_1 form.now }
    ensures free { IfOk result (λ a. modulus_refusal field.old form.now ≡ None) }
    ensures ok { IfOk result (λ a. SetsField field.old form.now a field.new) }
    ensures same { OnErr result (field.new ≡ field.old) }
    ensures stop { IfErr result (λ c. c ≢ Stop.NoMemory → StopsAfter (modulus_refusal field.old form.now) c (IsReducible field.old form.now c)) }
{
    match form {
        Form::Base { p, s, modulus } => set_base(alloc, field, *p, *s, modulus),
        Form::Over { n, modulus } => set_top(alloc, field, *n, modulus),
        _ => unreachable!(),
    }
}
