ghost use Rattle.std.specs.Prelude.{◌≡◌};
ghost use Rattle.statement_operands.specs.Seen.{seen};
ghost use Rattle.session.specs.Refusals.{field_refusal, name_refusal};

use answer::FieldState;
use statement_operands::{Demands, MeaningKind, Names, Need, name_taken, unknown_name, wrong_kind};

/// Whether the field stands in the way.
fn field_refusal(need: Need, field: &FieldState) -> Option<MeaningKind>
    ensures { result ≡ field_refusal need field.now }
{
    match need {
        Need::NoBase => match field {
            FieldState::Nothing => None,
            _ => Some(MeaningKind::FieldSet),
        },
        Need::NoTop => match field {
            FieldState::Nothing => Some(MeaningKind::FieldMissing),
            FieldState::Base(_) => None,
            FieldState::Top(_) => Some(MeaningKind::FieldSet),
        },
        Need::ATop => match field {
            FieldState::Top(_) => None,
            _ => Some(MeaningKind::FieldMissing),
        },
    }
}

/// What is refused before a value is looked at.
#[tactic(auto, unfolding(crate::specs::Refusals::name_refusal))]
pub(crate) fn name_refusal(
    field: &FieldState,
    names: &Names,
    d: &Demands<'_>,
) -> Option<MeaningKind>
    ensures { result ≡ name_refusal (record { field = field.now; names = names.now }) (seen d.now) }
{
    if let Some(kind) = field_refusal(d.field, field) {
        return Some(kind);
    }
    if unknown_name(names, d) {
        return Some(MeaningKind::UnknownName);
    }
    if wrong_kind(names, d) {
        return Some(MeaningKind::WrongKind);
    }
    if name_taken(names, d) {
        return Some(MeaningKind::NameTaken);
    }
    None
}
