use answer::FieldState;
use field_tower::TopElem;
use kept_lists::KeptLists;
use statement_operands::Names;
use std::alloc::Global;
use std::marker::Model;

/// What statements leave: a field, names with their values in order of definition, and full lists of homomorphisms
/// with their modules, of which those of the last 8 pairs are kept. Contracts see the field and the names as a state, and
/// the pairs, the oldest first.
#[derive(Drop)]
pub struct Session {
    pub(super) alloc: Global,
    pub(super) field: FieldState,
    pub(super) names: Names,
    pub(super) kept: KeptLists<TopElem>,
}

impl Model for Session {
    ghost use Rattle.kept_lists.specs.Pairs.{pairs_of};
    ghost use Rattle.session.specs.State.{Seen};
    ghost use Rattle.session.specs.Kept.{AreSessionParts};

    ghost Value = { Seen };

    ghost view = { λ s. record { state = record { field = s.field; names = s.names }; pairs = pairs_of s.kept } };

    ghost invariant = { λ s. AreSessionParts s.field s.names s.kept };
}
