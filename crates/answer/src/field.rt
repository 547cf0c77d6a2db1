use field_tower::{BaseField, Tower};

/// The field of a session: none, a base, or a top field over a base.
#[derive(Drop)]
pub enum FieldState {
    Nothing,
    Base(BaseField),
    Top(Tower),
}

/// The field in which the elements of an answer are read.
#[derive(Clone, Copy)]
pub enum Printing<'f> {
    Nothing,
    Base(&'f BaseField),
    Top(&'f Tower),
}
