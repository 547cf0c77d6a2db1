//! What holds of the meaning of statements; each law is the contract of a function.

ghost use Rattle.script_statement.specs.declared.Form.{Form};
ghost use Rattle.script_parse.specs.Version.{version_1};
ghost use Rattle.script_parse.specs.Within.{IsWithin};
ghost use Rattle.std.specs.Prelude.{◌≡◌, true};
ghost use Rattle.session.specs.Sound.{is_sound};
ghost use Rattle.session.specs.Outcome.{OneOutcome, HasOutcome};
ghost use Rattle.session.specs.State.{State};

/// A statement has at most one outcome in a state: at most one answer with the state after it, at most
/// one stop, and never both.
pub fn one_outcome()
    ensures { OneOutcome }
{}

/// A statement that passes no limit has an outcome in each state whose names have values over its field, as
/// those of a session.
pub fn some_outcome()
    ensures { (st : State) (f : Form) → is_sound st.field st.names ≡ true → IsWithin version_1 f → HasOutcome st f }
{}
