ghost use Rattle.std.specs.Prelude.{◌≡◌, ◌≤◌, [], true, length, OnErr};
ghost use Rattle.script_parse.specs.Version.{version_1};
ghost use Rattle.script_parse.specs.Within.{IsWithin};
ghost use Rattle.answer.specs.Texts.{field_of};
ghost use Rattle.session.specs.Kept.{pairs_next, is_count_of_kept};
ghost use Rattle.session.specs.Of.{state_of, kept_pairs};
ghost use Rattle.session.specs.State.{first_state};
ghost use Rattle.session.specs.Steps.{Does};

use super::fields::set_field;
use super::over::answer_over;
use super::refusals::name_refusal;
use super::state::Session;
use answer::{Answer, FieldState, Printing};
use kept_lists::KeptLists;
use script_parse::Statement;
use statement_operands::{Names, Stop, asked_by};
use std::alloc::Global;

impl Session {
    /// A session with no field, no names and no kept lists. Takes no memory.
    pub fn new(alloc: Global) -> Session
        ensures state { state_of result ≡ first_state }
        ensures kept { kept_pairs result ≡ [] }
    {
        Session {
            alloc,
            field: FieldState::Nothing,
            names: Names::new(alloc),
            kept: KeptLists::new(alloc),
        }
    }

    /// How many full lists of homomorphisms are kept, at most 8. Takes no memory.
    pub fn kept(&self) -> usize
        ensures count { result ≡ length (kept_pairs self.now) }
        ensures few { result ≤ 8 }
    {
        self.kept.len()
    }

    /// The field, to read answers in. Takes no memory.
    pub fn printing(&self) -> Printing<'_>
        ensures { field_of result ≡ (state_of self.now).field }
    {
        match &self.field {
            FieldState::Nothing => Printing::Nothing,
            FieldState::Base(k) => Printing::Base(k),
            FieldState::Top(t) => Printing::Top(t),
        }
    }

    /// Answers a statement, or says why it stops; after a stop the field, the names and the kept lists are as before.
    /// What is looked at first is the field that the form needs, an operand that isn't defined, an operand of the other
    /// kind, a new name that is taken, and what the work of the form refuses. The room for a new name is taken before the
    /// work. `full`, `fullsize` and `isogenous` have the full list of their two modules kept, as the last of at most 8; a
    /// pair that is kept keeps its place, and a `fullsize` of two names whose pair is kept takes no memory.
    pub fn step(&mut self, statement: &Statement) -> Result<Answer, Stop>
        requires { IsWithin version_1 statement.now.form }
        ensures does { Does (state_of self.old) statement.now.form result (state_of self.new) }
        ensures kept { kept_pairs self.new ≡ pairs_next (state_of self.old) statement.now.form result (kept_pairs self.old) }
        ensures counted { is_count_of_kept (state_of self.old) statement.now.form (kept_pairs self.old) ≡ true → OnErr result ⊥ }
    {
        let form = &statement.form;
        let d = asked_by(form);
        match name_refusal(&self.field, &self.names, &d) {
            Some(kind) => return Err(Stop::Meaning(kind)),
            None => {}
        }
        match &self.field {
            FieldState::Top(t) => answer_over(
                self.alloc,
                t,
                &mut self.names,
                &mut self.kept,
                form,
                &d,
            ),
            _ => set_field(self.alloc, &mut self.field, form),
        }
    }
}
