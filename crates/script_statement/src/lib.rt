//! The statements of scripts: their relation to the tokens of a line, and the reader of one line.
#![tactic(auto)]

mod form;
pub mod laws;
mod statement;
mod verb;
mod whole;

pub use form::Form;
pub use statement::{read_operands, read_verb};
pub use verb::{
    Division, ModuleVerb, Operation, PairVerb, Question, Relation, TwistedVerb, Verb, verb_of,
};
