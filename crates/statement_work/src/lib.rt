//! The work of the statements: what each form answers or refuses, from the values of its operands.
#![tactic(auto)]

mod copies;
mod division;
mod frobenius;
mod homomorphism;
mod invariants;
pub mod laws;
mod lists;
mod modules;
mod names;
mod sums;
mod work;

pub use copies::named_value;
pub use work::answer_of;
