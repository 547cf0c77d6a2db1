//! Standard bases of modules of rows of polynomials, which is Popov's form for the order of members that flat
//! rows have, and division with remainder by them.
#![tactic(auto)]

mod calls;
mod clear;
mod divide;
mod flat;
pub mod laws;
mod leading;
mod relations;
mod settled;

pub use calls::{NormalForm, normal, standard};
pub use divide::FlatNormal;
pub use flat::{normal_flat, relations_flat, standard_flat};
