//! Whether two Drinfeld modules are isomorphic or isogenous over their field, and by which homomorphism.
#![tactic(auto)]

mod constant;
mod isogeny;

pub use constant::{isomorphic, isomorphic_from};
pub use isogeny::{isogenous, isogenous_from};
