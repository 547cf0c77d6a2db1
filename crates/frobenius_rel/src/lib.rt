//! The least relation of the Frobenius of a Drinfeld module over the polynomials in T, and its power of the degree
//! of the rank.
#![tactic(auto)]

mod fault;
pub mod laws;
mod matrix;
mod power;
mod relation;
mod scale;
mod search;

pub use fault::NoPower;
pub use power::rank_power;
pub use relation::least_relation;
