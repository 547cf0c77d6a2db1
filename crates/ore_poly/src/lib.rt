//! Twisted polynomials over a field with a Frobenius: lists `u_0 + u_1 tau + ..`, lowest coefficient
//! first, with `tau c = c^q tau` for a base field of `q` elements.
#![tactic(auto)]

pub mod laws;
mod product;
mod terms;
mod twisted;

pub use twisted::{Ore, OreRing};
