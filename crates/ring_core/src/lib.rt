//! Rings and fields as traits with their laws, and what holds in every ring: powers, and values of
//! polynomials.
#![tactic(auto)]

mod field;
pub mod lists;
mod memory;
mod powers;
pub mod product;
mod ring;
pub mod rows;
mod twisted;

pub use field::{B, E, Field, FrobField};
pub use memory::NoMemory;
pub use powers::{eval, field_power, power, value_of};
pub use ring::{CommRing, Ring};
pub use twisted::TwistedRing;
