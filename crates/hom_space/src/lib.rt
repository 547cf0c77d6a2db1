//! Lists of homomorphisms between two Drinfeld modules that express all others once.
#![tactic(auto)]

mod bounded_list;
mod from_full;
pub mod laws;
mod reading;
mod system;
mod whole;

pub use bounded_list::bounded;
pub use from_full::bounded_from;
pub use whole::full;
