//! Full lists of homomorphisms that are kept with their pairs of modules.
#![tactic(auto)]

mod kept;

pub use kept::{KeptList, KeptLists, find};
