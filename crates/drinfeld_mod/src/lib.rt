//! Drinfeld modules over a field with a Frobenius: lists `z, g_1, .., g_r` for the image
//! `z + g_1 tau + .. + g_r tau^r` of the letter T.
#![tactic(auto)]

mod at_characteristic;
mod coefficients;
mod fault;
mod image;
mod invariant;
pub mod laws;
mod module;

pub use at_characteristic::{characteristic, height, is_ordinary, is_supersingular};
pub use coefficients::{as_ore, make};
pub use fault::ModuleFault;
pub use image::image_of;
pub use invariant::j;
pub use module::Module;
