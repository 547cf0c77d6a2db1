//! Residues modulo a monic polynomial over any ring of constants, with their laws; the finite fields
//! that come of them: `F_p`, `F_q` over it and `K` over `F_q`. No operation stands here: the crates
//! above compute what `specs/` defines.
#![tactic(auto)]

pub mod laws;

/// The number of places of a stored element of a top field: its degree is at most this.
pub const WIDTH: usize = 16;

/// The code of an element of a base field: its digits in base `p` are the coefficients, lowest first.
pub type Code = u16;

/// An element of a top field: its coefficients, lowest first, and 0 past the degree of the field.
#[derive(Clone, Copy)]
pub struct TopElem(pub [Code; WIDTH]);
