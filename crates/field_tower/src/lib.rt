//! Finite fields in two layers. `BaseField` is the field of `q = p^s` elements, the residues modulo a
//! polynomial over the numbers modulo a prime; `Tower` is the field of the residues modulo a
//! polynomial over a base field, with its Frobenius. Both are accepted exactly where no two nonzero
//! residues multiply to zero.
#![tactic(auto)]

mod accept;
mod algebra;
mod base;
mod bits;
mod codes;
mod fault;
mod frobenius;
mod lanes;
mod letters;
mod logs;
mod modular;
mod pair;
mod places;
mod powers;
mod prime;
mod products;
mod remainders;
mod residue_ring;
mod residues;
mod row_products;
mod row_sums;
mod shuffles;
mod size;
mod tables;
mod tower;

pub use accept::{find_pair, unit_powers};
pub use algebra::Algebra;
pub use base::BaseField;
pub use fault::{BaseFault, TowerFault};
pub use prime::PrimeField;
pub use residue_field::{Code, TopElem, WIDTH};
pub use residues::multiply;
pub use size::CODES;
pub use tower::{Tower, TowerRefused};
