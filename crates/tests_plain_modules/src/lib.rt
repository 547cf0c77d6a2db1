//! Drinfeld modules in tests: from lists of coefficients, and what plain computations say of them. These have the
//! Frobenius as a repeated product, and call nothing of the library but the sums and the products of the field.
#![tactic(auto)]

pub mod modules;
pub mod plain;
