//! Matrices of polynomials over a field, as rows of polynomials and as flat rows: reduction by an invertible
//! transform, and relations of rows. The calls on rows of polynomials convert, call the flat form and convert
//! back.
#![tactic(auto)]

mod calls;
mod convert;
mod flat;
mod flat_rows;
mod matrix;
mod poly_row;
mod poly_rows;

pub use calls::{Reduced, kernel, reduce};
pub use convert::{flatten, flatten_row, unflatten, unflatten_row};
pub use flat::{FlatReduced, kernel_flat, reduce_flat};
pub use flat_rows::FlatRows;
pub use matrix::{identity, product};
pub use poly_row::PolyRow;
pub use poly_rows::PolyRows;
