//! Theory of twists and of polynomials: each power of the Frobenius is onto, factors of twisted
//! polynomials cancel, values at points that commute with the coefficients, and few roots. The theorems
//! stand in `proofs/`; there is no code.
#![tactic(auto)]

pub mod laws;
