//! The theory of combinations of rows over a ring, below elimination over a field. The definitions stand
//! in `specs/`, the theorems in `proofs/`; there is no code.
#![tactic(auto)]
