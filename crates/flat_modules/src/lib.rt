//! The theory of flat rows, which are lists of elements on which the polynomials in a letter `x` act, `x` as a
//! shift: modules of rows, their standard bases, relations, and matrices that are brought to different lead
//! places by an invertible transform. The definitions stand in `specs/`, the theorems in `proofs/`; there is no
//! code.
#![tactic(auto)]
