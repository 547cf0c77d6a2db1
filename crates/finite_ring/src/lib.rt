//! Finite commutative rings and fields: their theory, on which the concrete fields stand. The
//! definitions are that no two nonzero elements multiply to zero, and the inverse as a power. Proved
//! from the laws of a ring: such a finite ring is a field; the power of each nonzero element of a
//! finite field to the number of nonzero elements is one; over a field of `q` elements, a finite ring in
//! which only zero has the power `q` zero, and the power `q` fixes only constants, has no two nonzero
//! elements that multiply to zero; and the powers of the characteristic are additive.
#![tactic(auto)]

pub mod laws;
