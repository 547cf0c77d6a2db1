//! Matrices of polynomials over small fields: worked examples, and random matrices whose reductions, relations and
//! standard bases are compared with plain computations.
#![tactic(auto)]

#[cfg(test)]
mod examples;
#[cfg(test)]
mod flat_examples;
#[cfg(test)]
mod matrices;
#[cfg(test)]
mod plain;
#[cfg(test)]
mod random;
#[cfg(test)]
mod samples;
