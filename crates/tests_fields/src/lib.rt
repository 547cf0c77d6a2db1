//! The fields of `field_tower` compared with their plain definition: residues of polynomials by
//! schoolbook products and long division, pair by pair and modulus by modulus.
#![tactic(auto)]

#[cfg(test)]
mod data;
#[cfg(test)]
mod min_polys;
#[cfg(test)]
mod moduli;
#[cfg(test)]
mod plain;
#[cfg(test)]
mod refusals;
#[cfg(test)]
mod row_sums;
#[cfg(test)]
mod tables;
#[cfg(test)]
mod tops;
