//! Division of twisted polynomials compared with plain products and searches over small fields, and how many
//! operations of the field it costs.
#![tactic(auto)]

#[cfg(test)]
mod costs;
#[cfg(test)]
mod pairs;
#[cfg(test)]
mod plain;
#[cfg(test)]
mod rows;
#[cfg(test)]
mod search;
