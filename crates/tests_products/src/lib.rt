//! Worked examples that cross the libraries: twisted polynomials and polynomials over small fields, and
//! how many operations of the field a product costs.
#![tactic(auto)]

#[cfg(test)]
mod costs;
#[cfg(test)]
mod fields;
#[cfg(test)]
mod polynomials;
#[cfg(test)]
mod products;
#[cfg(test)]
mod twisted;
