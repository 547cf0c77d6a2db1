//! Motive coordinates, which give back their twisted polynomials, and the least relation of Frobenius of all modules of
//! rank 2 over the field of four elements, against a search among all relations of small degrees.
#![tactic(auto)]

#[cfg(test)]
mod motives;
#[cfg(test)]
mod relations;
#[cfg(test)]
mod worked;
