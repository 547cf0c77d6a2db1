//! Modules, homomorphisms and quotients: the characteristic, the height and the invariants of all modules of rank 2
//! over the fields of four and nine elements, and quotients over four elements, against plain computations and searches;
//! images, sums, compositions, multiples, full lists and isogenies, worked out by hand.
#![tactic(auto)]

#[cfg(test)]
mod calls;
#[cfg(test)]
mod heights;
#[cfg(test)]
mod invariants;
#[cfg(test)]
mod lists;
#[cfg(test)]
mod morphisms;
#[cfg(test)]
mod quotients;
