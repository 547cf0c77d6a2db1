//! Worked examples of coordinates, bounded lists and isomorphisms; the lists between all modules of rank at most 2 over
//! four elements, against a search; bounded and full lists of thirty pairs of modules, against one another; and what a
//! list costs.
#![tactic(auto)]

#[cfg(test)]
mod all_pairs;
#[cfg(test)]
mod coordinates;
#[cfg(test)]
mod costs;
#[cfg(test)]
mod lists;
#[cfg(test)]
mod modules;
#[cfg(test)]
mod pairs;
