//! Tests of whole runs over sources and sinks in memory.
#![tactic(auto)]

#[cfg(test)]
mod algebra;
#[cfg(test)]
mod answered;
#[cfg(test)]
mod faults;
#[cfg(test)]
mod irreducible;
#[cfg(test)]
mod limits;
#[cfg(test)]
mod lists;
#[cfg(test)]
mod plain_count;
#[cfg(test)]
mod refusals;
#[cfg(test)]
mod runs;
#[cfg(test)]
mod stops;
#[cfg(test)]
mod words;
