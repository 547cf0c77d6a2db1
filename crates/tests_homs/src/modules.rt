//! Modules from rows of text, and the calls on two of them that have the same constant.
use hom_space::{bounded, bounded_from, full};
use isomorphism::{isogenous, isomorphic};
use ore_poly::Ore;
use ring_core::{E, FrobField};
use std::alloc::Global;
use std::test::Fail;
use tests_plain_modules::modules::{meet, module};

/// The bounded list between the modules with these coefficients.
pub fn bounded_between<K: FrobField>(
    alloc: Global,
    field: &K,
    phi: &[E<K>],
    psi: &[E<K>],
    d: usize,
) -> Result<Vec<Ore<E<K>>>, Fail> {
    let phi = module(alloc, field, phi)?;
    let psi = module(alloc, field, psi)?;
    meet(field, &phi, &psi)?;
    if d > 64 {
        return Err(Fail::new("a degree up to 64"));
    }
    Ok(bounded(alloc, field, &phi, &psi, d)?)
}

/// The isomorphism between the modules with these coefficients.
pub fn isomorphism_between<K: FrobField>(
    alloc: Global,
    field: &K,
    phi: &[E<K>],
    psi: &[E<K>],
) -> Result<Option<E<K>>, Fail> {
    let phi = module(alloc, field, phi)?;
    let psi = module(alloc, field, psi)?;
    meet(field, &phi, &psi)?;
    Ok(isomorphic(alloc, field, &phi, &psi)?)
}

/// The full list between two modules, and the bounded list that is made from it.
#[derive(Drop)]
pub struct FullLists<C> {
    pub full: Vec<Ore<C>>,
    pub bounded: Vec<Ore<C>>,
}

/// The full list between the modules with these coefficients, and the bounded list for `d` made from it.
pub fn full_between<K: FrobField>(
    alloc: Global,
    field: &K,
    phi: &[E<K>],
    psi: &[E<K>],
    d: usize,
) -> Result<FullLists<E<K>>, Fail> {
    let phi = module(alloc, field, phi)?;
    let psi = module(alloc, field, psi)?;
    meet(field, &phi, &psi)?;
    if d > 64 {
        return Err(Fail::new("a degree up to 64"));
    }
    let full = full(alloc, field, &phi, &psi)?;
    let bounded = bounded_from(alloc, field, &phi, &psi, &full, d)?;
    Ok(FullLists { full, bounded })
}

/// The isogeny between the modules with these coefficients.
pub fn isogeny_between<K: FrobField>(
    alloc: Global,
    field: &K,
    phi: &[E<K>],
    psi: &[E<K>],
) -> Result<Option<Ore<E<K>>>, Fail> {
    let phi = module(alloc, field, phi)?;
    let psi = module(alloc, field, psi)?;
    meet(field, &phi, &psi)?;
    Ok(isogenous(alloc, field, &phi, &psi)?)
}
