//! The lists between all modules of rank at most 2 over the field of four elements that have the same constant, up to
//! degree 2, against a search through all twisted polynomials of such a degree: the homomorphisms among these, by their
//! plain products, are as many as the combinations of the list's members, which are among them.
use super::modules::{bounded_between, isomorphism_between};
use ring_core::{E, Field, FrobField};
use std::alloc::Global;
use std::process::Abort;
use std::test::Fail;
use tests_support::fields::{FOUR, elements, tower};
use tests_support::plain::{are_same, numbered, plain_product};

/// A module's coefficients, and its products with all twisted polynomials `u` up to degree 2 by number: `u` times it,
/// and it times `u`.
#[derive(Drop)]
struct Multiples<C> {
    module: Vec<C>,
    left: Vec<Vec<C>>,
    right: Vec<Vec<C>>,
}

/// Puts the member after the others.
pub fn push<T: Drop>(list: &mut Vec<T>, member: T) -> Result<(), Fail> {
    let Ok(()) = list.push(member) else {
        return Err(Fail::new("memory for a list"));
    };
    Ok(())
}

fn products<K: FrobField>(
    alloc: Global,
    field: &K,
    names: &[E<K>],
    module: Vec<E<K>>,
) -> Result<Multiples<E<K>>, Fail> {
    let mut left = Vec::new(alloc);
    let mut right = Vec::new(alloc);
    for number in 0..names.len().saturating_pow(3) {
        let u = numbered(alloc, names, 3, number)?;
        push(&mut left, plain_product(alloc, field, &u, &module)?)?;
        push(&mut right, plain_product(alloc, field, &module, &u)?)?;
    }
    Ok(Multiples {
        module,
        left,
        right,
    })
}

/// How many of the first `most` twisted polynomials are homomorphisms.
fn count<K: Field>(
    field: &K,
    phi: &Multiples<E<K>>,
    psi: &Multiples<E<K>>,
    most: usize,
) -> Result<usize, Fail> {
    let mut found = 0usize;
    for (left, right) in phi.left.iter().zip(&psi.right).take(most) {
        if are_same(field, left, right)? {
            found = found.saturating_add(1);
        }
    }
    Ok(found)
}

/// The lists between two modules for the degrees 0, 1 and 2, and their isomorphism.
fn check_pair<K: FrobField>(
    rt: &impl Abort,
    alloc: Global,
    field: &K,
    phi: &Multiples<E<K>>,
    psi: &Multiples<E<K>>,
) -> Result<(), Fail> {
    for d in 0..3usize {
        let list = bounded_between(alloc, field, &phi.module, &psi.module, d)?;
        let found = count(field, phi, psi, 4usize.saturating_pow(d as u32 + 1))?;
        assert_eq!(rt; 2usize.saturating_pow(u32::try_from(list.len())?), found);
        for member in &list {
            let u = member.as_slice();
            assert!(rt; u.len() <= d + 1);
            let left = plain_product(alloc, field, u, &phi.module)?;
            let right = plain_product(alloc, field, &psi.module, u)?;
            assert!(rt; are_same(field, &left, &right)?);
        }
        if d == 0 {
            let isomorphism = isomorphism_between(alloc, field, &phi.module, &psi.module)?;
            assert_eq!(rt; isomorphism.is_some(), found > 1);
        }
    }
    Ok(())
}

/// Whether the list has this constant, and its last isn't zero.
fn has_rank<K: FrobField>(field: &K, list: &[E<K>], constant: E<K>) -> Result<bool, Fail> {
    let (Some(first), Some(last)) = (list.first(), list.last()) else {
        return Ok(false);
    };
    let zero = [field.zero()];
    Ok(are_same(field, &[*first], &[constant])? && !are_same(field, &[*last], &zero)?)
}

/// All modules of rank 1 and 2 that have this constant.
fn modules<K: FrobField>(
    alloc: Global,
    field: &K,
    names: &[E<K>],
    constant: E<K>,
) -> Result<Vec<Multiples<E<K>>>, Fail> {
    let mut list = Vec::new(alloc);
    for len in [2usize, 3] {
        for number in 0..names.len().saturating_pow(len as u32) {
            let phi = numbered(alloc, names, len, number)?;
            if has_rank(field, &phi, constant)? {
                push(&mut list, products(alloc, field, names, phi)?)?;
            }
        }
    }
    Ok(list)
}

fn check_constant<K: FrobField>(
    rt: &impl Abort,
    alloc: Global,
    field: &K,
    names: &[E<K>],
    number: usize,
) -> Result<(), Fail> {
    let Some(constant) = names.get(number) else {
        return Err(Fail::new("the number of an element"));
    };
    let list = modules(alloc, field, names, *constant)?;
    assert_eq!(rt; list.len(), 15);
    for phi in &list {
        for psi in &list {
            check_pair(rt, alloc, field, phi, psi)?;
        }
    }
    Ok(())
}

fn check_number(rt: &impl Abort, alloc: Global, number: usize) -> Result<(), Fail> {
    let field = tower(alloc, FOUR)?;
    let names = elements(alloc, &field, 4)?;
    check_constant(rt, alloc, &field, &names, number)
}

#[test]
fn constant_zero(rt: HostRuntime) -> Result<(), Fail> {
    check_number(&rt, rt.alloc(), 0)
}

#[test]
fn constant_one(rt: HostRuntime) -> Result<(), Fail> {
    check_number(&rt, rt.alloc(), 1)
}

#[test]
fn constant_z(rt: HostRuntime) -> Result<(), Fail> {
    check_number(&rt, rt.alloc(), 2)
}

#[test]
fn constant_z_and_one(rt: HostRuntime) -> Result<(), Fail> {
    check_number(&rt, rt.alloc(), 3)
}
