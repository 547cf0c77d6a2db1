//! Full lists, isogenies, and bounded lists made from full ones, worked out by hand. The elements of the field of four
//! elements are numbered 0, 1, 2 for `z` and 3 for `z + 1`.
use hom_space::{bounded_from, full};
use isomorphism::isogenous;
use ore_poly::Ore;
use ring_core::{E, FrobField};
use std::alloc::Global;
use std::process::Abort;
use std::test::Fail;
use tests_plain_modules::modules::{meet, module};
use tests_support::fields::{FOUR, elements, tower};
use tests_support::plain::are_same;
use tests_support::twisted::row;

/// The full list between the modules with these coefficients.
fn full_between<K: FrobField>(
    alloc: Global,
    field: &K,
    phi: &[E<K>],
    psi: &[E<K>],
) -> Result<Vec<Ore<E<K>>>, Fail> {
    let phi = module(alloc, field, phi)?;
    let psi = module(alloc, field, psi)?;
    meet(field, &phi, &psi)?;
    Ok(full(alloc, field, &phi, &psi)?)
}

/// The isogeny between the modules with these coefficients.
fn isogeny_between<K: FrobField>(
    alloc: Global,
    field: &K,
    phi: &[E<K>],
    psi: &[E<K>],
) -> Result<Option<Ore<E<K>>>, Fail> {
    let phi = module(alloc, field, phi)?;
    let psi = module(alloc, field, psi)?;
    meet(field, &phi, &psi)?;
    Ok(isogenous(alloc, field, &phi, &psi)?)
}

/// The bounded list between the modules with these coefficients, from their full list.
fn bounded_between<K: FrobField>(
    alloc: Global,
    field: &K,
    phi: &[E<K>],
    psi: &[E<K>],
    d: usize,
) -> Result<Vec<Ore<E<K>>>, Fail> {
    let phi = module(alloc, field, phi)?;
    let psi = module(alloc, field, psi)?;
    meet(field, &phi, &psi)?;
    let list = full(alloc, field, &phi, &psi)?;
    if d > 64 {
        return Err(Fail::new("a degree up to 64"));
    }
    Ok(bounded_from(alloc, field, &phi, &psi, &list, d)?)
}

/// That the members of the list are those of the rows.
fn check_members<K: FrobField>(
    rt: &impl Abort,
    alloc: Global,
    field: &K,
    names: &[E<K>],
    list: &[Ore<E<K>>],
    want: &[&str],
) -> Result<(), Fail> {
    assert_eq!(rt; list.len(), want.len());
    for (member, text) in list.iter().zip(want) {
        let expected = row(alloc, names, text)?;
        assert!(rt; are_same(field, member.as_slice(), &expected)?, "{text}");
    }
    Ok(())
}

/// The source, the target, and the members of the full list.
const FULL: [(&str, &str, &[&str]); 4] = [
    ("2 1", "2 1", &["1", "2 1"]),
    ("2 1", "2 2", &["3", "1 3"]),
    ("2 1", "2 0 1", &[]),
    ("1 0 1", "1 0 1", &["1", "2", "0 1", "0 2"]),
];

fn check_full<K: FrobField>(
    rt: &impl Abort,
    alloc: Global,
    field: &K,
    names: &[E<K>],
) -> Result<(), Fail> {
    for (phi, psi, want) in FULL {
        let source = row(alloc, names, phi)?;
        let target = row(alloc, names, psi)?;
        let list = full_between(alloc, field, &source, &target)?;
        check_members(rt, alloc, field, names, &list, want)?;
    }
    Ok(())
}

#[test]
fn full_lists(rt: HostRuntime) -> Result<(), Fail> {
    let alloc = rt.alloc();
    let field = tower(alloc, FOUR)?;
    let names = elements(alloc, &field, 4)?;
    check_full(&rt, alloc, &field, &names)
}

/// The source, the target, the degree, and the members of the bounded list.
const BOUNDED: [(&str, &str, usize, &[&str]); 4] = [
    ("2 1", "2 1", 3, &["1", "2 1", "0 0 1", "0 0 2 1"]),
    ("2 1", "2 2", 0, &["3"]),
    ("2 1", "2 0 1", 5, &[]),
    ("1 0 1", "1 0 1", 0, &["1", "2"]),
];

fn check_bounded<K: FrobField>(
    rt: &impl Abort,
    alloc: Global,
    field: &K,
    names: &[E<K>],
) -> Result<(), Fail> {
    for (phi, psi, d, want) in BOUNDED {
        let source = row(alloc, names, phi)?;
        let target = row(alloc, names, psi)?;
        let list = bounded_between(alloc, field, &source, &target, d)?;
        check_members(rt, alloc, field, names, &list, want)?;
    }
    Ok(())
}

#[test]
fn bounded_lists_from_full_ones(rt: HostRuntime) -> Result<(), Fail> {
    let alloc = rt.alloc();
    let field = tower(alloc, FOUR)?;
    let names = elements(alloc, &field, 4)?;
    check_bounded(&rt, alloc, &field, &names)
}

/// That the isogeny has these coefficients, and that there is none where no row is given.
fn check_isogeny<K: FrobField>(
    rt: &impl Abort,
    alloc: Global,
    field: &K,
    names: &[E<K>],
    (phi, psi, want): (&str, &str, Option<&str>),
) -> Result<(), Fail> {
    let source = row(alloc, names, phi)?;
    let target = row(alloc, names, psi)?;
    match isogeny_between(alloc, field, &source, &target)? {
        Some(u) => {
            let text = want.ok_or("no isogeny")?;
            let expected = row(alloc, names, text)?;
            assert!(rt; are_same(field, u.as_slice(), &expected)?, "{phi}");
        }
        None => assert!(rt; want.is_none(), "{phi}"),
    }
    Ok(())
}

/// Over three elements there is no isogeny from `[1, 1]` to `[1, 2]`, which have the same rank.
#[test]
fn isogenies(rt: HostRuntime) -> Result<(), Fail> {
    let alloc = rt.alloc();
    let four = tower(alloc, FOUR)?;
    let names = elements(alloc, &four, 4)?;
    check_isogeny(&rt, alloc, &four, &names, ("2 1", "2 2", Some("3")))?;
    check_isogeny(&rt, alloc, &four, &names, ("2 1", "2 0 1", None))?;
    let three = tower(alloc, "3 1; 0 1 | 1; 0 1")?;
    let residues = elements(alloc, &three, 3)?;
    check_isogeny(&rt, alloc, &three, &residues, ("1 1", "1 2", None))
}
