//! Worked lists. The elements of the field of four elements are numbered 0, 1, 2 for `z` and 3 for `z + 1`.
use super::modules::{bounded_between, isomorphism_between};
use ring_core::{E, Field, FrobField};
use std::alloc::Global;
use std::process::Abort;
use std::test::Fail;
use tests_support::fields::{FOUR, elements, tower};
use tests_support::plain::are_same;
use tests_support::rings::elem;
use tests_support::twisted::row;

/// The source, the target, the degree, and the members of the list.
const LISTS: [(&str, &str, usize, &[&str]); 4] = [
    ("2 1", "2 1", 2, &["1", "2 1", "0 0 1"]),
    ("2 1", "2 2", 0, &["3"]),
    ("2 1", "2 0 1", 5, &[]),
    ("1 0 1", "1 0 1", 1, &["1", "2", "0 1", "0 2"]),
];

fn check_lists<K: FrobField>(
    rt: &impl Abort,
    alloc: Global,
    field: &K,
    names: &[E<K>],
) -> Result<(), Fail> {
    for (phi, psi, d, want) in LISTS {
        let source = row(alloc, names, phi)?;
        let target = row(alloc, names, psi)?;
        let list = bounded_between(alloc, field, &source, &target, d)?;
        assert_eq!(rt; list.len(), want.len(), "from {phi} to {psi} up to {d}");
        for (member, text) in list.iter().zip(want) {
            let expected = row(alloc, names, text)?;
            assert!(rt;
                are_same(field, member.as_slice(), &expected)?,
                "from {phi} to {psi} up to {d}: {text}"
            );
        }
    }
    Ok(())
}

#[test]
fn lists(rt: HostRuntime) -> Result<(), Fail> {
    let alloc = rt.alloc();
    let field = tower(alloc, FOUR)?;
    let names = elements(alloc, &field, 4)?;
    check_lists(&rt, alloc, &field, &names)
}

/// `c` behind `k` zeros.
pub fn behind_zeros<K: Field>(
    alloc: Global,
    field: &K,
    k: usize,
    list: &[E<K>],
) -> Result<Vec<E<K>>, Fail> {
    let mut longer = Vec::new(alloc);
    for _ in 0..k {
        let Ok(()) = longer.push(field.zero()) else {
            return Err(Fail::new("memory for a list"));
        };
    }
    for c in list {
        let Ok(()) = longer.push(*c) else {
            return Err(Fail::new("memory for a list"));
        };
    }
    Ok(longer)
}

/// The endomorphisms of `[z, 1]` up to degree 64 have the basis `t^(2i)` and `z t^(2i) + t^(2i + 1)`.
fn check_longest<K: FrobField>(
    rt: &impl Abort,
    alloc: Global,
    field: &K,
    names: &[E<K>],
) -> Result<(), Fail> {
    let phi = row(alloc, names, "2 1")?;
    let list = bounded_between(alloc, field, &phi, &phi, 64)?;
    assert_eq!(rt; list.len(), 65);
    for (place, member) in list.iter().enumerate() {
        let last = row(alloc, names, if place % 2 == 0 { "1" } else { "2 1" })?;
        let want = behind_zeros(alloc, field, place / 2 * 2, &last)?;
        assert!(rt;
            are_same(field, member.as_slice(), &want)?,
            "member {place}"
        );
    }
    Ok(())
}

#[test]
fn longest_list(rt: HostRuntime) -> Result<(), Fail> {
    let alloc = rt.alloc();
    let field = tower(alloc, FOUR)?;
    let names = elements(alloc, &field, 4)?;
    check_longest(&rt, alloc, &field, &names)
}

/// That the isomorphism is the element of this number, and that there is none where no number is given.
fn check_isomorphism<K: FrobField>(
    rt: &impl Abort,
    alloc: Global,
    field: &K,
    names: &[E<K>],
    (phi, psi, want): (&str, &str, Option<usize>),
) -> Result<(), Fail> {
    let source = row(alloc, names, phi)?;
    let target = row(alloc, names, psi)?;
    match isomorphism_between(alloc, field, &source, &target)? {
        Some(c) => {
            let number = want.ok_or("no isomorphism")?;
            let expected = names.get(number).ok_or("the number of an element")?;
            let answer = elem(field, c)?;
            assert!(rt;
                field.equal(answer, elem(field, *expected)?),
                "from {phi} to {psi}"
            );
        }
        None => assert!(rt; want.is_none(), "from {phi} to {psi}"),
    }
    Ok(())
}

/// Over three elements `[1, 1]` and `[1, 2]` have the same invariants, of which there are none, and aren't isomorphic.
#[test]
fn isomorphisms(rt: HostRuntime) -> Result<(), Fail> {
    let alloc = rt.alloc();
    let four = tower(alloc, FOUR)?;
    let names = elements(alloc, &four, 4)?;
    check_isomorphism(&rt, alloc, &four, &names, ("2 1", "2 2", Some(3)))?;
    check_isomorphism(&rt, alloc, &four, &names, ("2 1", "2 0 1", None))?;
    let three = tower(alloc, "3 1; 0 1 | 1; 0 1")?;
    let residues = elements(alloc, &three, 3)?;
    check_isomorphism(&rt, alloc, &three, &residues, ("1 1", "1 2", None))?;
    check_isomorphism(&rt, alloc, &three, &residues, ("1 2", "1 2", Some(1)))
}
