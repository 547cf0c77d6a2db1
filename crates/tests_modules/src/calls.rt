//! Modules from lists, their parts, and images of polynomials over the base. The elements of the field of four elements
//! are numbered 0, 1, 2 for `z` and 3 for `z + 1`.
use drinfeld_mod::{ModuleFault, as_ore, image_of, make};
use ring_core::lists::all_elems;
use ring_core::{E, FrobField};
use std::alloc::Global;
use std::process::Abort;
use std::test::Fail;
use tests_plain_modules::modules::{base_poly, module, rows};
use tests_plain_modules::plain::{plain_image, same};
use tests_support::fields::{FOUR, elements, tower};
use tests_support::plain::{are_same, numbered};
use tests_support::twisted::row;

/// What `make` says of the list: the rank of the module, or the fault.
fn made_of<K: FrobField>(
    alloc: Global,
    field: &K,
    list: &[E<K>],
) -> Result<Result<usize, ModuleFault>, Fail> {
    if !all_elems(field, list) {
        return Err(Fail::new("elements of the field"));
    }
    match make(alloc, field, list) {
        Ok(phi) => Ok(Ok(phi.rank())),
        Err(fault) => Ok(Err(fault)),
    }
}

/// The lists of one and of two members that have no rank, and one of ten; and lists of two and of nine members that have
/// one.
#[test]
fn lists_that_are_modules(rt: HostRuntime) -> Result<(), Fail> {
    let alloc = rt.alloc();
    let field = tower(alloc, FOUR)?;
    let names = elements(alloc, &field, 4)?;
    for text in ["2", "2 0", "2 1 0", "0 0 0 0 0 0 0 0 0 0"] {
        let answer = made_of(alloc, &field, &row(alloc, &names, text)?)?;
        assert!(rt; matches!(answer, Err(ModuleFault::NoRank)), "{text}");
    }
    for (text, rank) in [("2 1", 1), ("0 0 0 0 0 0 0 0 3", 8)] {
        let answer = made_of(alloc, &field, &row(alloc, &names, text)?)?;
        assert!(rt; matches!(answer, Ok(r) if r == rank), "{text}");
    }
    let answer = made_of(alloc, &field, &row(alloc, &names, "0 0 0 0 0 0 0 0 0 3")?)?;
    assert!(rt; matches!(answer, Err(ModuleFault::TooLarge)));
    assert!(rt; matches!(made_of(alloc, &field, &[])?, Err(ModuleFault::NoRank)));
    Ok(())
}

/// The parts of a module of rank 2, its image of T, and a copy of it.
fn check_parts<K: FrobField>(
    rt: &impl Abort,
    alloc: Global,
    field: &K,
    list: &[E<K>],
) -> Result<(), Fail> {
    let phi = module(alloc, field, list)?;
    let Some(first) = list.first() else {
        return Err(Fail::new("a constant"));
    };
    assert!(rt; same(field, phi.constant(), *first)?);
    assert_eq!(rt; phi.rank(), 2);
    assert!(rt; phi.at(2).is_some() && phi.at(3).is_none());
    let letter = as_ore(alloc, field, &phi)?;
    assert!(rt; are_same(field, letter.as_slice(), list)?);
    let copy = phi.copied(alloc)?;
    assert!(rt; are_same(field, &copy.into_vec(), list)?);
    Ok(())
}

#[test]
fn parts(rt: HostRuntime) -> Result<(), Fail> {
    let alloc = rt.alloc();
    let field = tower(alloc, FOUR)?;
    let names = elements(alloc, &field, 4)?;
    check_parts(&rt, alloc, &field, &row(alloc, &names, "2 0 3")?)
}

/// That the image of the polynomial `a` over the base is `want`.
fn check_image<K: FrobField>(
    rt: &impl Abort,
    alloc: Global,
    field: &K,
    (phi, a, want): (&[E<K>], &[E<K>], &[E<K>]),
    label: &str,
) -> Result<(), Fail> {
    let phi = module(alloc, field, phi)?;
    let a = base_poly(alloc, field, a)?;
    let image = image_of(alloc, field, &phi, &a)?;
    assert!(rt; are_same(field, image.as_slice(), want)?, "{label}");
    Ok(())
}

/// The images of all polynomials of degree at most 2, compared with plain ones.
fn check_images<K: FrobField>(
    rt: &impl Abort,
    alloc: Global,
    field: &K,
    names: &[E<K>],
    base: &[E<K>],
    text: &str,
) -> Result<(), Fail> {
    let phi = row(alloc, names, text)?;
    for number in 0..base.len().saturating_pow(3) {
        let a = numbered(alloc, base, 3, number)?;
        let want = plain_image(alloc, field, base.len(), &phi, &a)?;
        check_image(rt, alloc, field, (&phi, &a, &want), text)?;
    }
    Ok(())
}

#[test]
fn images(rt: HostRuntime) -> Result<(), Fail> {
    let alloc = rt.alloc();
    let field = tower(alloc, FOUR)?;
    let names = elements(alloc, &field, 4)?;
    let base = elements(alloc, &field, 2)?;
    for text in ["2 1", "1 0 1", "2 1 3", "0 2 3 1"] {
        check_images(&rt, alloc, &field, &names, &base, text)?;
    }
    Ok(())
}

/// A module, a polynomial over the base and its image, worked out by hand.
const IMAGES: [&str; 4] = [
    "2 1; 0 1 1; 1 0 1",
    "2 1; 0; 0",
    "1 0 1; 1 1; 0 0 1",
    "2 1; 1 1 1; 0 0 1",
];

fn check_row<K: FrobField>(
    rt: &impl Abort,
    alloc: Global,
    field: &K,
    names: &[E<K>],
    text: &str,
) -> Result<(), Fail> {
    let lists = rows(alloc, names, text)?;
    let [phi, a, want] = lists.as_slice() else {
        return Err(Fail::new("a module, a polynomial and an image"));
    };
    check_image(rt, alloc, field, (phi, a, want), text)
}

#[test]
fn worked_images(rt: HostRuntime) -> Result<(), Fail> {
    let alloc = rt.alloc();
    let field = tower(alloc, FOUR)?;
    let names = elements(alloc, &field, 4)?;
    for text in IMAGES {
        check_row(&rt, alloc, &field, &names, text)?;
    }
    Ok(())
}
