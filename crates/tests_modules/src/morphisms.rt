//! Compositions, sums and multiples of homomorphisms over the field of four elements, worked out by hand. The elements
//! are numbered 0, 1, 2 for `z` and 3 for `z + 1`.
ghost use Rattle.std.specs.Prelude.{◌≡◌, IfOk};
ghost use Rattle.drinfeld_mod.specs.Module.{IsModule};
ghost use Rattle.morphism.specs.Arrow.{IsMorphism};

use drinfeld_mod::Module;
use morphism::{Morphism, act, add, check, compose, is_homomorphism};
use ring_core::{E, FrobField};
use std::alloc::Global;
use std::process::Abort;
use std::test::Fail;
use tests_plain_modules::modules::{base_poly, meet, module, rows};
use tests_support::fields::{FOUR, elements, tower};
use tests_support::plain::are_same;
use tests_support::twisted::{made, row};

/// The homomorphism with these coefficients.
fn homomorphism<K: FrobField>(
    alloc: Global,
    field: &K,
    phi: &Module<E<K>>,
    psi: &Module<E<K>>,
    list: &[E<K>],
) -> Result<Morphism<E<K>>, Fail>
    requires source { IsModule (K.ops field.now) phi.now }
    requires target { IsModule (K.ops field.now) psi.now }
    ensures source { IfOk result (λ m. m.source ≡ phi.now) }
    ensures target { IfOk result (λ m. m.target ≡ psi.now) }
    ensures morphism { IfOk result (IsMorphism (K.ops field.now) (K.frob_ops field.now).frob) }
{
    meet(field, phi, psi)?;
    let u = made(alloc, field, list)?;
    let Some(m) = check(alloc, field, phi, psi, &u)? else {
        return Err(Fail::new("a homomorphism"));
    };
    Ok(m)
}

/// The composition of `u` from `phi` to `psi` and `v` from `psi` to `chi`.
fn composed<K: FrobField>(
    alloc: Global,
    field: &K,
    (phi, psi, chi): (&[E<K>], &[E<K>], &[E<K>]),
    u: &[E<K>],
    v: &[E<K>],
) -> Result<Morphism<E<K>>, Fail> {
    let phi = module(alloc, field, phi)?;
    let psi = module(alloc, field, psi)?;
    let chi = module(alloc, field, chi)?;
    let first = homomorphism(alloc, field, &phi, &psi, u)?;
    let second = homomorphism(alloc, field, &psi, &chi, v)?;
    Ok(compose(alloc, field, &second, &first)?)
}

/// The sum of `u` and `v` from `phi` to `psi`.
fn added<K: FrobField>(
    alloc: Global,
    field: &K,
    (phi, psi): (&[E<K>], &[E<K>]),
    u: &[E<K>],
    v: &[E<K>],
) -> Result<Morphism<E<K>>, Fail> {
    let phi = module(alloc, field, phi)?;
    let psi = module(alloc, field, psi)?;
    let left = homomorphism(alloc, field, &phi, &psi, u)?;
    let right = homomorphism(alloc, field, &phi, &psi, v)?;
    Ok(add(alloc, field, &left, &right)?)
}

/// What the polynomial `a` over the base makes of `u` from `phi` to `psi`.
fn acted<K: FrobField>(
    alloc: Global,
    field: &K,
    (phi, psi): (&[E<K>], &[E<K>]),
    u: &[E<K>],
    a: &[E<K>],
) -> Result<Morphism<E<K>>, Fail> {
    let phi = module(alloc, field, phi)?;
    let psi = module(alloc, field, psi)?;
    let m = homomorphism(alloc, field, &phi, &psi, u)?;
    let a = base_poly(alloc, field, a)?;
    Ok(act(alloc, field, &m, &a)?)
}

/// That `m` is `u` from `phi` to `psi`.
fn check_morphism<K: FrobField>(
    rt: &impl Abort,
    field: &K,
    m: &Morphism<E<K>>,
    (phi, psi, u): (&[E<K>], &[E<K>], &[E<K>]),
    label: &str,
) -> Result<(), Fail> {
    assert!(rt; are_same(field, m.source().as_slice(), phi)?, "{label}");
    assert!(rt; are_same(field, m.target().as_slice(), psi)?, "{label}");
    assert!(rt; are_same(field, m.ore().as_slice(), u)?, "{label}");
    Ok(())
}

/// Three modules, a homomorphism from the first to the second, one from the second to the third, and the composition.
const COMPOSITIONS: [&str; 5] = [
    "2 1; 2 1; 2 1; 2 1; 2 1; 3 1 1",
    "2 1; 2 1; 2 2; 2 1; 3; 1 3",
    "2 1; 2 2; 2 1; 3; 2; 1",
    "1 0 1; 1 0 1; 1 0 1; 0 2; 0 1; 0 0 3",
    "1 0 1; 1 0 1; 1 0 1; 0 1; 0 2; 0 0 2",
];

fn check_composition<K: FrobField>(
    rt: &impl Abort,
    alloc: Global,
    field: &K,
    names: &[E<K>],
    text: &str,
) -> Result<(), Fail> {
    let lists = rows(alloc, names, text)?;
    let [phi, psi, chi, u, v, want] = lists.as_slice() else {
        return Err(Fail::new("three modules, two homomorphisms and a composition"));
    };
    let m = composed(alloc, field, (phi, psi, chi), u, v)?;
    check_morphism(rt, field, &m, (phi, chi, want), text)
}

#[test]
fn compositions(rt: HostRuntime) -> Result<(), Fail> {
    let alloc = rt.alloc();
    let field = tower(alloc, FOUR)?;
    let names = elements(alloc, &field, 4)?;
    for text in COMPOSITIONS {
        check_composition(&rt, alloc, &field, &names, text)?;
    }
    Ok(())
}

/// Two modules, two homomorphisms from the first to the second, and their sum.
const SUMS: [&str; 4] = [
    "2 1; 2 1; 1; 2 1; 3 1",
    "2 1; 2 1; 2 1; 2 1; 0",
    "1 0 1; 1 0 1; 0 2; 1 1; 1 3",
    "2 1; 2 2; 3; 1 3; 2 3",
];

fn check_sum<K: FrobField>(
    rt: &impl Abort,
    alloc: Global,
    field: &K,
    names: &[E<K>],
    text: &str,
) -> Result<(), Fail> {
    let lists = rows(alloc, names, text)?;
    let [phi, psi, u, v, want] = lists.as_slice() else {
        return Err(Fail::new("two modules, two homomorphisms and a sum"));
    };
    let m = added(alloc, field, (phi, psi), u, v)?;
    check_morphism(rt, field, &m, (phi, psi, want), text)
}

#[test]
fn sums(rt: HostRuntime) -> Result<(), Fail> {
    let alloc = rt.alloc();
    let field = tower(alloc, FOUR)?;
    let names = elements(alloc, &field, 4)?;
    for text in SUMS {
        check_sum(&rt, alloc, &field, &names, text)?;
    }
    Ok(())
}

/// Two modules, a homomorphism from the first to the second, a polynomial over the base, and what it makes of the
/// homomorphism.
const MULTIPLES: [&str; 5] = [
    "2 1; 2 1; 2 1; 1 1; 1 0 1",
    "2 1; 2 1; 1; 0 1 1; 1 0 1",
    "2 1; 2 2; 3; 0 1; 1 3",
    "1 0 1; 1 0 1; 0 2; 1 1; 0 0 0 2",
    "1 0 1; 1 0 1; 0 2; 0; 0",
];

fn check_multiple<K: FrobField>(
    rt: &impl Abort,
    alloc: Global,
    field: &K,
    names: &[E<K>],
    text: &str,
) -> Result<(), Fail> {
    let lists = rows(alloc, names, text)?;
    let [phi, psi, u, a, want] = lists.as_slice() else {
        return Err(Fail::new("two modules, a homomorphism, a polynomial and a multiple"));
    };
    let m = acted(alloc, field, (phi, psi), u, a)?;
    check_morphism(rt, field, &m, (phi, psi, want), text)
}

#[test]
fn multiples(rt: HostRuntime) -> Result<(), Fail> {
    let alloc = rt.alloc();
    let field = tower(alloc, FOUR)?;
    let names = elements(alloc, &field, 4)?;
    for text in MULTIPLES {
        check_multiple(&rt, alloc, &field, &names, text)?;
    }
    Ok(())
}

/// Whether `u` from `phi` to `psi` is an isogeny, and whether it is an isomorphism; None where it is no homomorphism.
fn kind<K: FrobField>(
    alloc: Global,
    field: &K,
    (phi, psi, u): (&[E<K>], &[E<K>], &[E<K>]),
) -> Result<Option<(bool, bool)>, Fail> {
    let phi = module(alloc, field, phi)?;
    let psi = module(alloc, field, psi)?;
    meet(field, &phi, &psi)?;
    let u = made(alloc, field, u)?;
    match check(alloc, field, &phi, &psi, &u)? {
        Some(m) => Ok(Some((m.is_isogeny(), m.is_isomorphism()))),
        None => Ok(None),
    }
}

/// Whether `u` is a homomorphism from `phi` to `psi`.
fn commutes<K: FrobField>(
    alloc: Global,
    field: &K,
    (phi, psi, u): (&[E<K>], &[E<K>], &[E<K>]),
) -> Result<bool, Fail> {
    let phi = module(alloc, field, phi)?;
    let psi = module(alloc, field, psi)?;
    let u = made(alloc, field, u)?;
    Ok(is_homomorphism(alloc, field, &phi, &psi, &u)?)
}

fn check_kind<K: FrobField>(
    rt: &impl Abort,
    alloc: Global,
    field: &K,
    names: &[E<K>],
    text: &str,
    want: Option<(bool, bool)>,
) -> Result<(), Fail> {
    let lists = rows(alloc, names, text)?;
    let [phi, psi, u] = lists.as_slice() else {
        return Err(Fail::new("two modules and a twisted polynomial"));
    };
    assert_eq!(rt; kind(alloc, field, (phi, psi, u))?, want, "{text}");
    assert_eq!(rt;
        commutes(alloc, field, (phi, psi, u))?,
        want.is_some(),
        "{text}"
    );
    Ok(())
}

#[test]
fn kinds(rt: HostRuntime) -> Result<(), Fail> {
    let alloc = rt.alloc();
    let field = tower(alloc, FOUR)?;
    let names = elements(alloc, &field, 4)?;
    for (text, want) in [
        ("2 1; 2 2; 3", Some((true, true))),
        ("2 1; 2 1; 2 1", Some((true, false))),
        ("2 1; 2 2; 0", Some((false, false))),
        ("2 1; 2 2; 1", None),
    ] {
        check_kind(&rt, alloc, &field, &names, text, want)?;
    }
    Ok(())
}
