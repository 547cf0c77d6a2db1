//! Characteristic and height of all modules of rank 2 over the fields of four and nine elements, compared with plain
//! computations.
use drinfeld_mod::{characteristic, height, is_ordinary, is_supersingular};
use ring_core::{E, FrobField};
use std::alloc::Global;
use std::process::Abort;
use std::test::Fail;
use tests_plain_modules::modules::{embedded, module};
use tests_plain_modules::plain::{plain_characteristic, plain_height};
use tests_support::fields::{FOUR, NINE, elements, tower};
use tests_support::plain::{are_same, numbered};

/// That the characteristic of the module is the polynomial `want`.
fn check_characteristic<K: FrobField>(
    rt: &impl Abort,
    alloc: Global,
    field: &K,
    list: &[E<K>],
    want: &[E<K>],
    number: usize,
) -> Result<(), Fail> {
    let phi = module(alloc, field, list)?;
    let answer = characteristic(alloc, field, &phi)?;
    assert_eq!(rt; answer.len(), want.len(), "module {number}");
    let coefficients = embedded(alloc, field, answer.as_slice())?;
    assert!(rt; are_same(field, &coefficients, want)?, "module {number}");
    Ok(())
}

/// That the height of the module, which has the rank 2, is `want`.
fn check_height<K: FrobField>(
    rt: &impl Abort,
    alloc: Global,
    field: &K,
    list: &[E<K>],
    want: usize,
    number: usize,
) -> Result<(), Fail> {
    let phi = module(alloc, field, list)?;
    assert_eq!(rt; height(alloc, field, &phi)?, want, "module {number}");
    assert_eq!(rt;
        is_ordinary(alloc, field, &phi)?,
        want == 1,
        "module {number}"
    );
    assert_eq!(rt;
        is_supersingular(alloc, field, &phi)?,
        want == 2,
        "module {number}"
    );
    Ok(())
}

/// The module whose coefficients have as their numbers the digits of `number`, over a base of these elements.
fn check_module<K: FrobField>(
    rt: &impl Abort,
    alloc: Global,
    field: &K,
    names: &[E<K>],
    base: &[E<K>],
    number: usize,
) -> Result<(), Fail> {
    let list = numbered(alloc, names, 3, number)?;
    let p = plain_characteristic(alloc, field, base, field.degree(), &list)?;
    check_characteristic(rt, alloc, field, &list, &p, number)?;
    let h = plain_height(alloc, field, base.len(), &list, &p)?;
    check_height(rt, alloc, field, &list, h, number)
}

/// All lists of three coefficients of which the last isn't zero.
fn check_all<K: FrobField>(
    rt: &impl Abort,
    alloc: Global,
    field: &K,
    names: &[E<K>],
    base: &[E<K>],
) -> Result<(), Fail> {
    let size = names.len();
    for number in size.saturating_pow(2)..size.saturating_pow(3) {
        check_module(rt, alloc, field, names, base, number)?;
    }
    Ok(())
}

#[test]
fn over_four_elements(rt: HostRuntime) -> Result<(), Fail> {
    let alloc = rt.alloc();
    let field = tower(alloc, FOUR)?;
    let names = elements(alloc, &field, 4)?;
    let base = elements(alloc, &field, 2)?;
    check_all(&rt, alloc, &field, &names, &base)
}

#[test]
fn over_nine_elements(rt: HostRuntime) -> Result<(), Fail> {
    let alloc = rt.alloc();
    let field = tower(alloc, NINE)?;
    let names = elements(alloc, &field, 9)?;
    let base = elements(alloc, &field, 3)?;
    check_all(&rt, alloc, &field, &names, &base)
}
