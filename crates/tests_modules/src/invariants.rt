//! Invariants, compared with repeated products: `j_i` times the power `b` of the last coefficient is the power `a` of
//! coefficient `i`.
ghost use Rattle.residue_field.specs.Top.{ops_of_top};
ghost use Rattle.drinfeld_mod.specs.Module.{IsModule};

use drinfeld_mod::{Module, j};
use field_tower::{TopElem, Tower};
use ring_core::FrobField;
use std::alloc::Global;
use std::process::Abort;
use std::test::Fail;
use tests_plain_modules::modules::module;
use tests_plain_modules::plain::{power, same, times};
use tests_support::fields::{FOUR, NINE, elements, tower};
use tests_support::plain::numbered;
use tests_support::twisted::row;

fn invariant(field: &Tower, phi: &Module<TopElem>, i: usize) -> Option<TopElem>
    requires { IsModule (ops_of_top field.now) phi.now }
{
    j(field, field.base().q(), phi, i)
}

/// Coefficient `i` to the power `k`.
fn coefficient_power(field: &Tower, list: &[TopElem], i: usize, k: usize) -> Result<TopElem, Fail> {
    let Some(coefficient) = list.get(i) else {
        return Err(Fail::new("a coefficient"));
    };
    power(field, *coefficient, k)
}

/// That `j_i` of the module times the power `b` of the last coefficient is the power `a` of coefficient `i`.
fn check_invariant(
    rt: &impl Abort,
    alloc: Global,
    field: &Tower,
    list: &[TopElem],
    i: usize,
    (a, b): (usize, usize),
) -> Result<(), Fail> {
    let phi = module(alloc, field, list)?;
    let Some(x) = invariant(field, &phi, i) else {
        return Err(Fail::new("an invariant"));
    };
    let bottom = coefficient_power(field, list, phi.rank(), b)?;
    let product = times(field, x, bottom)?;
    let top = coefficient_power(field, list, i, a)?;
    assert!(rt; same(field, product, top)?, "j_{i}");
    Ok(())
}

/// The invariant `j_1` of all modules of rank 2 over a base of `q` elements: `g_1^(q + 1) / g_2`.
fn check_all(rt: &impl Abort, alloc: Global, text: &str, size: u32, q: usize) -> Result<(), Fail> {
    let field = tower(alloc, text)?;
    let names = elements(alloc, &field, size)?;
    let size = names.len();
    for number in size.saturating_pow(2)..size.saturating_pow(3) {
        let list = numbered(alloc, &names, 3, number)?;
        check_invariant(rt, alloc, &field, &list, 1, (q.saturating_add(1), 1))?;
    }
    Ok(())
}

#[test]
fn over_four_elements(rt: HostRuntime) -> Result<(), Fail> {
    check_all(&rt, rt.alloc(), FOUR, 4, 2)
}

#[test]
fn over_nine_elements(rt: HostRuntime) -> Result<(), Fail> {
    check_all(&rt, rt.alloc(), NINE, 9, 3)
}

/// The exponents of a module of rank `r` over `q` elements are `(q^r - 1) / (q^e - 1)` and `(q^i - 1) / (q^e - 1)` for
/// the greatest common divisor `e` of `i` and `r`.
#[test]
fn of_higher_ranks(rt: HostRuntime) -> Result<(), Fail> {
    let alloc = rt.alloc();
    let field = tower(alloc, FOUR)?;
    let names = elements(alloc, &field, 4)?;
    for (text, i, exponents) in [
        ("2 2 3 2", 1, (7, 1)),
        ("2 2 3 2", 2, (7, 3)),
        ("2 0 2 0 2", 2, (5, 1)),
        ("1 3 2 0 2", 1, (15, 1)),
        ("1 3 2 2 3", 3, (15, 7)),
        ("1 0 0 0 0 0 2 0 3", 6, (85, 21)),
    ] {
        let list = row(alloc, &names, text)?;
        check_invariant(&rt, alloc, &field, &list, i, exponents)?;
    }
    Ok(())
}

fn check_none(
    rt: &impl Abort,
    alloc: Global,
    field: &Tower,
    list: &[TopElem],
    i: usize,
) -> Result<(), Fail> {
    let phi = module(alloc, field, list)?;
    assert!(rt; invariant(field, &phi, i).is_none(), "j_{i}");
    Ok(())
}

#[test]
fn no_such_invariant(rt: HostRuntime) -> Result<(), Fail> {
    let alloc = rt.alloc();
    let field = tower(alloc, FOUR)?;
    let names = elements(alloc, &field, 4)?;
    for (text, i) in [
        ("2 1", 0),
        ("2 1", 1),
        ("2 1 2", 0),
        ("2 1 2", 2),
        ("2 1 2", 3),
    ] {
        let list = row(alloc, &names, text)?;
        check_none(&rt, alloc, &field, &list, i)?;
    }
    Ok(())
}
