//! Quotients of four modules of rank 2 over the field of four elements by all twisted polynomials of degree at most 2,
//! against a search of the other factor among all modules of that rank. The elements are numbered 0, 1, 2 for `z` and 3
//! for `z + 1`; a module has as its number the one whose digits in base 4 are the numbers of its coefficients, lowest
//! first.
use drinfeld_mod::Module;
use kernel_quotient::{NoQuotient, quotient};
use ring_core::{E, FrobField};
use std::alloc::Global;
use std::process::Abort;
use std::test::Fail;
use tests_plain_modules::modules::module;
use tests_plain_modules::plain::same;
use tests_support::fields::{FOUR, elements, tower};
use tests_support::plain::{are_same, numbered, plain_product};
use tests_support::twisted::{made, row};

const MODULES: [&str; 4] = ["2 1 1", "1 0 1", "0 2 1", "2 3 2"];

/// The quotient of the module with these coefficients by the twisted polynomial with those.
fn divided<K: FrobField>(
    alloc: Global,
    field: &K,
    phi: &[E<K>],
    u: &[E<K>],
) -> Result<Result<Module<E<K>>, NoQuotient<E<K>>>, Fail> {
    let source = module(alloc, field, phi)?;
    let divisor = made(alloc, field, u)?;
    Ok(quotient(alloc, field, &source, &divisor))
}

/// The products `psi u` of all modules `psi` of rank 2, in the order of their numbers, from 16 on.
fn products<K: FrobField>(
    alloc: Global,
    field: &K,
    names: &[E<K>],
    u: &[E<K>],
) -> Result<Vec<Vec<E<K>>>, Fail> {
    let mut list = Vec::new(alloc);
    for number in 16..64 {
        let psi = numbered(alloc, names, 3, number)?;
        list.push(plain_product(alloc, field, &psi, u)?)?;
    }
    Ok(list)
}

/// The number of the first module whose product is `u phi_T`.
fn other_factor<K: FrobField>(
    field: &K,
    products: &[Vec<E<K>>],
    left: &[E<K>],
) -> Result<Option<usize>, Fail> {
    for (place, right) in products.iter().enumerate() {
        if are_same(field, left, right)? {
            return Ok(Some(place.saturating_add(16)));
        }
    }
    Ok(None)
}

/// That the answer is the other factor where it has the constant of `phi`, and else the fault with its constant.
fn check_factor<K: FrobField>(
    rt: &impl Abort,
    field: &K,
    answer: &Result<Module<E<K>>, NoQuotient<E<K>>>,
    phi: &[E<K>],
    factor: &[E<K>],
) -> Result<(), Fail> {
    let (Some(constant), Some(other)) = (phi.first(), factor.first()) else {
        return Err(Fail::new("constants"));
    };
    let kept = same(field, *constant, *other)?;
    match answer {
        Ok(psi) => assert!(rt; kept && are_same(field, psi.as_slice(), factor)?),
        Err(NoQuotient::Constant(c)) => assert!(rt; !kept && same(field, *c, *other)?),
        Err(_) => return Err(Fail::new("a quotient, or its constant")),
    }
    Ok(())
}

/// That the answer is the fault with a remainder that isn't zero and has fewer than `len` coefficients.
fn check_remainder<C: Copy>(
    rt: &impl Abort,
    answer: &Result<Module<C>, NoQuotient<C>>,
    len: usize,
) -> Result<(), Fail> {
    match answer {
        Err(NoQuotient::Remainder(rest)) => assert!(rt; rest.len() > 0 && rest.len() < len),
        _ => return Err(Fail::new("a remainder")),
    }
    Ok(())
}

/// The quotient of the module of a row by `u`, which isn't zero.
fn check_quotient<K: FrobField>(
    rt: &impl Abort,
    alloc: Global,
    field: &K,
    names: &[E<K>],
    products: &[Vec<E<K>>],
    text: &str,
    u: &[E<K>],
) -> Result<(), Fail> {
    let phi = row(alloc, names, text)?;
    let answer = divided(alloc, field, &phi, u)?;
    let left = plain_product(alloc, field, u, &phi)?;
    let Some(number) = other_factor(field, products, &left)? else {
        return check_remainder(rt, &answer, u.len());
    };
    let factor = numbered(alloc, names, 3, number)?;
    check_factor(rt, field, &answer, &phi, &factor)
}

/// The quotients of the four modules by the twisted polynomial with this number.
fn check_divisor<K: FrobField>(
    rt: &impl Abort,
    alloc: Global,
    field: &K,
    names: &[E<K>],
    number: usize,
) -> Result<(), Fail> {
    let u = numbered(alloc, names, 3, number)?;
    let products = products(alloc, field, names, &u)?;
    for text in MODULES {
        check_quotient(rt, alloc, field, names, &products, text, &u)?;
    }
    Ok(())
}

#[test]
fn by_all_of_degree_two(rt: HostRuntime) -> Result<(), Fail> {
    let alloc = rt.alloc();
    let field = tower(alloc, FOUR)?;
    let names = elements(alloc, &field, 4)?;
    for number in 1..64 {
        check_divisor(&rt, alloc, &field, &names, number)?;
    }
    Ok(())
}

#[test]
fn by_zero(rt: HostRuntime) -> Result<(), Fail> {
    let alloc = rt.alloc();
    let field = tower(alloc, FOUR)?;
    let names = elements(alloc, &field, 4)?;
    for text in MODULES {
        let phi = row(alloc, &names, text)?;
        let answer = divided(alloc, &field, &phi, &[])?;
        assert!(rt; matches!(answer, Err(NoQuotient::Zero)), "{text}");
    }
    Ok(())
}
