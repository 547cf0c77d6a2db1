//! Minimal polynomials against the product of `x - b` over the different conjugates `b`, by the plain
//! computation.

use super::data::{SIXTEEN, codes_of, of_places};
use super::plain::{Modulo, Number, Numbers, Residues, digits};
use field_tower::{Code, TopElem, Tower, WIDTH};
use fq_poly::Poly;
use ring_core::{Field, FrobField};
use std::alloc::Global;
use std::process::Abort;
use std::test::Fail;
use tests_support::fields::{codes, make_top, top_data};

/// `F_4` over two elements.
const FOUR: &str = "2 1; 0 1 | 2; 1 1 1";

/// `F_3[z] / (z^4 + z + 2)`.
const EIGHTY_ONE: &str = "3 1; 0 1 | 4; 2 1 0 0 1";

/// `F_2[z] / (z^12 + z^3 + 1)`.
const TWELVE: &str = "2 1; 0 1 | 12; 1 0 0 1 0 0 0 0 0 0 0 0 1";

/// The coefficients of `x - b` times the polynomial with these, all lowest first.
fn times_linear<N: Numbers>(
    alloc: Global,
    plain: &N,
    list: &[Number],
    b: Number,
) -> Result<Vec<Number>, Fail> {
    let mut product = Vec::new(alloc);
    let mut below = 0;
    for c in list {
        product.push(plain.add(below, plain.neg(plain.mul(b, *c))))?;
        below = *c;
    }
    product.push(below)?;
    Ok(product)
}

/// The product of `x - b` over the different powers `b` of `a` by `q^i`, where `q = p^s` and the field
/// has degree `n`: they come round to `a` after `n` steps at most.
fn conjugate_product<N: Numbers>(
    alloc: Global,
    plain: &Residues<'_, N>,
    q: (u32, u32),
    n: usize,
    a: Number,
) -> Result<Vec<Number>, Fail> {
    let mut product = Vec::new(alloc);
    product.push(1)?;
    let mut conjugate = a;
    for _ in 0..n {
        product = times_linear(alloc, plain, &product, conjugate)?;
        conjugate = plain.number(&plain.next_power(q, &plain.digits(conjugate)));
        if conjugate == a {
            return Ok(product);
        }
    }
    Err(Fail::new("conjugates that come round"))
}

/// The minimal polynomial of the element with this number.
fn min_poly_of(alloc: Global, tower: &Tower, a: Number) -> Result<Poly<Code>, Fail> {
    let c: TopElem = of_places(&digits(tower.base().q() as Number, WIDTH, a));
    if !tower.is_elem(c) {
        return Err(Fail::new("the number of an element"));
    }
    Ok(tower.min_poly(alloc, c)?)
}

/// Compares the minimal polynomial of the element with this number. A constant of the field has the
/// number of its code.
fn check_element<N: Numbers>(
    rt: &impl Abort,
    alloc: Global,
    tower: &Tower,
    plain: &Residues<'_, N>,
    a: Number,
) -> Result<(), Fail> {
    let q = (tower.base().p(), tower.base().s());
    let want = conjugate_product(alloc, plain, q, tower.degree(), a)?;
    let want = codes_of(alloc, &want)?;
    let got = min_poly_of(alloc, tower, a)?;
    assert_eq!(rt; got.as_slice(), want.as_slice(), "{a}");
    Ok(())
}

fn check_all<N: Numbers>(
    rt: &impl Abort,
    alloc: Global,
    tower: &Tower,
    plain: &Residues<'_, N>,
) -> Result<(), Fail> {
    for a in 0..plain.size() {
        check_element(rt, alloc, tower, plain, a)?;
    }
    Ok(())
}

fn check_sample<N: Numbers>(
    rt: &impl Abort,
    alloc: Global,
    tower: &Tower,
    plain: &Residues<'_, N>,
) -> Result<(), Fail> {
    let mut state = 1;
    for _ in 0..20 {
        let a = plain.sampled(&mut state);
        check_element(rt, alloc, tower, plain, a)?;
    }
    Ok(())
}

fn check_tower(rt: &impl Abort, alloc: Global, row: &str, all: bool) -> Result<(), Fail> {
    let data = top_data(alloc, row)?;
    let tower = make_top(alloc, &data)?;
    let prime = Modulo(data.base.p as Number);
    let constants = Residues::new(&prime, &data.base.modulus);
    let plain = Residues::new(&constants, &data.modulus);
    if all {
        check_all(rt, alloc, &tower, &plain)
    } else {
        check_sample(rt, alloc, &tower, &plain)
    }
}

#[test]
fn all_elements(rt: HostRuntime) -> Result<(), Fail> {
    for row in [FOUR, SIXTEEN, EIGHTY_ONE] {
        check_tower(&rt, rt.alloc(), row, true)?;
    }
    Ok(())
}

#[test]
fn sample_of_degree_twelve(rt: HostRuntime) -> Result<(), Fail> {
    check_tower(&rt, rt.alloc(), TWELVE, false)
}

/// Over two elements: of 0 it is `x`, of 1 it is `x + 1`, and of `z`, with the number 2, it is the modulus.
fn check_by_hand(rt: &impl Abort, alloc: Global, row: &str) -> Result<(), Fail> {
    let data = top_data(alloc, row)?;
    let tower = make_top(alloc, &data)?;
    let modulus = codes(alloc, &data.modulus)?;
    for (a, want) in [(0, [0, 1].as_slice()), (1, &[1, 1]), (2, &modulus)] {
        let got = min_poly_of(alloc, &tower, a)?;
        assert_eq!(rt; got.as_slice(), want, "{row} {a}");
    }
    Ok(())
}

#[test]
fn over_two_elements_by_hand(rt: HostRuntime) -> Result<(), Fail> {
    for row in [FOUR, TWELVE] {
        check_by_hand(&rt, rt.alloc(), row)?;
    }
    Ok(())
}
