//! All moduli of small degree: a field is made exactly where a plain count finds no pair of nonzero
//! residues that multiply to zero.

use super::data::top_number;
use super::plain::{Modulo, Number, Numbers, ROOM, Residues, digits, has_pair, is_pair};
use field_tower::{BaseFault, BaseField, Code, Tower, TowerFault};
use ring_core::lists::all_elems;
use std::alloc::Global;
use std::process::Abort;
use std::test::Fail;
use tests_support::fields::codes;

/// The monic polynomial of this degree whose lower coefficients are the digits of `a`.
fn monic(alloc: Global, p: u32, degree: u32, a: u32) -> Result<Vec<u32>, Fail> {
    let list = digits(p as Number, ROOM, a as Number);
    let mut modulus = Vec::new(alloc);
    for i in 0..degree {
        let digit = list.get(i as usize).copied().unwrap_or(0);
        modulus.push(u32::try_from(digit)?)?;
    }
    modulus.push(1)?;
    Ok(modulus)
}

/// Whether a base field is made modulo the polynomial. A refusal must carry a pair of `plain`.
fn makes_base<N: Numbers>(
    rt: &impl Abort,
    alloc: Global,
    plain: &N,
    (p, s): (u32, u32),
    modulus: &[u32],
) -> Result<bool, Fail> {
    match BaseField::make(alloc, p, s, modulus) {
        Ok(field) => {
            assert_eq!(rt; field.q() as Number, plain.size());
            Ok(true)
        }
        Err(BaseFault::ZeroDivisors { a, b }) => {
            assert!(rt;
                is_pair(plain, a as Number, b as Number),
                "{p} {modulus:?} {a} {b}"
            );
            Ok(false)
        }
        Err(_) => Err(Fail::new("a base field or a pair")),
    }
}

/// The same of a top field over the prime field.
fn makes_top<N: Numbers>(
    rt: &impl Abort,
    alloc: Global,
    plain: &N,
    (p, n): (u32, u32),
    modulus: &[Code],
) -> Result<bool, Fail> {
    let Ok(base) = BaseField::make(alloc, p, 1, &[0, 1]) else {
        return Err(Fail::new("a field of prime size"));
    };
    if !all_elems(&base, modulus) {
        return Err(Fail::new("elements of the base"));
    }
    let Err(refused) = Tower::make(alloc, base, n, modulus) else {
        return Ok(true);
    };
    let TowerFault::ZeroDivisors { a, b } = refused.why else {
        return Err(Fail::new("a top field or a pair"));
    };
    assert!(rt;
        is_pair(
            plain,
            top_number(rt, p as Number, a),
            top_number(rt, p as Number, b)
        ),
        "{p} {modulus:?}"
    );
    Ok(false)
}

/// How many of the first `count` monic polynomials of the degree make fields.
fn count_fields(
    rt: &impl Abort,
    alloc: Global,
    p: u32,
    degree: u32,
    count: u32,
) -> Result<u32, Fail> {
    let constants = Modulo(p as Number);
    let mut fields: u32 = 0;
    for a in 0..count {
        let modulus = monic(alloc, p, degree, a)?;
        let plain = Residues::new(&constants, &modulus);
        let is_field = !has_pair(&plain);
        let codes = codes(alloc, &modulus)?;
        let base = makes_base(rt, alloc, &plain, (p, degree), &modulus)?;
        let top = makes_top(rt, alloc, &plain, (p, degree), &codes)?;
        assert!(rt; base == is_field && top == is_field, "{p} {modulus:?}");
        fields = fields.wrapping_add(is_field as u32);
    }
    Ok(fields)
}

/// Of the `p^2` monic polynomials of degree 2 `(p^2 - p) / 2` are irreducible.
#[test]
fn moduli_of_degree_two(rt: HostRuntime) -> Result<(), Fail> {
    for (p, count, want) in [(2, 4, 1), (3, 9, 3), (5, 25, 10), (7, 49, 21)] {
        assert_eq!(rt; count_fields(&rt, rt.alloc(), p, 2, count)?, want, "{p}");
    }
    Ok(())
}

/// Of the `p^3` monic polynomials of degree 3 `(p^3 - p) / 3` are irreducible.
#[test]
fn moduli_of_degree_three(rt: HostRuntime) -> Result<(), Fail> {
    for (p, count, want) in [(2, 8, 2), (3, 27, 8)] {
        assert_eq!(rt; count_fields(&rt, rt.alloc(), p, 3, count)?, want, "{p}");
    }
    Ok(())
}
