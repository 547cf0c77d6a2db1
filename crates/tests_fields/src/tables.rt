//! Sums, products, negatives and inverses of base fields against the plain computation.

use super::plain::{Modulo, Number, Numbers, Residues};
use field_tower::{BaseField, Code};
use ring_core::Field;
use std::alloc::Global;
use std::process::Abort;
use std::test::Fail;
use tests_support::fields::{base_data, make_base};

/// The fields with at most 16 elements: the primes to 13, `F_4`, and `F_8`, `F_9` and `F_16` by every
/// modulus.
pub const SMALL: &str = "2 1; 0 1
3 1; 0 1
5 1; 0 1
7 1; 0 1
11 1; 0 1
13 1; 0 1
2 2; 1 1 1
2 3; 1 1 0 1
2 3; 1 0 1 1
3 2; 1 0 1
3 2; 2 1 1
3 2; 2 2 1
2 4; 1 1 0 0 1
2 4; 1 0 0 1 1
2 4; 1 1 1 1 1";

/// Larger fields, each by one modulus: `a^2 - 2` over 5 and 13, `a^3 - a - 1`, `a^4 + a + 2` and
/// `a^5 - a + 1` over 3, `a^2 + 1` over 7 and 11, `a^3 + a + 1` over 5, `a^5 + a^2 + 1`, `a^6 + a + 1`,
/// `a^7 + a + 1` and `a^8 + a^4 + a^3 + a + 1` over 2, and the numbers modulo 251.
pub const LARGE: &str = "5 2; 3 0 1
3 3; 2 2 0 1
2 5; 1 0 1 0 0 1
7 2; 1 0 1
2 6; 1 1 0 0 0 0 1
3 4; 2 1 0 0 1
11 2; 1 0 1
5 3; 1 1 0 1
2 7; 1 1 0 0 0 0 0 1
13 2; 11 0 1
3 5; 1 2 0 0 0 1
251 1; 0 1
2 8; 1 1 0 1 1 0 0 0 1";

/// Fields of more than 256 elements: the numbers modulo 257, `a^16 + a^5 + a^3 + a + 1` over 2, `a^10 - a^2 + 1` over 3,
/// `a^4 + a + 1` over 13 and `a^2 + 1` over 251.
pub const WIDE: &str = "257 1; 0 1
2 16; 1 1 0 1 0 1 0 0 0 0 0 0 0 0 0 0 1
3 10; 1 0 2 0 0 0 0 0 0 0 1
13 4; 1 1 0 0 1
251 2; 1 0 1";

/// The element with this number.
fn member(field: &BaseField, number: Number) -> Result<Code, Fail> {
    let a = Code::try_from(number)?;
    if field.is_elem(a) {
        Ok(a)
    } else {
        Err(Fail::new("the number of an element"))
    }
}

/// The sum and the product of the elements with these numbers.
fn check_pair<N: Numbers>(
    rt: &impl Abort,
    field: &BaseField,
    plain: &N,
    a: Number,
    b: Number,
) -> Result<(), Fail> {
    let left = member(field, a)?;
    let right = member(field, b)?;
    assert!(rt; field.is_elem(left) && field.is_elem(right));
    assert_eq!(rt;
        field.add(left, right) as Number,
        plain.add(a, b),
        "{a} + {b}"
    );
    assert_eq!(rt;
        field.mul(left, right) as Number,
        plain.mul(a, b),
        "{a} {b}"
    );
    Ok(())
}

/// The negative and the inverse of the element with this number: the inverse is the one whose plain
/// product with it is one.
fn check_one<N: Numbers>(
    rt: &impl Abort,
    field: &BaseField,
    plain: &N,
    a: Number,
) -> Result<(), Fail> {
    let member = member(field, a)?;
    assert!(rt; field.is_elem(member));
    assert_eq!(rt; field.neg(member) as Number, plain.neg(a), "-{a}");
    match field.inv(member) {
        None => assert_eq!(rt; a, 0),
        Some(inverse) => {
            assert!(rt; field.is_elem(inverse), "{a}");
            assert_eq!(rt; plain.mul(a, inverse as Number), 1, "{a}");
        }
    }
    Ok(())
}

fn check_all_with<N: Numbers>(
    rt: &impl Abort,
    field: &BaseField,
    plain: &N,
    a: Number,
) -> Result<(), Fail> {
    for b in 0..plain.size() {
        check_pair(rt, field, plain, a, b)?;
    }
    Ok(())
}

fn check_all_pairs<N: Numbers>(rt: &impl Abort, field: &BaseField, plain: &N) -> Result<(), Fail> {
    for a in 0..plain.size() {
        check_all_with(rt, field, plain, a)?;
    }
    Ok(())
}

fn check_all<N: Numbers>(rt: &impl Abort, field: &BaseField, plain: &N) -> Result<(), Fail> {
    for a in 0..plain.size() {
        check_one(rt, field, plain, a)?;
    }
    Ok(())
}

fn check_sample<N: Numbers>(
    rt: &impl Abort,
    field: &BaseField,
    plain: &Residues<'_, N>,
) -> Result<(), Fail> {
    let mut state = 1;
    for _ in 0..500 {
        let a = plain.sampled(&mut state);
        check_one(rt, field, plain, a)?;
        check_pair(rt, field, plain, a, plain.sampled(&mut state))?;
    }
    Ok(())
}

/// What of a field is compared.
#[derive(Drop)]
enum Extent {
    /// Every element, and every pair.
    Pairs,
    /// Every element, and a sample of pairs.
    Elements,
    /// A sample of elements and of pairs.
    Sample,
}

/// Zero, one and the size of the field of a row, and its elements and pairs.
fn check_field(rt: &impl Abort, alloc: Global, row: &str, extent: Extent) -> Result<(), Fail> {
    let data = base_data(alloc, row)?;
    let field = make_base(alloc, &data)?;
    let constants = Modulo(data.p as Number);
    let plain = Residues::new(&constants, &data.modulus);
    assert_eq!(rt;
        (field.p(), field.s(), field.q() as Number),
        (data.p, data.s, plain.size())
    );
    assert_eq!(rt; (field.zero(), field.one()), (0, 1));
    match extent {
        Extent::Pairs => {
            check_all(rt, &field, &plain)?;
            check_all_pairs(rt, &field, &plain)
        }
        Extent::Elements => {
            check_all(rt, &field, &plain)?;
            check_sample(rt, &field, &plain)
        }
        Extent::Sample => {
            check_one(rt, &field, &plain, 0)?;
            check_sample(rt, &field, &plain)
        }
    }
}

#[test]
fn small_fields(rt: HostRuntime) -> Result<(), Fail> {
    for row in SMALL.split('\n') {
        check_field(&rt, rt.alloc(), row, Extent::Pairs)?;
    }
    Ok(())
}

#[test]
fn large_fields(rt: HostRuntime) -> Result<(), Fail> {
    for row in LARGE.split('\n') {
        check_field(&rt, rt.alloc(), row, Extent::Elements)?;
    }
    Ok(())
}

#[test]
fn wide_fields(rt: HostRuntime) -> Result<(), Fail> {
    for row in WIDE.split('\n') {
        check_field(&rt, rt.alloc(), row, Extent::Sample)?;
    }
    Ok(())
}
