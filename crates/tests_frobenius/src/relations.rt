//! The least relation of Frobenius, and its power, of all 48 modules of rank 2 over the field of four elements. Frobenius
//! is `tau^2`. Where `tau^2 + phi_c` is zero for a polynomial `c` of degree at most 1, the relation is `X + c`; else
//! there is one pair of `a` of degree at most 1 and `b` of degree at most 2 for which `tau^4 + phi_a tau^2 + phi_b` is
//! zero, and the relation is `X^2 + a X + b`. These are found by a search, with plain products.
use super::worked::{check_lists, least, whole};
use ring_core::{E, Field, FrobField};
use std::alloc::Global;
use std::process::Abort;
use std::test::Fail;
use tests_plain_modules::plain::{plain_characteristic, plain_image, same};
use tests_support::fields::{FOUR, elements, tower};
use tests_support::plain::{are_same, numbered, plain_product, plain_sum};

/// The images of the eight polynomials of degree at most 2 over two elements, in the order of their numbers.
fn images<K: FrobField>(
    alloc: Global,
    field: &K,
    base: &[E<K>],
    phi: &[E<K>],
) -> Result<Vec<Vec<E<K>>>, Fail> {
    let mut list = Vec::new(alloc);
    for number in 0..8 {
        let a = numbered(alloc, base, 3, number)?;
        list.push(plain_image(alloc, field, 2, phi, &a)?)?;
    }
    Ok(list)
}

/// The number of the first image whose sum with `u` is zero.
fn opposite<K: FrobField>(
    alloc: Global,
    field: &K,
    images: &[Vec<E<K>>],
    u: &[E<K>],
) -> Result<Option<usize>, Fail> {
    for (number, image) in images.iter().enumerate() {
        let sum = plain_sum(alloc, field, image, u)?;
        if are_same(field, &sum, &[])? {
            return Ok(Some(number));
        }
    }
    Ok(None)
}

/// The number of the `b` that belongs to the image of `a`: of that with `tau^4 + phi_a tau^2 + phi_b` zero.
fn partner<K: FrobField>(
    alloc: Global,
    field: &K,
    images: &[Vec<E<K>>],
    frobenius: &[E<K>],
    image: &[E<K>],
) -> Result<Option<usize>, Fail> {
    let square = plain_product(alloc, field, frobenius, frobenius)?;
    let product = plain_product(alloc, field, image, frobenius)?;
    let sum = plain_sum(alloc, field, &square, &product)?;
    opposite(alloc, field, images, &sum)
}

/// The numbers of `b` and `a` for the four `a` of degree at most 1.
fn pairs<K: FrobField>(
    alloc: Global,
    field: &K,
    images: &[Vec<E<K>>],
    frobenius: &[E<K>],
) -> Result<Vec<(usize, usize)>, Fail> {
    let mut list = Vec::new(alloc);
    for (a, image) in images.iter().take(4).enumerate() {
        if let Some(b) = partner(alloc, field, images, frobenius, image)? {
            list.push((b, a))?;
        }
    }
    Ok(list)
}

/// The square of a polynomial over the base, whose elements the Frobenius fixes.
fn square<K: FrobField>(alloc: Global, field: &K, a: &[E<K>]) -> Result<Vec<E<K>>, Fail> {
    plain_product(alloc, field, a, a)
}

/// Whether the polynomial is one.
fn is_one<K: Field>(field: &K, a: &[E<K>]) -> Result<bool, Fail> {
    match a {
        [only] => same(field, *only, field.one()),
        _ => Ok(false),
    }
}

/// That the polynomial in `X` is `X^2 + a X + b`.
fn check_quadratic<K: FrobField>(
    rt: &impl Abort,
    field: &K,
    list: &[Vec<E<K>>],
    (b, a): (&[E<K>], &[E<K>]),
    number: usize,
) -> Result<(), Fail> {
    let [lowest, middle, top] = list else {
        return Err(Fail::new("a polynomial of degree 2"));
    };
    assert!(rt; are_same(field, lowest, b)?, "module {number}");
    assert!(rt; are_same(field, middle, a)?, "module {number}");
    assert!(rt; is_one(field, top)?, "module {number}");
    Ok(())
}

/// That the least relation is `X + c`, and its power the square of that.
fn check_linear<K: FrobField>(
    rt: &impl Abort,
    alloc: Global,
    field: &K,
    phi: &[E<K>],
    c: &[E<K>],
    number: usize,
) -> Result<(), Fail> {
    let relation = least(alloc, field, phi)?;
    let [lowest, top] = relation.as_slice() else {
        return Err(Fail::new("a relation of degree 1"));
    };
    assert!(rt; are_same(field, lowest, c)?, "module {number}");
    assert!(rt; is_one(field, top)?, "module {number}");
    let power = whole(alloc, field, phi)?;
    let b = square(alloc, field, c)?;
    let a = plain_sum(alloc, field, c, c)?;
    check_quadratic(rt, field, &power, (&b, &a), number)
}

/// That the least relation and its power are the only `X^2 + a X + b` that the search finds.
fn check_search<K: FrobField>(
    rt: &impl Abort,
    alloc: Global,
    field: &K,
    base: &[E<K>],
    phi: &[E<K>],
    found: &[(usize, usize)],
    number: usize,
) -> Result<(), Fail> {
    let [(constant, linear)] = found else {
        return Err(Fail::new("one relation of degree 2"));
    };
    let b = numbered(alloc, base, 3, *constant)?;
    let a = numbered(alloc, base, 3, *linear)?;
    let relation = least(alloc, field, phi)?;
    check_quadratic(rt, field, &relation, (&b, &a), number)?;
    let power = whole(alloc, field, phi)?;
    check_quadratic(rt, field, &power, (&b, &a), number)
}

/// That the constant coefficient of the power is the norm of Frobenius: the characteristic, or its square where that has
/// the degree 1.
fn check_norm<K: FrobField>(
    rt: &impl Abort,
    alloc: Global,
    field: &K,
    base: &[E<K>],
    phi: &[E<K>],
    number: usize,
) -> Result<(), Fail> {
    let power = whole(alloc, field, phi)?;
    let Some(lowest) = power.first() else {
        return Err(Fail::new("a constant coefficient"));
    };
    let p = plain_characteristic(alloc, field, base, 2, phi)?;
    let norm = if p.len() == 2 {
        square(alloc, field, &p)?
    } else {
        p
    };
    assert!(rt; are_same(field, lowest, &norm)?, "module {number}");
    Ok(())
}

/// The module with these coefficients.
fn check_module<K: FrobField>(
    rt: &impl Abort,
    alloc: Global,
    field: &K,
    base: &[E<K>],
    phi: &[E<K>],
    number: usize,
) -> Result<(), Fail> {
    let images = images(alloc, field, base, phi)?;
    let frobenius = numbered(alloc, base, 3, 4)?;
    match opposite(alloc, field, &images, &frobenius)? {
        Some(c) => {
            let c = numbered(alloc, base, 3, c)?;
            check_linear(rt, alloc, field, phi, &c, number)
        }
        None => {
            let found = pairs(alloc, field, &images, &frobenius)?;
            check_search(rt, alloc, field, base, phi, &found, number)
        }
    }
}

/// All lists of three coefficients of which the last isn't zero; their numbers have those of the coefficients as
/// digits, lowest first.
fn check_all<K: FrobField>(
    rt: &impl Abort,
    alloc: Global,
    field: &K,
    names: &[E<K>],
    base: &[E<K>],
) -> Result<(), Fail> {
    for number in 16..64 {
        let phi = numbered(alloc, names, 3, number)?;
        check_module(rt, alloc, field, base, &phi, number)?;
        check_norm(rt, alloc, field, base, &phi, number)?;
    }
    Ok(())
}

#[test]
fn of_all_modules_of_rank_two(rt: HostRuntime) -> Result<(), Fail> {
    let alloc = rt.alloc();
    let field = tower(alloc, FOUR)?;
    let names = elements(alloc, &field, 4)?;
    let base = elements(alloc, &field, 2)?;
    check_all(&rt, alloc, &field, &names, &base)
}
