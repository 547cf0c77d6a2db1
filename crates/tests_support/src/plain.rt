//! Twisted polynomials by their definitions: lists of coefficients, lowest first, which may have zeros at the top.
//! Nothing here calls the library's ring of twisted polynomials.
use super::rings::elem;
use ring_core::{E, Field, FrobField};
use std::alloc::Global;
use std::test::Fail;

/// The list with `c` after its last.
fn with_last<C: Copy>(list: Vec<C>, c: C) -> Result<Vec<C>, Fail> {
    let mut longer = list;
    let Ok(()) = longer.push(c) else {
        return Err(Fail::new("memory for a list"));
    };
    Ok(longer)
}

/// The elements with these numbers.
pub fn listed<C: Copy>(alloc: Global, names: &[C], numbers: &[usize]) -> Result<Vec<C>, Fail> {
    let mut list = Vec::new(alloc);
    for number in numbers {
        let Some(c) = names.get(*number) else {
            return Err(Fail::new("the number of an element"));
        };
        list = with_last(list, *c)?;
    }
    Ok(list)
}

/// The list of `len` elements whose numbers are the digits of `number`, lowest first.
pub fn numbered<C: Copy>(
    alloc: Global,
    names: &[C],
    len: usize,
    number: usize,
) -> Result<Vec<C>, Fail> {
    let n = names.len();
    let mut list = Vec::new(alloc);
    let mut rest = number;
    for _ in 0..len {
        let digit = rest.checked_rem(n).unwrap_or(0);
        let Some(c) = names.get(digit) else {
            return Err(Fail::new("the number of an element"));
        };
        list = with_last(list, *c)?;
        rest = rest.checked_div(n).unwrap_or(0);
    }
    Ok(list)
}

/// `sum + a frob(b, i)`.
fn with_term<K: FrobField>(field: &K, sum: E<K>, a: E<K>, b: E<K>, i: usize) -> Result<E<K>, Fail> {
    let power = elem(field, field.frob(elem(field, b)?, i))?;
    let term = elem(field, field.mul(elem(field, a)?, power))?;
    Ok(field.add(elem(field, sum)?, term))
}

/// The coefficient of the product at `place`: the sum of `a_i frob(b_j, i)` over `i + j = place`.
pub fn plain_coefficient<K: FrobField>(
    field: &K,
    a: &[E<K>],
    b: &[E<K>],
    place: usize,
) -> Result<E<K>, Fail> {
    let mut sum = field.zero();
    for (i, factor) in a.iter().enumerate() {
        let Some(j) = place.checked_sub(i) else {
            break;
        };
        if let Some(other) = b.get(j) {
            sum = with_term(field, sum, *factor, *other, i)?;
        }
    }
    Ok(sum)
}

/// The product, by its double sum.
pub fn plain_product<K: FrobField>(
    alloc: Global,
    field: &K,
    a: &[E<K>],
    b: &[E<K>],
) -> Result<Vec<E<K>>, Fail> {
    let mut product = Vec::new(alloc);
    for place in 0..a.len().saturating_add(b.len()) {
        product = with_last(product, plain_coefficient(field, a, b, place)?)?;
    }
    Ok(product)
}

/// The member at a place, and zero past the end.
fn at<K: Field>(field: &K, list: &[E<K>], place: usize) -> Result<E<K>, Fail> {
    elem(field, list.get(place).copied().unwrap_or(field.zero()))
}

/// The sum, place by place.
pub fn plain_sum<K: Field>(
    alloc: Global,
    field: &K,
    a: &[E<K>],
    b: &[E<K>],
) -> Result<Vec<E<K>>, Fail> {
    let mut sum = Vec::new(alloc);
    for place in 0..a.len().max(b.len()) {
        let left = elem(field, at(field, a, place)?)?;
        let right = elem(field, at(field, b, place)?)?;
        sum = with_last(sum, field.add(left, right))?;
    }
    Ok(sum)
}

/// Whether the lists are equal but for zeros at the top.
pub fn are_same<K: Field>(field: &K, a: &[E<K>], b: &[E<K>]) -> Result<bool, Fail> {
    for place in 0..a.len().max(b.len()) {
        let left = elem(field, at(field, a, place)?)?;
        let right = elem(field, at(field, b, place)?)?;
        if !field.equal(left, right) {
            return Ok(false);
        }
    }
    Ok(true)
}

/// The lowest place that isn't zero.
pub fn plain_lowest<K: Field>(field: &K, list: &[E<K>]) -> Result<Option<usize>, Fail> {
    for place in 0..list.len() {
        let member = elem(field, at(field, list, place)?)?;
        if !field.equal(member, elem(field, field.zero())?) {
            return Ok(Some(place));
        }
    }
    Ok(None)
}
