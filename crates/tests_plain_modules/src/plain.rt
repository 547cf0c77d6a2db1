//! Images, characteristics and heights by their definitions. Twisted polynomials are lists of coefficients, lowest
//! first, which may have zeros at the top. A polynomial over the base is the list of its coefficients as elements of the
//! field, and the base of `q` elements the list of these.
use ring_core::{E, Field};
use std::alloc::Global;
use std::test::Fail;
use tests_support::plain::{numbered, plain_lowest, plain_sum};
use tests_support::rings::elem;

/// The list with `c` after its last.
fn with_last<C: Copy>(list: Vec<C>, c: C) -> Result<Vec<C>, Fail> {
    let mut longer = list;
    let Ok(()) = longer.push(c) else {
        return Err(Fail::new("memory for a list"));
    };
    Ok(longer)
}

/// Whether two elements are equal.
pub fn same<K: Field>(field: &K, a: E<K>, b: E<K>) -> Result<bool, Fail> {
    let a = elem(field, a)?;
    let b = elem(field, b)?;
    Ok(field.equal(a, b))
}

/// The product of two elements.
pub fn times<K: Field>(field: &K, a: E<K>, b: E<K>) -> Result<E<K>, Fail> {
    let a = elem(field, a)?;
    let b = elem(field, b)?;
    Ok(field.mul(a, b))
}

/// `c` multiplied `k` times, one for `k = 0`.
pub fn power<K: Field>(field: &K, c: E<K>, k: usize) -> Result<E<K>, Fail> {
    let mut product = field.one();
    for _ in 0..k {
        product = times(field, product, c)?;
    }
    Ok(product)
}

/// `c u`.
pub fn scaled<K: Field>(alloc: Global, field: &K, c: E<K>, u: &[E<K>]) -> Result<Vec<E<K>>, Fail> {
    let mut list = Vec::new(alloc);
    for coefficient in u {
        list = with_last(list, times(field, c, *coefficient)?)?;
    }
    Ok(list)
}

/// `tau u`: the powers of the coefficients by `q`, one place higher.
fn raised<K: Field>(alloc: Global, field: &K, q: usize, u: &[E<K>]) -> Result<Vec<E<K>>, Fail> {
    let mut list = with_last(Vec::new(alloc), field.zero())?;
    for coefficient in u {
        list = with_last(list, power(field, *coefficient, q)?)?;
    }
    Ok(list)
}

/// `phi_T u`: the sum of `g_i tau^i u` over the coefficients `g_i` of the module.
fn times_letter<K: Field>(
    alloc: Global,
    field: &K,
    q: usize,
    phi: &[E<K>],
    u: &[E<K>],
) -> Result<Vec<E<K>>, Fail> {
    let mut sum = Vec::new(alloc);
    let mut moved = plain_sum(alloc, field, u, &[])?;
    for coefficient in phi {
        let term = scaled(alloc, field, *coefficient, &moved)?;
        sum = plain_sum(alloc, field, &sum, &term)?;
        moved = raised(alloc, field, q, &moved)?;
    }
    Ok(sum)
}

/// `phi_a`: by Horner's rule, from the left.
pub fn plain_image<K: Field>(
    alloc: Global,
    field: &K,
    q: usize,
    phi: &[E<K>],
    a: &[E<K>],
) -> Result<Vec<E<K>>, Fail> {
    let mut sum = Vec::new(alloc);
    for i in (0..a.len()).rev() {
        let product = times_letter(alloc, field, q, phi, &sum)?;
        sum = plain_sum(alloc, field, &product, &[a[i]])?;
    }
    Ok(sum)
}

/// The value of a polynomial at `c`.
fn value_at<K: Field>(field: &K, a: &[E<K>], c: E<K>) -> Result<E<K>, Fail> {
    let mut sum = field.zero();
    for i in (0..a.len()).rev() {
        let product = elem(field, times(field, sum, c)?)?;
        sum = field.add(product, elem(field, a[i])?);
    }
    Ok(sum)
}

/// The first monic polynomial of this degree over the base that has the root `c`.
fn monic_with_root<K: Field>(
    alloc: Global,
    field: &K,
    base: &[E<K>],
    degree: usize,
    c: E<K>,
) -> Result<Option<Vec<E<K>>>, Fail> {
    for number in 0..base.len().saturating_pow(u32::try_from(degree)?) {
        let monic = with_last(numbered(alloc, base, degree, number)?, field.one())?;
        let value = value_at(field, &monic, c)?;
        if same(field, value, field.zero())? {
            return Ok(Some(monic));
        }
    }
    Ok(None)
}

/// The characteristic of a module over a field of degree `n`: among the monic polynomials over the base of the degrees
/// from 1 to `n`, the first that has the constant as a root.
pub fn plain_characteristic<K: Field>(
    alloc: Global,
    field: &K,
    base: &[E<K>],
    n: usize,
    phi: &[E<K>],
) -> Result<Vec<E<K>>, Fail> {
    let Some(constant) = phi.first() else {
        return Err(Fail::new("a constant"));
    };
    for degree in 1..n.saturating_add(1) {
        if let Some(monic) = monic_with_root(alloc, field, base, degree, *constant)? {
            return Ok(monic);
        }
    }
    Err(Fail::new("a polynomial with the constant as a root"))
}

/// The lowest power of tau in the image of the characteristic, divided by the degree of that.
pub fn plain_height<K: Field>(
    alloc: Global,
    field: &K,
    q: usize,
    phi: &[E<K>],
    characteristic: &[E<K>],
) -> Result<usize, Fail> {
    let image = plain_image(alloc, field, q, phi, characteristic)?;
    let Some(lowest) = plain_lowest(field, &image)? else {
        return Err(Fail::new("an image that isn't zero"));
    };
    let degree = characteristic.len().saturating_sub(1);
    let Some(height) = lowest.checked_div(degree) else {
        return Err(Fail::new("a characteristic of a degree"));
    };
    Ok(height)
}
