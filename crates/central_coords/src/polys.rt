//! The coordinates of a twisted polynomial as polynomials over the base in a letter that stands for `tau^n`, where `n`
//! is the degree of the field.
ghost use Rattle.std.specs.Prelude.{◌≡◌, ◌<◌, ◌≤◌, ◌+◌, ◌*◌, ◌%◌, ◌/◌, ℕ, IfOk, length, true};
ghost use Rattle.ring_core.specs.Coeffs.{coeff, are_elems, is_canonical, first_values, list_of};
ghost use Rattle.linear_algebra.specs.Linear.{row_at};
ghost use Rattle.flat_modules.specs.Flat.{are_flat};
ghost use Rattle.central_coords.specs.Coordinates.{coordinate};
ghost use Rattle.central_coords.specs.Central.{AreCentralCoordinates};

use super::flat::of_coordinates;
use fq_poly::Poly;
use ore_poly::Ore;
use ring_core::lists::{coeff_at, trimmed};
use ring_core::{B, E, Field, FrobField, NoMemory};
use std::alloc::Global;

/// The polynomial whose coefficients are the coordinates `place`, `place + w`, `place + 2 w` and so on of `u`, `count`
/// in number.
fn strided<K: FrobField>(
    alloc: Global,
    k: &K,
    u: &[E<K>],
    w: usize,
    place: usize,
    count: usize,
) -> Result<Poly<B<K>>, NoMemory>
    requires { are_elems (K.ops k.now) u.now ≡ true }
    ensures { IfOk result (λ v. v ≡ list_of (K.Base.ops (K.base_of k.now)) count (λ m. coordinate (K.ops k.now) (K.frob_ops k.now) u.now (m * w + place))) }
{
    let n = k.degree();
    let mut list = Vec::new(alloc);
    for m in 0..count {
        let Some(start) = m.checked_mul(w) else {
            return Err(NoMemory);
        };
        let Some(c) = start.checked_add(place) else {
            return Err(NoMemory);
        };
        let coefficient = coeff_at(k, u, c / n);
        list.push(k.coord(coefficient, c % n))?;
    }
    Ok(Poly::from_vec(trimmed(k.base(), list)))
}

/// The `n^2` polynomials in a letter `x` that belong to `u`, where `n` is the degree of the field and `x` stands for
/// `tau^n`: the coefficient of `x^m` in polynomial `i n + j` is the `j`-th coordinate of the coefficient of `u` at
/// `tau^(n m + i)`.
pub fn coords<K: FrobField>(
    alloc: Global,
    k: &K,
    u: &Ore<E<K>>,
) -> Result<Vec<Poly<B<K>>>, NoMemory>
    requires { is_canonical (K.ops k.now) u.now ≡ true }
    ensures { IfOk result (λ v. AreCentralCoordinates (K.ops k.now) (K.Base.ops (K.base_of k.now)) (K.frob_ops k.now) u.now v.items) }
{
    let n = k.degree();
    let Some(count) = (u.len() / n).checked_add(1) else {
        return Err(NoMemory);
    };
    let mut list = Vec::new(alloc);
    for place in 0..n * n {
        list.push(strided(alloc, k, u.as_slice(), n * n, place, count)?)?;
    }
    Ok(list)
}

/// The most coefficients that a polynomial of the list has.
fn longest<C: Copy>(list: &[Poly<C>]) -> usize
    ensures { (i : ℕ) → length (row_at list.now i) ≤ result }
{
    let mut most = 0;
    for i in 0..list.len() {
        most = most.max(list[i].len());
    }
    most
}

/// The coefficient at `c / w` of polynomial `c % w`, for `c` below `len`, where `w` is the length of the list.
fn interleaved<F: Field>(
    alloc: Global,
    f: &F,
    list: &[Poly<E<F>>],
    len: usize,
) -> Result<Vec<E<F>>, NoMemory>
    requires some { 0 < length list.now }
    requires polys { are_flat (F.ops f.now) list.now ≡ true }
    ensures { let r = F.ops f.now in IfOk result (λ v. v.items ≡ first_values len (λ c. coeff r (row_at list.now (c % length list.now)) (c / length list.now))) }
{
    let w = list.len();
    let mut values = Vec::new(alloc);
    for c in 0..len {
        let p = c % w;
        values.push(coeff_at(f, list[p].as_slice(), c / w))?;
    }
    Ok(values)
}

/// The twisted polynomial to which these `n^2` polynomials belong, where `n` is the degree of the field: the inverse of
/// `coords`.
pub fn of_coords<K: FrobField>(
    alloc: Global,
    k: &K,
    list: &[Poly<B<K>>],
) -> Result<Ore<E<K>>, NoMemory>
    requires count { let f = K.frob_ops k.now in length list.now ≡ f.degree * f.degree }
    requires polys { are_flat (K.Base.ops (K.base_of k.now)) list.now ≡ true }
    ensures coords { IfOk result (λ v. AreCentralCoordinates (K.ops k.now) (K.Base.ops (K.base_of k.now)) (K.frob_ops k.now) v list.now) }
    ensures elem { IfOk result (λ v. is_canonical (K.ops k.now) v ≡ true) }
{
    let Some(size) = longest(list).checked_mul(list.len()) else {
        return Err(NoMemory);
    };
    let x = interleaved(alloc, k.base(), list, size)?;
    Ok(of_coordinates(alloc, k, &x)?)
}
