//! The coordinates of a twisted polynomial in one list, those of its coefficients one after another.
ghost use Rattle.std.specs.Prelude.{◌≡◌, ℕ, ◌+◌, ◌*◌, ◌<◌, ◌++◌, IfOk, OnOk, true};
ghost use Rattle.ring_core.specs.Ring.{IsElem};
ghost use Rattle.ring_core.specs.Coeffs.{coeff, are_elems, is_canonical, first_values};
ghost use Rattle.central_coords.specs.Coordinates.{coordinate, coordinate_row};

use ore_poly::Ore;
use ring_core::lists::{coeff_at, trimmed};
use ring_core::{B, E, Field, FrobField, NoMemory};
use std::alloc::Global;

/// Puts the coordinates of `c` after the members of the list.
fn push_coordinates<K: FrobField>(k: &K, list: &mut Vec<B<K>>, c: E<K>) -> Result<(), NoMemory>
    requires { IsElem (K.ops k.now) c }
    ensures { let f = K.frob_ops k.now in OnOk result (list.new.items ≡ list.old.items ++ first_values f.degree (f.coord c)) }
{
    for j in 0..k.degree() {
        list.push(k.coord(c, j))?;
    }
    Ok(())
}

/// The coordinates of the first `count` coefficients of `u`, which are zero past its end.
pub fn coordinates<K: FrobField>(
    alloc: Global,
    k: &K,
    u: &[E<K>],
    count: usize,
) -> Result<Vec<B<K>>, NoMemory>
    requires { are_elems (K.ops k.now) u.now ≡ true }
    ensures { let f = K.frob_ops k.now in IfOk result (λ v. v.items ≡ coordinate_row (K.ops k.now) f (count * f.degree) u.now) }
{
    let mut list = Vec::new(alloc);
    for i in 0..count {
        let coefficient = coeff_at(k, u, i);
        push_coordinates(k, &mut list, coefficient)?;
    }
    Ok(list)
}

/// The element whose coordinates are the members `i n` to `i n + n - 1` of the list, zero past its end, where `n` is
/// the degree.
fn element_at<K: FrobField>(alloc: Global, k: &K, x: &[B<K>], i: usize) -> Result<E<K>, NoMemory>
    requires { are_elems (K.Base.ops (K.base_of k.now)) x.now ≡ true }
    ensures { let f = K.frob_ops k.now in IfOk result (λ v. v ≡ f.of_coords (first_values f.degree (λ j. coeff (K.Base.ops (K.base_of k.now)) x.now (i * f.degree + j)))) }
{
    let n = k.degree();
    let Some(start) = i.checked_mul(n) else {
        return Err(NoMemory);
    };
    let mut list = Vec::new(alloc);
    for j in 0..n {
        let Some(place) = start.checked_add(j) else {
            return Err(NoMemory);
        };
        list.push(coeff_at(k.base(), x, place))?;
    }
    Ok(k.of_coords(&list))
}

/// The twisted polynomial with the coordinates `x`, zero past the end of the list.
pub fn of_coordinates<K: FrobField>(alloc: Global, k: &K, x: &[B<K>]) -> Result<Ore<E<K>>, NoMemory>
    requires { are_elems (K.Base.ops (K.base_of k.now)) x.now ≡ true }
    ensures coords { IfOk result (λ v. (c : ℕ) → coordinate (K.ops k.now) (K.frob_ops k.now) v c ≡ coeff (K.Base.ops (K.base_of k.now)) x.now c) }
    ensures elem { IfOk result (λ v. is_canonical (K.ops k.now) v ≡ true) }
{
    let Some(count) = (x.len() / k.degree()).checked_add(1) else {
        return Err(NoMemory);
    };
    let mut list = Vec::new(alloc);
    for i in 0..count {
        list.push(element_at(alloc, k, x, i)?)?;
    }
    Ok(Ore::from_vec(trimmed(k, list)))
}
