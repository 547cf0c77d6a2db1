//! The linear system whose relations are the coordinates of homomorphisms. Row `i n + j` has the coordinates of
//! `u phi_T - psi_T u` for `u = z_j tau^i`, where `n` is the degree of the field and `z_j` the element whose only
//! coordinate is a one at `j`. No twisted polynomials are multiplied: the coefficient of `u phi_T` at `tau^(i + m)` is
//! `z_j` times coefficient `m` of `phi_T` raised `i` times, and those of `psi_T u` depend on `i` by their places alone.
ghost use Rattle.std.specs.Prelude.{◌≡◌, ◌<◌, ◌≤◌, ◌+◌, ◌*◌, ◌++◌, ℕ, IfOk, OnOk, if◌then◌else◌, length, max, nat_eq, true};
ghost use Rattle.ring_core.specs.Ring.{IsElem};
ghost use Rattle.ring_core.specs.Coeffs.{coeff, are_elems, first_values};
ghost use Rattle.linear_algebra.specs.Linear.{row_at};
ghost use Rattle.central_coords.specs.Coordinates.{coordinate_row};
ghost use Rattle.hom_space.specs.steps.System.{unit_element, raised_list, turned_list, image_list, system_row};

use central_coords::coordinates;
use fq_linear::Rows;
use ore_poly::Ore;
use ring_core::lists::coeff_at;
use ring_core::rows::zero_list;
use ring_core::{B, E, Field, FrobField, NoMemory};
use std::alloc::Global;

/// One where the two indices are equal, and else zero.
fn unit_member<F: Field>(f: &F, i: usize, j: usize) -> E<F>
    ensures value { result ≡ (if nat_eq i j then (F.ops f.now).one else (F.ops f.now).zero) }
    ensures elem { IsElem (F.ops f.now) result }
{
    if i == j { f.one() } else { f.zero() }
}

/// The element whose coordinate at `j` is one and whose other coordinates are zero.
fn unit<K: FrobField>(alloc: Global, k: &K, j: usize) -> Result<E<K>, NoMemory>
    ensures value { IfOk result (λ v. v ≡ unit_element (K.Base.ops (K.base_of k.now)) (K.frob_ops k.now) j) }
    ensures elem { IfOk result (λ v. IsElem (K.ops k.now) v) }
{
    let mut list = Vec::new(alloc);
    for i in 0..k.degree() {
        list.push(unit_member(k.base(), i, j))?;
    }
    Ok(k.of_coords(&list))
}

/// The elements with a single coordinate, which is one, by its index.
fn units<K: FrobField>(alloc: Global, k: &K) -> Result<Vec<E<K>>, NoMemory>
    ensures value { let f = K.frob_ops k.now in IfOk result (λ v. v.items ≡ first_values f.degree (unit_element (K.Base.ops (K.base_of k.now)) f)) }
    ensures elems { IfOk result (λ v. are_elems (K.ops k.now) v.items ≡ true) }
{
    let mut list = Vec::new(alloc);
    for j in 0..k.degree() {
        list.push(unit(alloc, k, j)?)?;
    }
    Ok(list)
}

/// The first `s` coefficients of `phi`, zero past its end, each raised to the power `q^i`, where the base has `q`
/// elements.
fn raised<K: FrobField>(
    alloc: Global,
    k: &K,
    phi: &[E<K>],
    s: usize,
    i: usize,
) -> Result<Vec<E<K>>, NoMemory>
    requires { are_elems (K.ops k.now) phi.now ≡ true }
    ensures value { IfOk result (λ v. v.items ≡ raised_list (K.ops k.now) (K.frob_ops k.now) phi.now s i) }
    ensures elems { IfOk result (λ v. are_elems (K.ops k.now) v.items ≡ true) }
{
    let mut list = Vec::new(alloc);
    for m in 0..s {
        let coefficient = coeff_at(k, phi, m);
        list.push(k.frob(coefficient, i))?;
    }
    Ok(list)
}

/// The first `s` coefficients of the twisted product of `psi` and the constant `z`.
fn turned<K: FrobField>(
    alloc: Global,
    k: &K,
    psi: &[E<K>],
    s: usize,
    z: E<K>,
) -> Result<Vec<E<K>>, NoMemory>
    requires elems { are_elems (K.ops k.now) psi.now ≡ true }
    requires factor { IsElem (K.ops k.now) z }
    ensures value { IfOk result (λ v. v.items ≡ turned_list (K.ops k.now) (K.frob_ops k.now) psi.now s z) }
    ensures elems { IfOk result (λ v. are_elems (K.ops k.now) v.items ≡ true) }
{
    let mut list = Vec::new(alloc);
    for m in 0..s {
        let coefficient = coeff_at(k, psi, m);
        let raised = k.frob(z, m);
        list.push(k.mul(coefficient, raised))?;
    }
    Ok(list)
}

/// Those products for each of the elements.
fn all_turned<K: FrobField>(
    alloc: Global,
    k: &K,
    psi: &[E<K>],
    s: usize,
    elements: &[E<K>],
) -> Result<Vec<Ore<E<K>>>, NoMemory>
    requires elems { are_elems (K.ops k.now) psi.now ≡ true }
    requires factors { are_elems (K.ops k.now) elements.now ≡ true }
    ensures { let r = K.ops k.now in IfOk result (λ v. v.items ≡ first_values (length elements.now) (λ j. turned_list r (K.frob_ops k.now) psi.now s (coeff r elements.now j))) }
{
    let mut list = Vec::new(alloc);
    for j in 0..elements.len() {
        let z = coeff_at(k, elements, j);
        list.push(Ore::from_vec(turned(alloc, k, psi, s, z)?))?;
    }
    Ok(list)
}

/// `z` times the members of one list, less those of the other, behind `i` zeros.
fn image<K: FrobField>(
    alloc: Global,
    k: &K,
    i: usize,
    z: E<K>,
    raised: &[E<K>],
    turned: &[E<K>],
) -> Result<Vec<E<K>>, NoMemory>
    requires factor { IsElem (K.ops k.now) z }
    requires left { are_elems (K.ops k.now) raised.now ≡ true }
    requires right { are_elems (K.ops k.now) turned.now ≡ true }
    ensures value { IfOk result (λ v. v.items ≡ image_list (K.ops k.now) i z raised.now turned.now) }
    ensures elems { IfOk result (λ v. are_elems (K.ops k.now) v.items ≡ true) }
{
    let mut list = zero_list(alloc, k, i)?;
    for m in 0..raised.len() {
        let first = coeff_at(k, raised, m);
        let second = coeff_at(k, turned, m);
        let left = k.mul(z, first);
        let right = k.neg(second);
        list.push(k.add(left, right))?;
    }
    Ok(list)
}

/// Puts the rows of `z tau^i` after the others, for each of the elements `z`.
fn push_rows<K: FrobField>(
    alloc: Global,
    k: &K,
    i: usize,
    count: usize,
    elements: &[E<K>],
    raised: &[E<K>],
    turned: &[Ore<E<K>>],
    rows: &mut Rows<B<K>>,
) -> Result<(), NoMemory>
    requires elements { are_elems (K.ops k.now) elements.now ≡ true }
    requires left { are_elems (K.ops k.now) raised.now ≡ true }
    requires right { (j : ℕ) → j < length turned.now → are_elems (K.ops k.now) (row_at turned.now j) ≡ true }
    requires each { length turned.now ≡ length elements.now }
    requires width { rows.old.width ≡ count * (K.frob_ops k.now).degree }
    ensures width { rows.new.width ≡ rows.old.width }
    ensures rows { let r = K.ops k.now in let f = K.frob_ops k.now in OnOk result (rows.new.rows ≡ rows.old.rows ++ first_values (length elements.now) (λ j. coordinate_row r f (count * f.degree) (image_list r i (coeff r elements.now j) raised.now (row_at turned.now j)))) }
{
    for j in 0..elements.len() {
        let z = coeff_at(k, elements, j);
        let coefficients = image(alloc, k, i, z, raised, turned[j].as_slice())?;
        let row = coordinates(alloc, k, &coefficients, count)?;
        rows.push(&row)?;
    }
    Ok(())
}

/// The rows for each `u` with a single coordinate that has degree at most `d`. `phi` and `psi` are so short that the
/// coordinates of a row can be counted.
pub(super) fn system<K: FrobField>(
    alloc: Global,
    k: &K,
    phi: &[E<K>],
    psi: &[E<K>],
    d: usize,
) -> Result<Rows<B<K>>, NoMemory>
    requires source { are_elems (K.ops k.now) phi.now ≡ true }
    requires target { are_elems (K.ops k.now) psi.now ≡ true }
    requires source_short { length phi.now ≤ 9 }
    requires target_short { length psi.now ≤ 9 }
    requires bound { d ≤ 64 }
    ensures width { let f = K.frob_ops k.now in IfOk result (λ v. v.width ≡ (d + max (length phi.now) (length psi.now)) * f.degree) }
    ensures rows { let f = K.frob_ops k.now in IfOk result (λ v. v.rows ≡ first_values ((d + 1) * f.degree) (system_row (K.ops k.now) (K.Base.ops (K.base_of k.now)) f phi.now psi.now (d + max (length phi.now) (length psi.now)))) }
{
    let s = phi.len().max(psi.len());
    let count = d + s;
    let elements = units(alloc, k)?;
    let turned = all_turned(alloc, k, psi, s, &elements)?;
    let mut rows = Rows::new(alloc, count * k.degree());
    for i in 0..d + 1 {
        let raised = raised(alloc, k, phi, s, i)?;
        push_rows(alloc, k, i, count, &elements, &raised, &turned, &mut rows)?;
    }
    Ok(rows)
}
