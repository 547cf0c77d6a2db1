//! Acceptance of a commutative ring over a field of codes as a field, by two linear maps over the constants:
//! the power by the number of constants, and that power less the element.

ghost use Rattle.std.specs.Prelude.{◌≡◌, ◌↔◌, IsTrue, ◌<◌, MatchOption, IfOk, length, true};
ghost use Rattle.ring_core.specs.Ring.{IsElem};
ghost use Rattle.ring_core.specs.Coeffs.{first_values};
ghost use Rattle.ring_core.specs.Powers.{power_of};
ghost use Rattle.linear_algebra.specs.Linear.{row_at, are_rows};
ghost use Rattle.finite_ring.specs.Finite.{HasNoPair};
ghost use Rattle.field_tower.specs.Constants.{IsFieldOfCodes};
ghost use Rattle.field_tower.specs.UnitPowers.{unit_power};
ghost use Rattle.field_tower.specs.Pairs.{IsPair};
ghost use Rattle.field_tower.specs.steps.Kernel.{image_of, image_row, IsLowRow, AreLow, IsAbove, low_count, HasLowKernel, IsInKernel};

use super::algebra::{Algebra, power};
use super::pair::{factor_pair, power_pair};
use fq_linear::{Rows, kernel};
use residue_field::Code;
use ring_core::{Field, NoMemory};
use std::alloc::Global;

/// A map of an algebra that is linear over the `q` constants. The kernels of both tell whether the algebra
/// is a field.
#[derive(Clone, Copy)]
pub(crate) enum LinearMap {
    /// The power by `q`, which in a field is zero only at zero.
    Power,
    /// The power by `q` less the element, which in a field is zero only at constants.
    Difference,
}

impl LinearMap {
    /// How many places, from the lowest on, the kernel uses in a field.
    fn low_places(self) -> usize
        ensures { result ≡ low_count self }
    {
        match self {
            LinearMap::Power => 0,
            LinearMap::Difference => 1,
        }
    }
}

/// The powers by `q` of the elements with one coordinate one and the others zero, in their order.
pub fn unit_powers<A: Algebra>(alloc: Global, algebra: &A, q: u32) -> Result<Vec<A::Elem>, NoMemory>
    ensures { let r = A.Constants.ops (A.constants_of algebra.now) in let c = A.coords_of algebra.now in
        IfOk result (λ v. v.items ≡ first_values c.dimension (unit_power r (A.ops algebra.now) c q)) }
{
    let mut images = Vec::new(alloc);
    for j in 0..algebra.dimension() {
        images.push(power(algebra, algebra.unit(j), q))?;
    }
    Ok(images)
}

/// The image of `x`, whose power by `q` is `power`.
fn image<A: Algebra>(algebra: &A, q: u32, map: LinearMap, x: A::Elem, power: A::Elem) -> A::Elem
    requires elem { IsElem (A.ops algebra.now) x }
    requires power { power ≡ power_of (A.ops algebra.now) x q }
    ensures value { result ≡ image_of (A.ops algebra.now) q map x }
    ensures elem { IsElem (A.ops algebra.now) result }
{
    match map {
        LinearMap::Power => power,
        LinearMap::Difference => algebra.add(power, algebra.neg(x)),
    }
}

/// The coordinates of the images of the elements with one coordinate one and the others zero, a row for
/// each. The powers by `q` of these elements are `powers`.
fn image_rows<A: Algebra>(
    alloc: Global,
    algebra: &A,
    q: u32,
    powers: &[A::Elem],
    map: LinearMap,
) -> Result<Rows<Code>, NoMemory>
    requires powers { let r = A.Constants.ops (A.constants_of algebra.now) in let c = A.coords_of algebra.now in
        powers.now ≡ first_values c.dimension (unit_power r (A.ops algebra.now) c q) }
    ensures width { IfOk result (λ v. v.width ≡ (A.coords_of algebra.now).dimension) }
    ensures rows { let r = A.Constants.ops (A.constants_of algebra.now) in let c = A.coords_of algebra.now in
        IfOk result (λ v. v.rows ≡ first_values c.dimension (image_row r (A.ops algebra.now) c q map)) }
{
    let n = algebra.dimension();
    let mut rows = Rows::new(alloc, n);
    for j in 0..n {
        let image = image(algebra, q, map, algebra.unit(j), powers[j]);
        rows.push(algebra.coords(&image))?;
    }
    Ok(rows)
}

/// Whether row `i` is zero from the place `low` on.
fn is_low_row<F: Field<Elem = Code>>(field: &F, low: usize, rows: &Rows<Code>, i: usize) -> bool
    requires rows { are_rows (F.ops field.now) rows.now.width rows.now.rows ≡ true }
    requires row { i < length rows.now.rows }
    ensures { IsTrue result ↔ IsLowRow (F.ops field.now) low rows.now.rows i }
{
    for k in low..rows.width() {
        let member = rows.at(i, k);
        let zero = field.zero();
        if !field.equal(member, zero) {
            return false;
        }
    }
    true
}

/// Row `i` as a list.
fn row_list(alloc: Global, rows: &Rows<Code>, i: usize) -> Result<Vec<Code>, NoMemory>
    requires row { i < length rows.now.rows }
    requires width { length (row_at rows.now.rows i) ≡ rows.now.width }
    ensures { IfOk result (λ v. v.items ≡ row_at rows.now.rows i) }
{
    let mut list = Vec::new(alloc);
    for k in 0..rows.width() {
        list.push(rows.at(i, k))?;
    }
    Ok(list)
}

/// The element with the coordinates of the first row that is not zero from the place `low` on, None where
/// there is none.
fn find_above<A: Algebra>(
    alloc: Global,
    algebra: &A,
    low: usize,
    rows: &Rows<Code>,
) -> Result<Option<A::Elem>, NoMemory>
    requires width { rows.now.width ≡ (A.coords_of algebra.now).dimension }
    requires rows { are_rows (A.Constants.ops (A.constants_of algebra.now)) rows.now.width rows.now.rows ≡ true }
    ensures { let r = A.Constants.ops (A.constants_of algebra.now) in
        IfOk result (λ o. MatchOption o (AreLow r low rows.now.rows) (IsAbove r (A.coords_of algebra.now) low rows.now.rows)) }
{
    for i in 0..rows.len() {
        if !is_low_row(algebra.constants(), low, rows, i) {
            let list = row_list(alloc, rows, i)?;
            return Ok(Some(algebra.of_coords(&list)));
        }
    }
    Ok(None)
}

/// An element with the image zero that is not zero past the low places, None where there is none.
fn find_in_kernel<A: Algebra>(
    alloc: Global,
    algebra: &A,
    q: u32,
    powers: &[A::Elem],
    map: LinearMap,
) -> Result<Option<A::Elem>, NoMemory>
    requires constants { IsFieldOfCodes (A.Constants.ops (A.constants_of algebra.now)) q }
    requires powers { let r = A.Constants.ops (A.constants_of algebra.now) in let c = A.coords_of algebra.now in
        powers.now ≡ first_values c.dimension (unit_power r (A.ops algebra.now) c q) }
    ensures { let r = A.Constants.ops (A.constants_of algebra.now) in let t = A.ops algebra.now in let c = A.coords_of algebra.now in
        IfOk result (λ o. MatchOption o (HasLowKernel r t c q map) (IsInKernel r t c q map)) }
{
    let rows = image_rows(alloc, algebra, q, powers, map)?;
    let relations = kernel(alloc, algebra.constants(), &rows)?;
    find_above(alloc, algebra, map.low_places(), &relations)
}

/// Two nonzero elements of an algebra over a field of `q` constants, the codes below `q`, whose product is
/// zero; None where there are none. Where only zero has the power `q` zero, and only constants have the
/// power `q` that they are, there are none. The powers by `q` of the elements with one coordinate one and
/// the others zero are `powers`, as `unit_powers` makes them. Only want of memory refuses it.
pub fn find_pair<A: Algebra>(
    alloc: Global,
    algebra: &A,
    q: u32,
    powers: &[A::Elem],
) -> Result<Option<(A::Elem, A::Elem)>, NoMemory>
    requires constants { IsFieldOfCodes (A.Constants.ops (A.constants_of algebra.now)) q }
    requires powers { let r = A.Constants.ops (A.constants_of algebra.now) in let c = A.coords_of algebra.now in
        powers.now ≡ first_values c.dimension (unit_power r (A.ops algebra.now) c q) }
    ensures { let t = A.ops algebra.now in
        IfOk result (λ o. MatchOption o (HasNoPair t) (λ pair. IsPair t pair.0 pair.1)) }
{
    if let Some(x) = find_in_kernel(alloc, algebra, q, powers, LinearMap::Power)? {
        return Ok(Some(power_pair(algebra, q, x)));
    }
    if let Some(x) = find_in_kernel(alloc, algebra, q, powers, LinearMap::Difference)? {
        return Ok(Some(factor_pair(algebra, q, x)));
    }
    Ok(None)
}
