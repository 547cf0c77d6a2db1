//! Random matrices over fields of 2, 3 and 16 elements: reductions, relations and standard bases.
ghost use Rattle.std.specs.Prelude.{◌≡◌, ◌≤◌, IfOk, true};
ghost use Rattle.linear_algebra.specs.Linear.{are_rows};
ghost use Rattle.fq_poly.specs.Poly.{poly_ops};

use super::matrices::{are_same, checked_rows, holds};
use super::plain::{is_zero, is_zero_row, places, rank};
use super::random::{Random, matrix, triangular};
use field_tower::Code;
use fq_poly::Poly;
use poly_reduce::{PolyRows, Reduced, flatten, identity, kernel, product, reduce, unflatten};
use popov_basis::{normal, relations_flat, standard};
use ring_core::Field;
use ring_core::lists::{copy_list, single_list};
use std::alloc::Global;
use std::test::Fail;
use tests_support::fields::{base_data, make_base};

/// Puts a copy of the row after the others, whose width it must have.
fn push(alloc: Global, rows: &mut PolyRows<Code>, row: &[Poly<Code>]) -> Result<(), Fail> {
    let mut copy = Vec::new(alloc);
    for a in row {
        copy.push(Poly::from_vec(copy_list(alloc, a.as_slice())?))?;
    }
    holds(copy.len() == rows.width(), "a row of the width")?;
    rows.push(copy)?;
    Ok(())
}

/// The product of `a` and `b`, which must fit.
pub fn times<F: Field<Elem = Code>>(
    alloc: Global,
    f: &F,
    a: &PolyRows<Code>,
    b: &PolyRows<Code>,
) -> Result<PolyRows<Code>, Fail>
    requires left { are_rows (poly_ops (F.ops f.now)) a.now.width a.now.rows ≡ true }
    requires right { are_rows (poly_ops (F.ops f.now)) b.now.width b.now.rows ≡ true }
{
    if a.width() != b.len() {
        return Err(Fail::new("as many rows as entries"));
    }
    Ok(product(alloc, f, a, b)?)
}

/// The transform times the rows is the image, whose nonzero rows have different lead places and are as many as the
/// rank; both products of the transform and its inverse are the identity.
fn check_reduction<F: Field<Elem = Code>>(
    alloc: Global,
    f: &F,
    m: &PolyRows<Code>,
) -> Result<(), Fail>
    requires width { 1 ≤ m.now.width }
    requires rows { are_rows (poly_ops (F.ops f.now)) m.now.width m.now.rows ≡ true }
{
    let Reduced { left, back, image } = reduce(alloc, f, m)?;
    holds(
        places(&image) == Some(rank(alloc, f, m)?),
        "different lead places, as many as the rank",
    )?;
    let left = checked_rows(f, left)?;
    let back = checked_rows(f, back)?;
    let unit = identity(alloc, f, m.len())?;
    holds(
        are_same(&times(alloc, f, &left, m)?, &image),
        "left m = image",
    )?;
    holds(
        are_same(&times(alloc, f, &left, &back)?, &unit),
        "left back = 1",
    )?;
    holds(
        are_same(&times(alloc, f, &back, &left)?, &unit),
        "back left = 1",
    )
}

/// The relations times the rows are zero, and there is one for each row that the rank lacks; their standard basis is
/// that of all relations.
fn check_relations<F: Field<Elem = Code>>(
    alloc: Global,
    f: &F,
    m: &PolyRows<Code>,
) -> Result<(), Fail>
    requires width { 1 ≤ m.now.width }
    requires rows { are_rows (poly_ops (F.ops f.now)) m.now.width m.now.rows ≡ true }
{
    let relations = checked_rows(f, kernel(alloc, f, m)?)?;
    holds(
        Some(rank(alloc, f, m)?) == m.len().checked_sub(relations.len()),
        "a relation for each row that the rank lacks",
    )?;
    holds(
        is_zero(&times(alloc, f, &relations, m)?),
        "relations are relations",
    )?;
    let flat = relations_flat(alloc, f, &flatten(alloc, f, m)?)?;
    let basis = standard(alloc, f, &relations)?;
    holds(
        are_same(&unflatten(alloc, f, &flat)?, &basis),
        "the standard basis of the relations",
    )
}

/// The rows of `m` from the last to the first.
fn turned<F: Field<Elem = Code>>(
    alloc: Global,
    f: &F,
    m: &PolyRows<Code>,
) -> Result<PolyRows<Code>, Fail>
    ensures width { IfOk result (λ v. 1 ≤ v.width) }
    ensures rows { IfOk result (λ v. are_rows (poly_ops (F.ops f.now)) v.width v.rows ≡ true) }
{
    let mut turned = PolyRows::new(alloc, m.width());
    for i in (0..m.len()).rev() {
        push(alloc, &mut turned, m.as_slice()[i].as_slice())?;
    }
    checked_rows(f, turned)
}

/// Puts copies of the rows of `m` after the others.
fn push_all(alloc: Global, rows: &mut PolyRows<Code>, m: &PolyRows<Code>) -> Result<(), Fail> {
    for i in 0..m.len() {
        push(alloc, rows, m.as_slice()[i].as_slice())?;
    }
    Ok(())
}

/// The rest of `v`, a matrix of one row, over the standard basis of `m`: the quotients times the basis, and the rest,
/// are `v`. The rest is zero exactly where `v` leaves the standard basis as it is.
fn check_rest<F: Field<Elem = Code>>(
    alloc: Global,
    f: &F,
    m: &PolyRows<Code>,
    v: &PolyRows<Code>,
) -> Result<bool, Fail>
    requires width { 1 ≤ m.now.width }
    requires rows { are_rows (poly_ops (F.ops f.now)) m.now.width m.now.rows ≡ true }
    requires row { are_rows (poly_ops (F.ops f.now)) v.now.width v.now.rows ≡ true }
{
    let basis = standard(alloc, f, m)?;
    holds(
        v.len() == 1 && v.width() == basis.width(),
        "one row of the width",
    )?;
    let form = normal(alloc, f, &basis, v.as_slice()[0].as_slice())?;
    // the row of the quotients and a one, times the rows of the basis and the rest
    let mut by = form.quotients.into_vec();
    by.push(Poly::from_vec(single_list(alloc, 1)?))?;
    let mut left = PolyRows::new(alloc, by.len());
    left.push(by)?;
    let mut rows = PolyRows::new(alloc, basis.width());
    push_all(alloc, &mut rows, &basis)?;
    push(alloc, &mut rows, form.rest.as_slice())?;
    let rows = checked_rows(f, rows)?;
    let left = checked_rows(f, left)?;
    holds(
        are_same(&times(alloc, f, &left, &rows)?, v),
        "quotients and rest",
    )?;
    // with `v` beside them
    let mut more = PolyRows::new(alloc, m.width());
    push_all(alloc, &mut more, m)?;
    push_all(alloc, &mut more, v)?;
    let same = are_same(&standard(alloc, f, &checked_rows(f, more)?)?, &basis);
    let none = is_zero_row(form.rest.as_slice());
    holds(same == none, "no rest exactly in the module")?;
    Ok(none)
}

/// The standard basis is that of the rows in another order, and of their products with an invertible matrix; the rows
/// leave no rest over it, and it leaves none over itself.
fn check_basis<F: Field<Elem = Code>>(
    alloc: Global,
    f: &F,
    random: &mut Random,
    q: usize,
    m: &PolyRows<Code>,
) -> Result<(), Fail>
    requires width { 1 ≤ m.now.width }
    requires rows { are_rows (poly_ops (F.ops f.now)) m.now.width m.now.rows ≡ true }
{
    let basis = standard(alloc, f, m)?;
    holds(
        places(&basis) == Some(rank(alloc, f, m)?),
        "different lead places, as many as the rank",
    )?;
    holds(
        are_same(&standard(alloc, f, &turned(alloc, f, m)?)?, &basis),
        "the basis of the rows in another order",
    )?;
    let combined = checked_rows(
        f,
        times(alloc, f, &triangular(alloc, f, random, q, m.len())?, m)?,
    )?;
    holds(
        are_same(&standard(alloc, f, &combined)?, &basis),
        "the basis of combined rows",
    )?;
    for i in 0..m.len() {
        let mut row = PolyRows::new(alloc, m.width());
        push(alloc, &mut row, m.as_slice()[i].as_slice())?;
        holds(
            check_rest(alloc, f, m, &checked_rows(f, row)?)?,
            "the rows leave no rest",
        )?;
    }
    Ok(())
}

/// All of it, for one matrix and one random row.
fn check<F: Field<Elem = Code>>(
    alloc: Global,
    f: &F,
    random: &mut Random,
    q: usize,
    m: &PolyRows<Code>,
) -> Result<(), Fail>
    requires width { 1 ≤ m.now.width }
    requires rows { are_rows (poly_ops (F.ops f.now)) m.now.width m.now.rows ≡ true }
{
    check_reduction(alloc, f, m)?;
    check_relations(alloc, f, m)?;
    check_basis(alloc, f, random, q, m)?;
    let v = matrix(alloc, f, random, q, 9, [1, m.width()])?;
    check_rest(alloc, f, m, &v)?;
    Ok(())
}

/// Numbers of rows and widths, and how many rows the others are combinations of.
const SIZES: [[usize; 3]; 9] = [
    [1, 1, 1],
    [2, 1, 1],
    [1, 6, 1],
    [3, 2, 1],
    [4, 4, 2],
    [6, 3, 3],
    [6, 6, 5],
    [12, 6, 4],
    [12, 2, 2],
];

/// Random matrices of these sizes with entries of a degree of at most 4, and such of a rank of at most a number of
/// rows.
fn check_all<F: Field<Elem = Code>>(alloc: Global, f: &F, q: usize) -> Result<(), Fail> {
    let mut random = Random::new(2026);
    for [n, width, few] in SIZES {
        let m = matrix(alloc, f, &mut random, q, 5, [n, width])?;
        check(alloc, f, &mut random, q, &m)?;
        let a = matrix(alloc, f, &mut random, q, 3, [n, few])?;
        let b = matrix(alloc, f, &mut random, q, 3, [few, width])?;
        let m = checked_rows(f, times(alloc, f, &a, &b)?)?;
        check(alloc, f, &mut random, q, &m)?;
    }
    Ok(())
}

#[test]
fn samples(rt: HostRuntime) -> Result<(), Fail> {
    let alloc = rt.alloc();
    for (q, text) in [(2, "2 1; 0 1"), (3, "3 1; 0 1"), (16, "2 4; 1 1 0 0 1")] {
        let f = make_base(alloc, &base_data(alloc, text)?)?;
        check_all(alloc, &f, q)?;
    }
    Ok(())
}
