//! Standard bases of modules of rows of polynomials, and division by them, by way of flat rows.

ghost use Rattle.std.specs.Prelude.{◌≡◌, ◌≤◌, ◌↔◌, true, length, IfOk};
ghost use Rattle.linear_algebra.specs.Linear.{is_row, are_rows};
ghost use Rattle.fq_poly.specs.Poly.{poly_ops};
ghost use Rattle.poly_reduce.specs.Matrices.{IsInRows, zero_row};
ghost use Rattle.popov_basis.specs.StandardRows.{IsStandardRows, IsStandardRowBasis, IsNormalRow};

use super::divide::FlatNormal;
use super::flat::{normal_flat, standard_flat};
use fq_poly::Poly;
use poly_reduce::{PolyRow, PolyRows, flatten, flatten_row, unflatten, unflatten_row};
use ring_core::{E, Field, NoMemory};
use std::alloc::Global;

/// What a row leaves over a standard basis: the polynomials by which the basis rows are taken, one for each row,
/// and the rest, of the width of the rows.
#[derive(Drop)]
pub struct NormalForm<E> {
    pub quotients: PolyRow<E>,
    pub rest: PolyRow<E>,
}

/// The standard basis of the module of the rows, of a width `w` of at least 1. The coefficient of `x^e` in entry
/// `j` has the index `e w + j`; the lead of a row is its highest index with a nonzero coefficient, and its lead
/// place is that index modulo `w`. The leads rise and have different places, the coefficient at each lead is one,
/// and it is zero at every index that is another row's lead plus a multiple of `w`. There is one such basis.
///
/// The entries have to be polynomials over `f`.
pub fn standard<F: Field>(
    alloc: Global,
    f: &F,
    rows: &PolyRows<E<F>>,
) -> Result<PolyRows<E<F>>, NoMemory>
    requires width { 1 ≤ rows.now.width }
    requires rows { are_rows (poly_ops (F.ops f.now)) rows.now.width rows.now.rows ≡ true }
    ensures width { IfOk result (λ v. v.width ≡ rows.now.width) }
    ensures basis { let r = F.ops f.now in IfOk result (λ v. IsStandardRowBasis r rows.now.width (IsInRows (poly_ops r) rows.now.width rows.now.rows) v.rows) }
{
    let flat = flatten(alloc, f, rows)?;
    let basis = standard_flat(alloc, f, &flat)?;
    Ok(unflatten(alloc, f, &basis)?)
}

/// The quotients and the rest of `v`, of the width `w` of `basis`, which is at least 1 and has the form of a
/// standard basis: `v` is the row of the quotients times the basis, and the rest, which is zero at every index that
/// is a basis row's lead plus a multiple of `w`. The rest is zero exactly where `v` is in the module of the rows.
///
/// The entries have to be polynomials over `f`.
pub fn normal<F: Field>(
    alloc: Global,
    f: &F,
    basis: &PolyRows<E<F>>,
    v: &[Poly<E<F>>],
) -> Result<NormalForm<E<F>>, NoMemory>
    requires width { 1 ≤ basis.now.width }
    requires rows { are_rows (poly_ops (F.ops f.now)) basis.now.width basis.now.rows ≡ true }
    requires standard { IsStandardRows (F.ops f.now) basis.now.width basis.now.rows }
    requires row { is_row (poly_ops (F.ops f.now)) basis.now.width v.now ≡ true }
    ensures normal { IfOk result (λ n. IsNormalRow (F.ops f.now) basis.now.width basis.now.rows v.now n.quotients n.rest) }
    ensures member { let p = poly_ops (F.ops f.now) in IfOk result (λ n. (n.rest ≡ zero_row p basis.now.width) ↔ IsInRows p basis.now.width basis.now.rows v.now) }
{
    let flat = flatten(alloc, f, basis)?;
    let row = flatten_row(alloc, f, basis.width(), v)?;
    let FlatNormal { quotients, rest } = normal_flat(alloc, f, &flat, &row)?;
    let rest = unflatten_row(alloc, f, basis.width(), rest.as_slice())?;
    Ok(NormalForm { quotients, rest })
}
