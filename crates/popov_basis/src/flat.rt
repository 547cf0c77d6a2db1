//! Standard bases, division by them, and bases of relations, of flat rows.

ghost use Rattle.std.specs.Prelude.{◌≡◌, ◌↔◌, [], true, length, max, IfOk};
ghost use Rattle.ring_core.specs.Coeffs.{is_canonical};
ghost use Rattle.flat_modules.specs.Flat.{are_flat, IsStandard, IsStandardBasis, IsInModule, IsRelationOf, IsNormal};

use super::divide::{FlatNormal, normal_rows};
use super::relations::relation_rows;
use super::settled::standard_rows;
use poly_reduce::FlatRows;
use ring_core::{E, Field, NoMemory};
use std::alloc::Global;

/// The standard basis of the module of the rows: the one basis whose leads rise and have different places
/// modulo the width, with one at each lead, and zero at the leads of the other rows and at these plus multiples
/// of the width.
///
/// The rows have to be rows of elements of `f`, with no zero at the end.
pub fn standard_flat<F: Field>(
    alloc: Global,
    f: &F,
    rows: &FlatRows<E<F>>,
) -> Result<FlatRows<E<F>>, NoMemory>
    requires { are_flat (F.ops f.now) rows.now.rows ≡ true }
    ensures width { IfOk result (λ v. v.width ≡ rows.now.width) }
    ensures basis { let r = F.ops f.now in IfOk result (λ v. IsStandardBasis r rows.now.width (IsInModule r rows.now.width rows.now.rows) v.rows) }
{
    let basis = standard_rows(alloc, f, rows.width(), rows.as_slice())?;
    Ok(FlatRows::from_vec(alloc, rows.width(), basis))
}

/// The quotients and the rest of `v` by `basis`, which has the form of a standard basis: `v` is the sum of the
/// quotients times the rows, and the rest, which is zero at the leads of the rows plus multiples of the width.
/// The rest is zero exactly where `v` is in the module of the rows.
///
/// The rows and `v` have to be rows of elements of `f`, with no zero at the end.
pub fn normal_flat<F: Field>(
    alloc: Global,
    f: &F,
    basis: &FlatRows<E<F>>,
    v: &[E<F>],
) -> Result<FlatNormal<E<F>>, NoMemory>
    requires rows { are_flat (F.ops f.now) basis.now.rows ≡ true }
    requires standard { IsStandard (F.ops f.now) basis.now.width basis.now.rows }
    requires row { is_canonical (F.ops f.now) v.now ≡ true }
    ensures normal { IfOk result (λ n. IsNormal (F.ops f.now) basis.now.width basis.now.rows v.now n.quotients n.rest) }
    ensures member { IfOk result (λ n. (n.rest ≡ []) ↔ IsInModule (F.ops f.now) basis.now.width basis.now.rows v.now) }
{
    Ok(normal_rows(alloc, f, basis.width(), basis.as_slice(), v)?)
}

/// The standard basis of all relations of the rows of `m`: of all flat rows `c` of the width `m.len()` with
/// `c m = 0`. Its width is `m.len()`, and 1 where there are no rows.
///
/// The rows have to be rows of elements of `f`, with no zero at the end.
pub fn relations_flat<F: Field>(
    alloc: Global,
    f: &F,
    m: &FlatRows<E<F>>,
) -> Result<FlatRows<E<F>>, NoMemory>
    requires { are_flat (F.ops f.now) m.now.rows ≡ true }
    ensures width { IfOk result (λ v. v.width ≡ max 1 (length m.now.rows)) }
    ensures basis { let r = F.ops f.now in IfOk result (λ v. IsStandardBasis r (length m.now.rows) (IsRelationOf r m.now.width m.now.rows) v.rows) }
{
    let basis = relation_rows(alloc, f, m.width(), m.as_slice())?;
    Ok(FlatRows::from_vec(alloc, m.len().max(1), basis))
}
