//! Reduction and relations of flat rows.

ghost use Rattle.std.specs.Prelude.{◌≡◌, true, length, max, IfOk};
ghost use Rattle.flat_modules.specs.Flat.{are_flat, IsReduction, IsBasis, IsRelationOf, IsOfReduction};
ghost use Rattle.poly_reduce.specs.Rows.{IsFlatReduction};

use super::flat_rows::FlatRows;
use flat_reduce::{ReducedRows, kernel_rows, reduce_rows};
use ring_core::{E, Field, NoMemory};
use std::alloc::Global;

/// A reduction of flat rows: the transform, its inverse and the image, each with as many rows as were reduced.
/// The width of `left` and `back` is that number too, and 1 where there are no rows; that of `image` is the
/// width of what was reduced.
#[derive(Drop)]
pub struct FlatReduced<E> {
    pub left: FlatRows<E>,
    pub back: FlatRows<E>,
    pub image: FlatRows<E>,
}

/// Reduces the rows of `m` by an invertible transform: `left m = image`, where the nonzero rows of `image` have
/// different lead places, the lead place of a row being its lead modulo the width; `left back` and `back left`
/// are the identity.
///
/// The rows have to be rows of elements of `f`, with no zero at the end.
pub fn reduce_flat<F: Field>(
    alloc: Global,
    f: &F,
    m: &FlatRows<E<F>>,
) -> Result<FlatReduced<E<F>>, NoMemory>
    requires { are_flat (F.ops f.now) m.now.rows ≡ true }
    ensures { IfOk result (λ v. IsFlatReduction (F.ops f.now) m.now v.left v.back v.image) }
{
    let width = m.len().max(1);
    let ReducedRows { left, back, image } = reduce_rows(alloc, f, m.width(), m.as_slice())?;
    Ok(FlatReduced {
        left: FlatRows::from_vec(alloc, width, left),
        back: FlatRows::from_vec(alloc, width, back),
        image: FlatRows::from_vec(alloc, m.width(), image),
    })
}

/// A basis of the relations of the rows of `m`: each flat row `c` of the width `m.len()` with `c m = 0` is the
/// combination of the answer's rows by exactly one list of polynomials, whatever their degrees. The rows are
/// those of some reduction's `left` whose image row is zero; which basis it is isn't fixed. The width of the
/// answer is `m.len()`, and 1 where there are no rows.
///
/// The rows have to be rows of elements of `f`, with no zero at the end.
pub fn kernel_flat<F: Field>(
    alloc: Global,
    f: &F,
    m: &FlatRows<E<F>>,
) -> Result<FlatRows<E<F>>, NoMemory>
    requires { are_flat (F.ops f.now) m.now.rows ≡ true }
    ensures width { IfOk result (λ v. v.width ≡ max 1 (length m.now.rows)) }
    ensures basis { IfOk result (λ v. IsBasis (F.ops f.now) (length m.now.rows) (IsRelationOf (F.ops f.now) m.now.width m.now.rows) v.rows) }
    ensures source { IfOk result (λ v. IsOfReduction (F.ops f.now) m.now.width m.now.rows v.rows) }
{
    let rows = kernel_rows(alloc, f, m.width(), m.as_slice())?;
    Ok(FlatRows::from_vec(alloc, m.len().max(1), rows))
}
