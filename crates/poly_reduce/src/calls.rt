//! Reduction and relations of rows of polynomials, by way of flat rows.

ghost use Rattle.std.specs.Prelude.{◌≡◌, ◌≤◌, true, length, IfOk};
ghost use Rattle.linear_algebra.specs.Linear.{are_rows};
ghost use Rattle.fq_poly.specs.Poly.{poly_ops};
ghost use Rattle.poly_reduce.specs.Matrices.{IsRowReduction, IsRowBasis, IsRelationRow, IsOfRowReduction};

use super::convert::{flatten, unflatten};
use super::flat::{FlatReduced, kernel_flat, reduce_flat};
use super::poly_rows::PolyRows;
use ring_core::{E, Field, NoMemory};
use std::alloc::Global;

/// A reduction of rows of polynomials: the transform, its inverse and the image, each with as many rows as were
/// reduced. The width of `left` and `back` is that number too, that of `image` is the width of what was reduced.
#[derive(Drop)]
pub struct Reduced<E> {
    pub left: PolyRows<E>,
    pub back: PolyRows<E>,
    pub image: PolyRows<E>,
}

/// Reduces the rows of `m`, of a width `w` of at least 1, by an invertible transform: `left m = image`, and
/// `left back` and `back left` are the identity. The nonzero rows of `image` have different lead places. The
/// coefficient of `x^e` in entry `j` has the index `e w + j`; the lead of a row is its highest index with a
/// nonzero coefficient, and its lead place is that index modulo `w`.
///
/// The entries have to be polynomials over `f`.
pub fn reduce<F: Field>(alloc: Global, f: &F, m: &PolyRows<E<F>>) -> Result<Reduced<E<F>>, NoMemory>
    requires width { 1 ≤ m.now.width }
    requires rows { are_rows (poly_ops (F.ops f.now)) m.now.width m.now.rows ≡ true }
    ensures { IfOk result (λ v. IsRowReduction (F.ops f.now) m.now v.left v.back v.image) }
{
    if m.len() == 0 {
        return Ok(Reduced {
            left: PolyRows::new(alloc, 0),
            back: PolyRows::new(alloc, 0),
            image: PolyRows::new(alloc, m.width()),
        });
    }
    let flat = flatten(alloc, f, m)?;
    let FlatReduced { left, back, image } = reduce_flat(alloc, f, &flat)?;
    Ok(Reduced {
        left: unflatten(alloc, f, &left)?,
        back: unflatten(alloc, f, &back)?,
        image: unflatten(alloc, f, &image)?,
    })
}

/// A basis of all rows `c` of the width `m.len()` with `c m = 0`: each of them is the product of exactly one row
/// of polynomials and the answer, whatever its degrees. The rows are those of some reduction's `left` whose image
/// row is zero; which basis it is isn't fixed. The width of the answer is `m.len()`.
///
/// The width of `m` has to be at least 1, and the entries polynomials over `f`.
pub fn kernel<F: Field>(
    alloc: Global,
    f: &F,
    m: &PolyRows<E<F>>,
) -> Result<PolyRows<E<F>>, NoMemory>
    requires width { 1 ≤ m.now.width }
    requires rows { are_rows (poly_ops (F.ops f.now)) m.now.width m.now.rows ≡ true }
    ensures width { IfOk result (λ v. v.width ≡ length m.now.rows) }
    ensures basis { let p = poly_ops (F.ops f.now) in IfOk result (λ v. IsRowBasis p (length m.now.rows) (IsRelationRow p m.now.width m.now.rows) v.rows) }
    ensures source { IfOk result (λ v. IsOfRowReduction (F.ops f.now) m.now v.rows) }
{
    if m.len() == 0 {
        return Ok(PolyRows::new(alloc, 0));
    }
    let flat = flatten(alloc, f, m)?;
    let rows = kernel_flat(alloc, f, &flat)?;
    Ok(unflatten(alloc, f, &rows)?)
}
