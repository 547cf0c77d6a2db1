//! Rows of coordinates, read as twisted polynomials.
ghost use Rattle.std.specs.Prelude.{◌≡◌, ◌<◌, IfOk, length, true};
ghost use Rattle.linear_algebra.specs.Linear.{row_at, are_rows};
ghost use Rattle.hom_space.specs.steps.Reading.{AreReadRows};

use central_coords::of_coordinates;
use fq_linear::Rows;
use ore_poly::Ore;
use ring_core::{B, E, Field, FrobField, NoMemory};
use std::alloc::Global;

/// Row `i` as a list.
pub(super) fn row_list<F: Field>(
    alloc: Global,
    f: &F,
    rows: &Rows<E<F>>,
    i: usize,
) -> Result<Vec<E<F>>, NoMemory>
    requires rows { are_rows (F.ops f.now) rows.now.width rows.now.rows ≡ true }
    requires place { i < length rows.now.rows }
    ensures { IfOk result (λ v. v.items ≡ row_at rows.now.rows i) }
{
    let mut list = Vec::new(alloc);
    for j in 0..rows.width() {
        list.push(rows.at(i, j))?;
    }
    Ok(list)
}

/// The rows as the coordinates of twisted polynomials.
pub(super) fn read_rows<K: FrobField>(
    alloc: Global,
    k: &K,
    rows: &Rows<B<K>>,
) -> Result<Vec<Ore<E<K>>>, NoMemory>
    requires { are_rows (K.Base.ops (K.base_of k.now)) rows.now.width rows.now.rows ≡ true }
    ensures { IfOk result (λ v. AreReadRows (K.ops k.now) (K.Base.ops (K.base_of k.now)) (K.frob_ops k.now) rows.now.rows v.items) }
{
    let mut list = Vec::new(alloc);
    for i in 0..rows.len() {
        let row = row_list(alloc, k.base(), rows, i)?;
        list.push(of_coordinates(alloc, k, &row)?)?;
    }
    Ok(list)
}
