//! Multiplication by Frobenius on motive coordinates: by a matrix, as Frobenius commutes with every twisted polynomial.
ghost use Rattle.std.specs.Prelude.{◌≡◌, IfOk, true};
ghost use Rattle.linear_algebra.specs.Linear.{is_row};
ghost use Rattle.fq_poly.specs.Poly.{poly_ops};
ghost use Rattle.drinfeld_mod.specs.Module.{IsModule, rank_of};
ghost use Rattle.poly_reduce.specs.Matrices.{row_times};
ghost use Rattle.frobenius_rel.specs.steps.FrobeniusRows.{AreFrobeniusRows};

use drinfeld_mod::Module;
use flat_reduce::lists::copies;
use fq_poly::Poly;
use motive_coords::motive;
use ore_poly::OreRing;
use poly_reduce::{PolyRows, product};
use ring_core::{E, FrobField, NoMemory, Ring};
use std::alloc::Global;

/// The matrix: the motive coordinates of Frobenius times the powers of tau below the rank.
pub(super) fn frobenius_rows<K: FrobField>(
    alloc: Global,
    field: &K,
    phi: &Module<E<K>>,
) -> Result<PolyRows<E<K>>, NoMemory>
    requires { IsModule (K.ops field.now) phi.now }
    ensures width { IfOk result (λ v. v.width ≡ rank_of phi.now) }
    ensures rows { IfOk result (λ v. AreFrobeniusRows (K.ops field.now) (K.frob_ops field.now) phi.now v.rows) }
{
    let ring = OreRing::new(field);
    let one = ring.one(alloc)?;
    let mut rows = PolyRows::new(alloc, phi.rank());
    for i in 0..phi.rank() {
        let power = ring.tau_shift(alloc, &one, field.degree() + i)?;
        let row = motive(alloc, field, phi, &power)?;
        rows.push(row)?;
    }
    Ok(rows)
}

/// The motive coordinates `list`, times the matrix.
pub(super) fn times_frobenius<K: FrobField>(
    alloc: Global,
    field: &K,
    phi: &Module<E<K>>,
    matrix: &PolyRows<E<K>>,
    list: Vec<Poly<E<K>>>,
) -> Result<Vec<Poly<E<K>>>, NoMemory>
    requires module { IsModule (K.ops field.now) phi.now }
    requires width { matrix.now.width ≡ rank_of phi.now }
    requires rows { AreFrobeniusRows (K.ops field.now) (K.frob_ops field.now) phi.now matrix.now.rows }
    requires list { is_row (poly_ops (K.ops field.now)) (rank_of phi.now) list.items ≡ true }
    ensures { IfOk result (λ v. v.items ≡ row_times (poly_ops (K.ops field.now)) (rank_of phi.now) list.items matrix.now.rows) }
{
    let mut row = PolyRows::new(alloc, phi.rank());
    row.push(list)?;
    let made = product(alloc, field, &row, matrix)?;
    Ok(copies(alloc, made.as_slice()[0].as_slice())?)
}
