//! The full list of homomorphisms. The map `u phi_T - psi_T u` is linear over the polynomials in `tau^n`, where `n` is the
//! degree of the field, so the rows of the system for the degrees below `n` tell it whole; the relations of these `n^2`
//! rows over those polynomials are the coordinates of all homomorphisms, whatever their degrees.
ghost use Rattle.std.specs.Prelude.{◌≡◌, ◌<◌, IfOk, length, true};
ghost use Rattle.ring_core.specs.Coeffs.{trim, first_values};
ghost use Rattle.linear_algebra.specs.Linear.{row_at, are_rows};
ghost use Rattle.flat_modules.specs.Flat.{are_flat};
ghost use Rattle.drinfeld_mod.specs.Module.{IsModule, constant_of};
ghost use Rattle.hom_space.specs.Full.{IsFullList};
ghost use Rattle.hom_space.specs.steps.Reading.{AreReadRows};

use super::reading::row_list;
use super::system::system;
use central_coords::of_coordinates;
use drinfeld_mod::Module;
use fq_linear::Rows;
use fq_poly::Poly;
use ore_poly::Ore;
use poly_reduce::FlatRows;
use popov_basis::relations_flat;
use ring_core::{B, E, Field, FrobField, NoMemory};
use std::alloc::Global;

/// The rows of a square matrix over polynomials, without zeros at their ends.
fn square<F: Field>(alloc: Global, f: &F, rows: &Rows<E<F>>) -> Result<FlatRows<E<F>>, NoMemory>
    requires rows { are_rows (F.ops f.now) rows.now.width rows.now.rows ≡ true }
    requires some { 0 < length rows.now.rows }
    ensures width { IfOk result (λ v. v.width ≡ length rows.now.rows) }
    ensures rows { IfOk result (λ v. v.rows ≡ first_values (length rows.now.rows) (λ i. trim (F.ops f.now) (row_at rows.now.rows i))) }
{
    let mut flat = FlatRows::new(alloc, rows.len());
    for i in 0..rows.len() {
        let row = row_list(alloc, f, rows, i)?;
        flat.push(f, &row)?;
    }
    Ok(flat)
}

/// The flat rows as the coordinates of twisted polynomials.
fn read_flat<K: FrobField>(
    alloc: Global,
    k: &K,
    rows: &[Poly<B<K>>],
) -> Result<Vec<Ore<E<K>>>, NoMemory>
    requires { are_flat (K.Base.ops (K.base_of k.now)) rows.now ≡ true }
    ensures { IfOk result (λ v. AreReadRows (K.ops k.now) (K.Base.ops (K.base_of k.now)) (K.frob_ops k.now) rows.now v.items) }
{
    let mut list = Vec::new(alloc);
    for i in 0..rows.len() {
        list.push(of_coordinates(alloc, k, rows[i].as_slice())?)?;
    }
    Ok(list)
}

/// The full list of the homomorphisms from `phi` to `psi`, two modules with the same constant, over a field of degree
/// `n`: the list of homomorphisms such that each homomorphism is the sum of `c(tau^n)` times the members for exactly one
/// list of polynomials `c` over the base. Their leads rise and are distinct modulo `n^2`, where the lead is the highest
/// index with a nonzero coordinate over the base; each member has coordinate one at its lead, and zero at those of the
/// others and at these plus multiples of `n^2`. There is one such list, and its members can have any degree.
pub fn full<K: FrobField>(
    alloc: Global,
    k: &K,
    phi: &Module<E<K>>,
    psi: &Module<E<K>>,
) -> Result<Vec<Ore<E<K>>>, NoMemory>
    requires source { IsModule (K.ops k.now) phi.now }
    requires target { IsModule (K.ops k.now) psi.now }
    requires constants { constant_of (K.ops k.now) phi.now ≡ constant_of (K.ops k.now) psi.now }
    ensures { IfOk result (λ v. IsFullList (K.ops k.now) (K.Base.ops (K.base_of k.now)) (K.frob_ops k.now) phi.now psi.now v.items) }
{
    let rows = system(alloc, k, phi.as_slice(), psi.as_slice(), k.degree() - 1)?;
    let matrix = square(alloc, k.base(), &rows)?;
    let basis = relations_flat(alloc, k.base(), &matrix)?;
    Ok(read_flat(alloc, k, basis.as_slice())?)
}
