//! What holds of the definitions alone.

ghost use Rattle.std.specs.Prelude.{◌≡◌, ◌<◌, ℕ, true, List, length};
ghost use Rattle.linear_algebra.specs.Linear.{are_rows};
ghost use Rattle.fq_poly.specs.Poly.{poly_ops};
ghost use Rattle.flat_modules.specs.Flat.{are_flat, IsStandardBasis, IsInModule, IsRelationOf};
ghost use Rattle.poly_reduce.specs.Matrices.{IsInRows};
ghost use Rattle.popov_basis.specs.StandardRows.{IsStandardRowBasis};

use ring_core::Field;

/// A module of flat rows has one standard basis.
pub fn one_standard_basis<F: Field>()
    ensures { (f : F) (w : ℕ) (rows a b : List (List F.Elem)) → let r = F.ops f in 0 < w → IsStandardBasis r w (IsInModule r w rows) a → IsStandardBasis r w (IsInModule r w rows) b → a ≡ b }
{}

/// A module of flat rows has a standard basis, and so have the relations of flat rows.
pub fn some_standard_basis<F: Field>()
    ensures rows { (f : F) (w : ℕ) (rows : List (List F.Elem)) → let r = F.ops f in 0 < w → are_flat r rows ≡ true → (basis : List (List F.Elem)) × IsStandardBasis r w (IsInModule r w rows) basis }
    ensures relations { (f : F) (w : ℕ) (m : List (List F.Elem)) → let r = F.ops f in 0 < w → are_flat r m ≡ true → (basis : List (List F.Elem)) × IsStandardBasis r (length m) (IsRelationOf r w m) basis }
{}

/// A module of rows of polynomials has one standard basis.
pub fn one_standard_row_basis<F: Field>()
    ensures { (f : F) (w : ℕ) (m a b : List (List (List F.Elem))) → let r = F.ops f in 0 < w → are_rows (poly_ops r) w m ≡ true → IsStandardRowBasis r w (IsInRows (poly_ops r) w m) a → IsStandardRowBasis r w (IsInRows (poly_ops r) w m) b → a ≡ b }
{}

/// A module of rows of polynomials has a standard basis.
pub fn some_standard_row_basis<F: Field>()
    ensures { (f : F) (w : ℕ) (m : List (List (List F.Elem))) → let r = F.ops f in 0 < w → are_rows (poly_ops r) w m ≡ true → (basis : List (List (List F.Elem))) × IsStandardRowBasis r w (IsInRows (poly_ops r) w m) basis }
{}
