//! What holds of the definitions alone.

ghost use Rattle.std.specs.Prelude.{◌≡◌, ◌<◌, ◌↔◌, ℕ, true, List, length};
ghost use Rattle.linear_algebra.specs.Linear.{are_rows, is_row, IsCombination, IsOnlyCombination, IsRelation, IsEchelon, IsEchelonBasis, IsFirstDependence, IsIndependent, IsSolution};

use ring_core::Field;

/// Echelon rows are determined by their combinations.
pub fn one_basis<F: Field>()
    ensures { (f : F) (w : ℕ) (a b : List (List F.Elem)) → let r = F.ops f in are_rows r w a ≡ true → are_rows r w b ≡ true → IsEchelon r a → IsEchelon r b → ((x : List F.Elem) → is_row r w x ≡ true → IsCombination r a x ↔ IsCombination r b x) → a ≡ b }
{}

/// A combination of echelon rows is one by exactly one list of coefficients. So each relation of rows is a
/// combination of the rows that `kernel` gives by exactly one list.
pub fn one_combination<F: Field>()
    ensures rows { (f : F) (w : ℕ) (rows : List (List F.Elem)) (x : List F.Elem) → let r = F.ops f in
        are_rows r w rows ≡ true → IsEchelon r rows → IsCombination r rows x → (c : List F.Elem) × IsOnlyCombination r rows x c }
    ensures relations { (f : F) (rows basis : List (List F.Elem)) (x : List F.Elem) → let r = F.ops f in
        IsEchelonBasis r (length rows) (IsRelation r rows) basis → is_row r (length rows) x ≡ true → IsRelation r rows x
        → (c : List F.Elem) × IsOnlyCombination r basis x c }
{}

/// Rows have at most one first dependence, with one list of coefficients.
pub fn one_dependence<F: Field>()
    ensures { (f : F) (w : ℕ) (rows : List (List F.Elem)) (k l : ℕ) (c d : List F.Elem) → let r = F.ops f in are_rows r w rows ≡ true → IsFirstDependence r rows k c → IsFirstDependence r rows l d → (k ≡ l) × (c ≡ d) }
{}

/// A target has at most one solution with zero at each row that is a combination of the rows before it.
pub fn one_solution<F: Field>()
    ensures { (f : F) (w : ℕ) (rows : List (List F.Elem)) (target c d : List F.Elem) → let r = F.ops f in are_rows r w rows ≡ true → IsSolution r rows target c → IsSolution r rows target d → c ≡ d }
{}

/// More rows than places aren't independent.
pub fn rows_depend<F: Field>()
    ensures { (f : F) (w : ℕ) (rows : List (List F.Elem)) → let r = F.ops f in are_rows r w rows ≡ true → w < length rows → IsIndependent r rows → ⊥ }
{}
