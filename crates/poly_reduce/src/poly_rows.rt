ghost use Rattle.std.specs.Prelude.{◌≡◌, ◌<◌, ℕ, List, [], ◌∷◌, ◌++◌, length, if◌then◌else◌, is_ok};
ghost use Rattle.linear_algebra.specs.Linear.{row_at};
ghost use Rattle.poly_reduce.specs.Rows.{Rows};

use super::poly_row::PolyRow;
use fq_poly::Poly;
use ring_core::NoMemory;
use std::alloc::Global;
use std::marker::Model;

/// Rows of polynomials, all with the same number of entries, the width. Contracts see the width, and the list
/// of the rows.
#[derive(Drop)]
pub struct PolyRows<E> {
    width: usize,
    rows: Vec<PolyRow<E>>,
}

impl<E> Model for PolyRows<E> {
    ghost Value = { Rows (List (List E)) };

    ghost view = { λ s. record { width = s.width; rows = s.rows.items } };

    ghost invariant = { λ s. (i : ℕ) → i < length s.rows.items → length (row_at s.rows.items i) ≡ s.width };
}

impl<E: Copy> PolyRows<E> {
    /// No rows, of the width `width`. Takes no memory.
    pub fn new(alloc: Global, width: usize) -> PolyRows<E>
        ensures width { result.width ≡ width }
        ensures rows { result.rows ≡ [] }
    {
        PolyRows {
            width,
            rows: Vec::new(alloc),
        }
    }

    /// These rows, each with `width` entries. Takes no memory.
    pub(super) fn from_vec(width: usize, rows: Vec<PolyRow<E>>) -> PolyRows<E>
        requires { (i : ℕ) → i < length rows.items → length (row_at rows.items i) ≡ width }
        ensures width { result.width ≡ width }
        ensures rows { result.rows ≡ rows.items }
    {
        PolyRows { width, rows }
    }

    /// Puts `row`, which has `width()` entries, after the others. Where memory is refused, the rows stay as they
    /// were, and `row` is dropped.
    pub fn push(&mut self, row: Vec<Poly<E>>) -> Result<(), NoMemory>
        requires { length row.items ≡ self.old.width }
        ensures width { self.new.width ≡ self.old.width }
        ensures rows { self.new.rows ≡ (if is_ok result then self.old.rows ++ row.items ∷ [] else self.old.rows) }
    {
        self.rows.push(PolyRow::from_vec(row))?;
        Ok(())
    }

    /// The number of rows.
    pub fn len(&self) -> usize
        ensures { result ≡ length self.now.rows }
    {
        self.rows.len()
    }

    /// The number of entries of each row.
    pub fn width(&self) -> usize
        ensures { result ≡ self.now.width }
    {
        self.width
    }

    /// The rows, in order.
    pub fn as_slice(&self) -> &[PolyRow<E>]
        ensures { result.now ≡ self.now.rows }
    {
        &self.rows
    }

    /// Entry `j` of row `i`.
    pub fn at(&self, i: usize, j: usize) -> &Poly<E>
        requires row { i < length self.now.rows }
        requires place { j < self.now.width }
        ensures within { j < length (row_at self.now.rows i) }
        ensures value { result.now ≡ row_at (row_at self.now.rows i) j }
    {
        &self.rows[i].polys[j]
    }
}
