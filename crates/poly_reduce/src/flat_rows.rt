ghost use Rattle.std.specs.Prelude.{◌≡◌, ◌<◌, ◌≤◌, true, List, [], ◌∷◌, ◌++◌, length, if◌then◌else◌, is_ok, slice_get};
ghost use Rattle.ring_core.specs.Coeffs.{trim, are_elems};
ghost use Rattle.linear_algebra.specs.Linear.{row_at};
ghost use Rattle.poly_reduce.specs.Rows.{Rows};

use fq_poly::Poly;
use ring_core::lists::{copy_list, trimmed};
use ring_core::{Field, NoMemory};
use std::alloc::Global;
use std::marker::Model;

/// Flat rows of one width `w`, at least 1: member `e w + j` of a row is the coefficient of `x^e` in entry `j`,
/// so the letter `x` acts as a shift by `w`. A row has no zero at its end, so its lead, which is the highest
/// index with a nonzero member, is its size less one. Contracts see the width, and the list of the rows.
#[derive(Drop)]
pub struct FlatRows<E> {
    alloc: Global,
    width: usize,
    rows: Vec<Poly<E>>,
}

impl<E> Model for FlatRows<E> {
    ghost Value = { Rows (List E) };

    ghost view = { λ s. record { width = s.width; rows = s.rows.items } };

    ghost invariant = { λ s. 1 ≤ s.width };
}

impl<E: Copy> FlatRows<E> {
    /// No rows, of the width `width`. Takes no memory.
    pub fn new(alloc: Global, width: usize) -> FlatRows<E>
        requires { 1 ≤ width }
        ensures width { result.width ≡ width }
        ensures rows { result.rows ≡ [] }
    {
        FlatRows {
            alloc,
            width,
            rows: Vec::new(alloc),
        }
    }

    /// These rows, each given by its members without zeros at the end, of the width `width`. Takes no memory.
    pub fn from_vec(alloc: Global, width: usize, rows: Vec<Poly<E>>) -> FlatRows<E>
        requires { 1 ≤ width }
        ensures width { result.width ≡ width }
        ensures rows { result.rows ≡ rows.items }
    {
        FlatRows { alloc, width, rows }
    }

    /// Puts `row` after the others, without the zeros at its end. Where memory is refused, the rows stay as
    /// they were.
    pub fn push<F: Field<Elem = E>>(&mut self, f: &F, row: &[E]) -> Result<(), NoMemory>
        requires { are_elems (F.ops f.now) row.now ≡ true }
        ensures width { self.new.width ≡ self.old.width }
        ensures rows { self.new.rows ≡ (if is_ok result then self.old.rows ++ trim (F.ops f.now) row.now ∷ [] else self.old.rows) }
    {
        let members = trimmed(f, copy_list(self.alloc, row)?);
        self.rows.push(Poly::from_vec(members))?;
        Ok(())
    }

    /// The number of rows.
    pub fn len(&self) -> usize
        ensures { result ≡ length self.now.rows }
    {
        self.rows.len()
    }

    /// The width, which is at least 1.
    pub fn width(&self) -> usize
        ensures value { result ≡ self.now.width }
        ensures positive { 1 ≤ self.now.width }
    {
        self.width
    }

    /// The rows, each as its members without zeros at the end.
    pub fn as_slice(&self) -> &[Poly<E>]
        ensures { result.now ≡ self.now.rows }
    {
        &self.rows
    }

    /// How many members row `i` has.
    pub fn size(&self, i: usize) -> usize
        requires { i < length self.now.rows }
        ensures { result ≡ length (row_at self.now.rows i) }
    {
        self.rows[i].len()
    }

    /// Member `index` of row `i`; None exactly past its end.
    pub fn at(&self, i: usize, index: usize) -> Option<E>
        requires { i < length self.now.rows }
        ensures { result ≡ slice_get (row_at self.now.rows i) index }
    {
        self.rows[i].at(index)
    }
}
