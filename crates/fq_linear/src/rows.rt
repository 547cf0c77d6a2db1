ghost use Rattle.std.specs.Prelude.{◌≡◌, ◌+◌, ◌*◌, ◌<◌, [], ◌∷◌, ◌++◌, length, if◌then◌else◌, is_ok, slice_index_or};
ghost use Rattle.fq_linear.specs.Table.{Table, table_rows};
ghost use Rattle.linear_algebra.specs.Linear.{row_at};

use ring_core::NoMemory;
use std::alloc::Global;
use std::marker::Model;

/// Rows of one width, in one allocation. Contracts see the width, and the list of the rows.
#[derive(Drop)]
pub struct Rows<E> {
    pub(super) width: usize,
    pub(super) len: usize,
    pub(super) cells: Vec<E>,
}

impl<E> Model for Rows<E> {
    ghost Value = { Table E };

    ghost view = { λ s. record { width = s.width; rows = table_rows s.width s.len s.cells.items } };

    ghost invariant = { λ s. length s.cells.items ≡ s.len * s.width };
}

impl<E: Copy> Rows<E> {
    /// No rows, of the width `width`. Takes no memory.
    pub fn new(alloc: Global, width: usize) -> Rows<E>
        ensures width { result.width ≡ width }
        ensures rows { result.rows ≡ [] }
    {
        Rows {
            width,
            len: 0,
            cells: Vec::new(alloc),
        }
    }

    /// Puts `row`, which has `width` members, after the others. Where memory is refused, the rows stay as
    /// they were.
    pub fn push(&mut self, row: &[E]) -> Result<(), NoMemory>
        requires { length row.now ≡ self.old.width }
        ensures width { self.new.width ≡ self.old.width }
        ensures rows { self.new.rows ≡ (if is_ok result then self.old.rows ++ row.now ∷ [] else self.old.rows) }
    {
        let Some(len) = self.len.checked_add(1) else {
            return Err(NoMemory);
        };
        self.cells.extend_from_slice(row)?;
        self.len = len;
        Ok(())
    }

    /// The number of rows.
    pub fn len(&self) -> usize
        ensures { result ≡ length self.now.rows }
    {
        self.len
    }

    /// The number of members of each row.
    pub fn width(&self) -> usize
        ensures { result ≡ self.now.width }
    {
        self.width
    }

    /// The members of all rows, row after row.
    pub(super) fn cells(&self) -> &[E]
        ensures len { length result.now ≡ length self.now.rows * self.now.width }
        ensures rows { table_rows self.now.width (length self.now.rows) result.now ≡ self.now.rows }
    {
        &self.cells
    }

    /// Member `j` of row `i`, which has `width` members.
    pub fn at(&self, i: usize, j: usize) -> E
        requires row { i < length self.now.rows }
        requires place { j < self.now.width }
        ensures within { j < length (row_at self.now.rows i) }
        ensures value { (past : E) → result ≡ slice_index_or (row_at self.now.rows i) j past }
    {
        cell_at(&self.cells, self.len, self.width, i, j)
    }
}

/// Member `j` of row `i` of `n` rows of `w` cells.
fn cell_at<E: Copy>(cells: &[E], n: usize, w: usize, i: usize, j: usize) -> E
    requires row { i < n }
    requires place { j < w }
    requires cells { length cells.now ≡ n * w }
    ensures within { i * w + j < length cells.now }
    ensures value { result ≡ slice_index_or cells.now (i * w + j) result }
{
    cells[i * w + j]
}
