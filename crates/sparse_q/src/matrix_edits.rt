//! Sparse matrices whose rows and columns come and go.

ghost use Rattle.std.specs.Prelude.{◌≡◌, ℕ, ◌<◌, ◌≤◌, cond, eqb, OnOk, OnErr};
ghost use Rattle.limits.specs.Limits.{column_limit};
ghost use Rattle.sparse_q.specs.Tables.{sparse_rows, number_in, IsColumnTaken, IsRowSet, with_empty_column, with_room};
ghost use Rattle.sparse_q.specs.Tables.{with_empty_row, with_table_rows_swapped, without_table_row};

use crate::matrix::SparseMat;
use crate::shelf;
use out_of_memory::NoMemory;
use residue_field::Field;

impl<F: Field> SparseMat<F> {
    /// Takes room for at least so many rows and columns. A refusal leaves the matrix and its room as they were.
    pub fn room(&mut self, rows: usize, cols: usize) -> Result<(), NoMemory>
        requires cols { cols ≤ column_limit }
        ensures ok { OnOk result (self.new ≡ with_room self.old rows cols) }
        ensures err { OnErr result (self.new ≡ self.old) }
    {
        let rows = rows.max(self.row_room);
        let cols = cols.max(self.column_room);
        self.rows.reserve(rows.saturating_sub(self.rows.len()))?;
        self.shelf.reserve(rows.saturating_sub(self.shelf.len()))?;
        self.spare.widen(cols)?;
        shelf::widen(&mut self.rows, cols)?;
        shelf::widen(&mut self.shelf, cols)?;
        let missing = rows
            .saturating_sub(self.rows.len())
            .saturating_sub(self.shelf.len());
        shelf::add_rows(*self.rows.allocator(), &mut self.shelf, missing, cols)?;
        self.row_room = rows;
        self.column_room = cols;
        Ok(())
    }

    /// Puts an empty row in, so that it is row `at`. It takes no memory.
    pub fn insert_row(&mut self, at: usize)
        requires at { at ≤ sparse_rows self.old }
        requires rows { sparse_rows self.old < self.old.row_room }
        requires cols { self.old.width ≤ self.old.column_room }
        requires few { sparse_rows self.old < column_limit }
        ensures { self.new ≡ with_empty_row self.old at }
    {
        let mut row = self.shelf.pop().unwrap();
        row.reset(self.width);
        let _ = self.rows.insert(at, row);
    }

    /// Takes row `at` out.
    pub fn remove_row(&mut self, at: usize)
        requires { at < sparse_rows self.old }
        ensures { self.new ≡ without_table_row self.old at }
    {
        let row = self.rows.remove(at);
        if self.shelf.len() < self.row_room {
            let _ = self.shelf.push(row);
        }
    }

    /// Exchanges rows i and k.
    pub fn swap_rows(&mut self, i: usize, k: usize)
        requires i { i < sparse_rows self.old }
        requires k { k < sparse_rows self.old }
        ensures { self.new ≡ with_table_rows_swapped self.old i k }
    {
        self.rows.swap(i, k);
    }

    /// Puts a column in, so that it is column `at`; no row has an entry at it. It takes no memory.
    pub fn insert_column(&mut self, at: usize)
        requires at { at ≤ self.old.width }
        requires cols { self.old.width < self.old.column_room }
        requires few { self.old.width < column_limit }
        ensures { self.new ≡ with_empty_column self.old at }
    {
        self.width += 1;
        shelf::insert_column(&mut self.rows, at);
        self.spare.reset(self.width);
    }

    /// Takes column `at` out, with its entries.
    pub fn remove_column(&mut self, at: usize)
        requires { at < self.old.width }
        ensures { IsColumnTaken self.old self.new at }
    {
        shelf::remove_column(&mut self.rows, at);
        self.spare.remove_column(at);
        self.width -= 1;
    }

    /// Puts a value at row i and column j.
    pub fn put(&mut self, i: usize, j: usize, value: F)
        requires row { i < sparse_rows self.old }
        requires column { j < self.old.width }
        ensures { IsRowSet self.old self.new i (λ c. cond (eqb c j) (F.number value) (number_in self.old i c)) }
    {
        self.rows[i].put(j, value);
    }
}
