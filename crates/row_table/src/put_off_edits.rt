//! A matrix to which changes are made later, whose rows and columns come and go.

ghost use Rattle.std.specs.Prelude.{◌≡◌, ◌≢◌, ℕ, ◌+◌, ◌-◌, ◌*◌, ◌%◌, ◌<◌, ◌≤◌, max, OnOk, OnErr};
ghost use Rattle.limits.specs.Limits.{column_limit};
ghost use Rattle.linear_algebra.specs.Parts.{with_entry};
ghost use Rattle.linear_algebra.specs.RowOperations.{IsRowAdded};
ghost use Rattle.dense_q.specs.Tables.{Table, height, entry};
ghost use Rattle.row_table.specs.Places.{last_at};
ghost use Rattle.row_table.specs.PutOffs.{Kept, actual, HasColumns, HasRows, HasSameShape, IsSettled, IsWidened};

use crate::matrix_steps::{clear_row, copy_column, larger, take_row};
use crate::put_off::{PutOff, clear_column, put};
use out_of_memory::NoMemory;
use residue_field::Field;
use std::alloc::Global;

impl<F: Field> PutOff<F> {
    /// Takes room for at least so many rows and columns. A refusal leaves the matrix and its room as they were.
    pub fn room(&mut self, alloc: Global, rows: usize, columns: usize) -> Result<(), NoMemory>
        requires rows { rows ≤ column_limit }
        requires columns { columns ≤ column_limit }
        ensures ok { OnOk result (IsWidened F.modulus self.old self.new (max (height self.old.stored) rows)
            (max self.old.stored.width columns)) }
        ensures err { OnErr result (self.new ≡ self.old) }
    {
        let rows = rows.max(self.stored.rows());
        let columns = columns.max(self.stored.cols());
        let stored = larger(alloc, &self.stored, rows, columns)?;
        let factors = larger(alloc, &self.factors, rows, self.factors.cols())?;
        let pending = larger(alloc, &self.pending, self.pending.rows(), columns)?;
        self.stored = stored;
        self.factors = factors;
        self.pending = pending;
        Ok(())
    }

    /// Puts a row of zeros after the last one. Nothing waits for it.
    pub fn push_row(&mut self)
        requires { self.old.rows < height self.old.stored }
        ensures rows { HasRows F.modulus self.old self.new (self.old.rows + 1) (λ i. i) }
        ensures settled { IsSettled self.new self.old.rows }
    {
        self.stored.is_matrix();
        clear_row(&mut self.stored, self.rows);
        clear_row(&mut self.factors, self.rows);
        self.rows += 1;
    }

    /// Takes row i out; the last row takes its place.
    pub fn remove_row(&mut self, i: usize)
        requires { i < self.old.rows }
        ensures { HasRows F.modulus self.old self.new (self.old.rows - 1) (last_at i (self.old.rows - 1)) }
    {
        self.rows -= 1;
        take_row(&mut self.stored, i, self.rows);
        take_row(&mut self.factors, i, self.rows);
    }

    /// Puts a column of zeros after the last one.
    pub fn push_column(&mut self)
        requires { self.old.columns < self.old.stored.width }
        ensures { HasColumns F.modulus self.old self.new (self.old.columns + 1) (λ j. j) }
    {
        self.stored.is_matrix();
        clear_column(&mut self.stored, self.columns);
        clear_column(&mut self.pending, self.columns);
        self.columns += 1;
    }

    /// Takes column j out; the last column takes its place.
    pub fn remove_column(&mut self, j: usize)
        requires { j < self.old.columns }
        ensures { HasColumns F.modulus self.old self.new (self.old.columns - 1) (last_at j (self.old.columns - 1)) }
    {
        self.columns -= 1;
        copy_column(&mut self.stored, j, self.columns);
        copy_column(&mut self.pending, j, self.columns);
    }

    /// Puts an entry into a row for which nothing waits.
    pub fn put(&mut self, i: usize, j: usize, value: F)
        requires row { i < self.old.rows }
        requires column { j < self.old.columns }
        requires settled { IsSettled self.old i }
        ensures shape { HasSameShape self.new self.old }
        ensures settled { IsSettled self.new i }
        ensures put { (u w : ℕ) → u < self.old.rows → w < self.old.columns →
            actual F.modulus self.new u w ≡ with_entry (actual F.modulus self.old) i j (F.number value) u w }
    {
        value.in_field();
        put(&mut self.stored, i, j, value);
    }

    /// Adds `factor` times row `source` to row `target`. What waits stays put off.
    pub fn add_row(&mut self, target: usize, source: usize, factor: F)
        requires target { target < self.old.rows }
        requires source { source < self.old.rows }
        requires apart { target ≢ source }
        ensures shape { HasSameShape self.new self.old }
        ensures added { IsRowAdded F.modulus self.old.rows self.old.columns (actual F.modulus self.old)
            (actual F.modulus self.new) target source (F.number factor) }
    {
        self.stored.add_row(target, source, factor);
        self.factors.add_row(target, source, factor);
    }
}
