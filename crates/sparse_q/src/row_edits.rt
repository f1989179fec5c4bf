//! Rows of a sparse matrix whose columns come and go, and entries that are put at any place.

ghost use Rattle.std.specs.Prelude.{◌≡◌, ◌≢◌, ℕ, ◌+◌, ◌<◌, ◌≤◌, [], cond, eqb, max, OnOk, OnErr};
ghost use Rattle.limits.specs.Limits.{column_limit};
ghost use Rattle.linear_algebra.specs.Parts.{skip};
ghost use Rattle.sparse_q.specs.Rows.{columns_raised, number_at};

use crate::moves::{lower, raise};
use crate::row::SparseRow;
use out_of_memory::NoMemory;
use residue_field::Field;
use row_entries::{Entry, place_from};

impl<F: Field> SparseRow<F> {
    // Takes room for at least so many columns.
    pub(crate) fn widen(&mut self, columns: usize) -> Result<(), NoMemory>
        ensures ok { OnOk result (self.new ≡ record self.old { room = max self.old.room columns }) }
        ensures err { OnErr result (self.new ≡ self.old) }
    {
        self.entries
            .reserve(columns.saturating_sub(self.entries.len()))?;
        self.room = self.room.max(columns);
        Ok(())
    }

    // Becomes an empty row of so many columns.
    pub(crate) fn reset(&mut self, columns: usize)
        requires room { columns ≤ self.old.room }
        requires few { columns ≤ column_limit }
        ensures { self.new ≡ record { width = columns; room = self.old.room; items = [] } }
    {
        self.entries.clear();
        self.width = columns;
    }

    // Puts in a column `at`, at which it has no entry.
    pub(crate) fn insert_column(&mut self, at: usize)
        requires room { self.old.width < self.old.room }
        requires few { self.old.width < column_limit }
        ensures { self.new ≡ record {
          width = self.old.width + 1;
          room = self.old.room;
          items = columns_raised at self.old.items;
        } }
    {
        raise(&mut self.entries, at);
        self.width += 1;
    }

    // Takes column `at` out, with its entry.
    pub(crate) fn remove_column(&mut self, at: usize)
        requires { at < self.old.width }
        ensures width { self.new.width + 1 ≡ self.old.width }
        ensures room { self.new.room ≡ self.old.room }
        ensures numbers { (j : ℕ) → number_at self.new.items j ≡ number_at self.old.items (skip at j) }
    {
        self.take_out(at);
        self.close(at);
    }

    // Puts a value at a column.
    pub(crate) fn put(&mut self, column: usize, value: F)
        requires { column < self.old.width }
        ensures width { self.new.width ≡ self.old.width }
        ensures room { self.new.room ≡ self.old.room }
        ensures numbers { (j : ℕ) → number_at self.new.items j
            ≡ cond (eqb j column) (F.number value) (number_at self.old.items j) }
    {
        self.take_out(column);
        if !value.is_zero() {
            self.put_in(column, value);
        }
    }

    // Takes the entry at a column out, if there is one.
    fn take_out(&mut self, column: usize)
        ensures width { self.new.width ≡ self.old.width }
        ensures room { self.new.room ≡ self.old.room }
        ensures numbers { (j : ℕ) → number_at self.new.items j ≡ cond (eqb j column) 0 (number_at self.old.items j) }
    {
        let place = place_from(&self.entries, column);
        if place < self.entries.len() && self.entries[place].column as usize == column {
            self.entries.remove(place);
        }
    }

    // Puts a value that is not zero at a column where there is none.
    fn put_in(&mut self, column: usize, value: F)
        requires column { column < self.old.width }
        requires value { F.number value ≢ 0 }
        requires none { number_at self.old.items column ≡ 0 }
        ensures width { self.new.width ≡ self.old.width }
        ensures room { self.new.room ≡ self.old.room }
        ensures numbers { (j : ℕ) → number_at self.new.items j
            ≡ cond (eqb j column) (F.number value) (number_at self.old.items j) }
    {
        value.in_field();
        let place = place_from(&self.entries, column);
        let _ = self.entries.insert(
            place,
            Entry {
                column: column as u32,
                value,
            },
        );
    }

    // Takes out column `at`, at which it has no entry.
    fn close(&mut self, at: usize)
        requires at { at < self.old.width }
        requires none { number_at self.old.items at ≡ 0 }
        ensures width { self.new.width + 1 ≡ self.old.width }
        ensures room { self.new.room ≡ self.old.room }
        ensures numbers { (j : ℕ) → number_at self.new.items j ≡ number_at self.old.items (skip at j) }
    {
        lower(&mut self.entries, at);
        self.width -= 1;
    }
}
