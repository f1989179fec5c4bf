//! A table of P and S, where rows and columns of Q come and go.

ghost use Rattle.std.specs.Prelude.{◌≡◌, ◌≢◌, ℕ, ◌+◌, ◌%◌, ◌<◌, ◌≤◌, cond, eqb, length, map, max, slice_index, OnOk};
ghost use Rattle.std.specs.Prelude.{OnErr};
ghost use Rattle.limits.specs.Limits.{column_limit};
ghost use Rattle.sparse_q.specs.Tables.{number_in, sparse_rows};
ghost use Rattle.row_table.specs.Places.{last_at};
ghost use Rattle.row_table.specs.RowTables.{p_part, s_part};
ghost use Rattle.row_table.specs.TableEdits.{HasRoomOf, IsTableWithColumn, IsTableWithRow, IsTableWithoutColumn};
ghost use Rattle.row_table.specs.TableEdits.{IsTableWithoutRow, IsWidenedTable, basic_of};

use crate::joins::{join_q, join_table};
use crate::table::RowTable;
use out_of_memory::NoMemory;
use residue_field::Field;

impl<F: Field> RowTable<F> {
    /// Takes room for at least so many rows and columns. A refusal leaves the table and its room as they were.
    pub fn room(&mut self, rows: usize, columns: usize) -> Result<(), NoMemory>
        requires rows { rows ≤ column_limit }
        requires columns { columns ≤ column_limit }
        ensures same { IsWidenedTable F.modulus self.old self.new }
        ensures row_room { OnOk result (self.new.row_room ≡ max self.old.row_room rows) }
        ensures column_room { OnOk result (self.new.column_room ≡ max self.old.column_room columns) }
        ensures err { OnErr result (HasRoomOf self.old self.new) }
    {
        let alloc = *self.space.allocator();
        self.q.room(rows, columns)?;
        self.places.room(rows, columns)?;
        self.space.reserve(rows.saturating_sub(self.space.len()))?;
        self.table.room(alloc, rows, columns)?;
        self.row_room = self.row_room.max(rows);
        self.column_room = self.column_room.max(columns);
        Ok(())
    }

    /// Puts a row into Q as row `at`. It takes no memory.
    pub fn insert_row(&mut self, at: usize, items: &[F])
        requires at { at ≤ sparse_rows self.old.q }
        requires items { length items.now ≡ self.old.q.width }
        requires rows { sparse_rows self.old.q < self.old.row_room }
        requires columns { self.old.q.width ≤ self.old.column_room }
        requires few { sparse_rows self.old.q < column_limit }
        ensures row { IsTableWithRow F.modulus self.old self.new at (λ j. slice_index (map F.number items.now) j) }
        ensures room { HasRoomOf self.old self.new }
    {
        self.places.is_layout();
        let column = self.columns() + at;
        join_table(&mut self.table, &self.places, items);
        self.places.push_row(column);
        join_q(&mut self.q, at, items);
        self.space.push_reserved(F::zero());
    }

    // Makes column `at` of S the unit column of a row, where its entry is not zero.
    fn clear(&mut self, row: usize, at: usize)
        requires row { row < sparse_rows self.old.q }
        requires at { at < sparse_rows self.old.q }
        requires entry { s_part F.modulus self.old row at % F.modulus ≢ 0 }
        ensures q { self.new.q ≡ self.old.q }
        ensures room { HasRoomOf self.old self.new }
        ensures basic { (i : ℕ) → i < sparse_rows self.old.q →
            basic_of self.new i ≡ cond (eqb i row) (self.old.q.width + at) (basic_of self.old i) }
        ensures columns_stay { (i j : ℕ) → i < sparse_rows self.old.q → j < self.old.q.width →
            p_part F.modulus self.old row j % F.modulus ≡ 0 →
            p_part F.modulus self.new i j % F.modulus ≡ p_part F.modulus self.old i j % F.modulus }
        ensures rows_stay { (i j : ℕ) → i < sparse_rows self.old.q → j < self.old.q.width → i ≢ row →
            s_part F.modulus self.old i at % F.modulus ≡ 0 →
            p_part F.modulus self.new i j % F.modulus ≡ p_part F.modulus self.old i j % F.modulus }
    {
        let column = self.columns() + at;
        if !self.places.is_unit(column) {
            self.exchange(row, column);
        }
    }

    // Takes row `at` out of Q, whose column of S is the unit column of a row of P, and that row.
    fn take_out(&mut self, at: usize, row: usize)
        requires at { at < sparse_rows self.old.q }
        requires row { row < sparse_rows self.old.q }
        requires basic { basic_of self.old row ≡ self.old.q.width + at }
        ensures row { IsTableWithoutRow F.modulus self.old self.new at row }
        ensures entries { (i j : ℕ) → i < sparse_rows self.new.q → j < self.old.q.width → p_part F.modulus self.new i j
            ≡ p_part F.modulus self.old (last_at row (sparse_rows self.new.q) i) j }
        ensures room { HasRoomOf self.old self.new }
    {
        self.places.is_layout();
        self.table.remove_row(row);
        self.places.remove_row(row);
        self.q.remove_row(at);
        let _ = self.space.pop();
    }

    /// Takes row `at` out of Q, and a row of P where its column of S has an entry that is not zero; the last row of P
    /// takes its place.
    pub fn remove_row(&mut self, at: usize, row: usize)
        requires at { at < sparse_rows self.old.q }
        requires row { row < sparse_rows self.old.q }
        requires entry { s_part F.modulus self.old row at % F.modulus ≢ 0 }
        ensures row { IsTableWithoutRow F.modulus self.old self.new at row }
        ensures room { HasRoomOf self.old self.new }
    {
        self.clear(row, at);
        self.take_out(at, row);
    }

    /// Puts a column of zeros into Q as column `at`. It takes no memory.
    pub fn insert_column(&mut self, at: usize)
        requires at { at ≤ self.old.q.width }
        requires rows { sparse_rows self.old.q ≤ self.old.row_room }
        requires columns { self.old.q.width < self.old.column_room }
        requires few { self.old.q.width < column_limit }
        ensures column { IsTableWithColumn F.modulus self.old self.new at }
        ensures room { HasRoomOf self.old self.new }
    {
        self.places.is_layout();
        self.table.push_column();
        self.places.push_column(at);
        self.q.insert_column(at);
    }

    /// Takes column `at` out of Q, which has no entry in it.
    pub fn remove_column(&mut self, at: usize)
        requires at { at < self.old.q.width }
        requires empty { (i : ℕ) → i < sparse_rows self.old.q → number_in self.old.q i at % F.modulus ≡ 0 }
        ensures column { IsTableWithoutColumn F.modulus self.old self.new at }
        ensures room { HasRoomOf self.old self.new }
    {
        self.places.is_layout();
        let slot = self.places.slot(at);
        self.table.remove_column(slot);
        self.places.remove_column(at);
        self.q.remove_column(at);
    }
}
