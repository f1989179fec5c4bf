//! The base of a tableau.

ghost use Rattle.std.specs.Prelude.{◌≡◌, ◌≢◌, ℕ, ◌+◌, ◌<◌, ◌≤◌, Bool, true, false, length, replicate, slice_index_or, IfOk, IfSome, IfNone};
ghost use Rattle.std.specs.Prelude.{Some, None, OnOk, OnErr};
ghost use Rattle.linear_algebra.specs.Bases.{IsBaseTaken};
ghost use Rattle.row_transform.specs.Bases.{BaseLists, is_base, raised, base_row, unlinked, linked, IsBaseDropped, IsRowOutOfBase};
ghost use Rattle.row_transform.specs.Bases.{HasSameCounts, with_base_room, IsBaseMoved, IsBaseRowIn, IsBaseRowOut, IsBaseColumnIn, IsBaseColumnOut};

use number_pairs::NumberPairs;
use out_of_memory::NoMemory;
use std::alloc::Global;
use std::marker::Model;

/// Which column is the base column of which row: a row has at most one, and a column at most one row. Rows and columns
/// are counted from 0. (Murota 2000, chapter 2: bases of the matroid of columns.) It counts the columns that it takes. Rows
/// and columns come and go in room that is taken before.
#[derive(Drop)]
pub struct Base {
    pairs: NumberPairs,
    takes: u64,
}

impl Model for Base {
    ghost use Rattle.row_transform.specs.Bases.{BaseLists};

    ghost Value = { BaseLists };

    ghost view = { λ b. record {
      columns = b.pairs.rights;
      rows = b.pairs.lefts;
      takes = b.takes;
      row_room = b.pairs.left_room;
      column_room = b.pairs.right_room;
    } };
}

impl Base {
    /// The base of so many rows and columns with no column in it.
    pub fn empty(alloc: Global, rows: usize, columns: usize) -> Result<Base, NoMemory>
        ensures { IfOk result (λ b. b ≡ record {
          columns = replicate rows None;
          rows = replicate columns None;
          takes = 0;
          row_room = 0;
          column_room = 0;
        }) }
    {
        let pairs = NumberPairs::open(alloc, rows, columns)?;
        Ok(Base { pairs, takes: 0 })
    }

    /// The base column of a row.
    pub fn column_of(&self, row: usize) -> Option<usize>
        requires { row < length self.now.columns }
        ensures none { IfNone result ((y : ℕ) → y < length self.now.rows → is_base self.now y ≡ true →
            base_row self.now y ≢ row) }
        ensures below { IfSome result (λ y. y < length self.now.rows) }
        ensures member { IfSome result (λ y. is_base self.now y ≡ true) }
        ensures at_row { IfSome result (λ y. base_row self.now y ≡ row) }
    {
        self.pairs.right_of(row)
    }

    /// The row whose base column a column is.
    pub fn row_of(&self, column: usize) -> Option<usize>
        requires { column < length self.now.rows }
        ensures none { IfNone result (is_base self.now column ≡ false) }
        ensures member { IfSome result (λ r. is_base self.now column ≡ true) }
        ensures at_row { IfSome result (λ r. base_row self.now column ≡ r) }
        ensures below { IfSome result (λ r. r < length self.now.columns) }
    {
        self.pairs.left_of(column)
    }

    /// Makes a column that is no base column the base column of a row; the one that it had leaves the base.
    pub fn take(&mut self, row: usize, column: usize)
        requires row { row < length self.old.columns }
        requires column { column < length self.old.rows }
        requires free { is_base self.old column ≡ false }
        ensures taken { IsBaseTaken (length self.old.rows) (is_base self.old) (base_row self.old) (is_base self.new)
            (base_row self.new) row column }
        ensures counted { self.new.takes ≡ raised self.old.takes 1 }
        ensures row_room { self.new.row_room ≡ self.old.row_room }
        ensures column_room { self.new.column_room ≡ self.old.column_room }
        ensures rows { length self.new.columns ≡ length self.old.columns }
        ensures columns { length self.new.rows ≡ length self.old.rows }
    {
        self.clear(row);
        self.link(row, column);
    }

    /// Takes a column out of the base.
    pub fn leave(&mut self, column: usize)
        requires column { column < length self.old.rows }
        ensures dropped { IsBaseDropped (length self.old.rows) (is_base self.old) (base_row self.old) (is_base self.new)
            (base_row self.new) column }
        ensures takes { self.new.takes ≡ self.old.takes }
        ensures row_room { self.new.row_room ≡ self.old.row_room }
        ensures column_room { self.new.column_room ≡ self.old.column_room }
        ensures rows { length self.new.columns ≡ length self.old.columns }
        ensures columns { length self.new.rows ≡ length self.old.rows }
    {
        if let Some(row) = self.pairs.left_of(column) {
            self.unlink(row, column);
        }
    }

    /// Takes the base column of a row out of the base, and gives it, if there is one.
    pub fn free_row(&mut self, row: usize) -> Option<usize>
        requires row { row < length self.old.columns }
        ensures bare { (y : ℕ) → y < length self.old.rows → is_base self.new y ≡ true → base_row self.new y ≢ row }
        ensures none { IfNone result (self.new ≡ self.old) }
        ensures below { IfSome result (λ y. y < length self.old.rows) }
        ensures member { IfSome result (λ y. is_base self.old y ≡ true) }
        ensures at_row { IfSome result (λ y. base_row self.old y ≡ row) }
        ensures dropped { IfSome result (λ y. IsBaseDropped (length self.old.rows) (is_base self.old)
            (base_row self.old) (is_base self.new) (base_row self.new) y) }
        ensures counts { HasSameCounts self.old self.new }
        ensures rows { length self.new.columns ≡ length self.old.columns }
        ensures columns { length self.new.rows ≡ length self.old.rows }
    {
        self.pairs.are_one_to_one();
        let column = self.column_of(row)?;
        self.leave(column);
        Some(column)
    }

    /// How many columns were taken since the base was empty. At the greatest `u64` it stays.
    pub fn takes(&self) -> u64
        ensures { result ≡ self.now.takes }
    {
        self.takes
    }

    /// Takes room for at least so many rows and columns. A refusal leaves the base and its room as they were.
    pub fn room(&mut self, rows: usize, cols: usize) -> Result<(), NoMemory>
        ensures ok { OnOk result (self.new ≡ with_base_room self.old rows cols) }
        ensures err { OnErr result (self.new ≡ self.old) }
    {
        self.pairs.room(rows, cols)
    }

    /// Makes the rows from `at` on greater by one, so that `at` is a new one, without a base column. It takes no memory.
    pub fn insert_row(&mut self, at: usize)
        requires at { at ≤ length self.old.columns }
        requires room { length self.old.columns < self.old.row_room }
        ensures { IsBaseRowIn self.old self.new at }
    {
        self.pairs.insert_left(at);
    }

    /// Takes out row `at`, which has no base column. The last row, `last`, takes its number.
    pub fn swap_remove_row(&mut self, at: usize, last: usize)
        requires at { at < length self.old.columns }
        requires last { last + 1 ≡ length self.old.columns }
        requires bare { (y : ℕ) → y < length self.old.rows → is_base self.old y ≡ true → base_row self.old y ≢ at }
        ensures { IsBaseRowOut self.old self.new at }
    {
        self.move_base(last, at);
        self.pairs.are_one_to_one();
        self.pairs.remove_left(last);
    }

    /// Puts a column in, so that it is column `at`, which is no base column. It takes no memory.
    pub fn insert_column(&mut self, at: usize)
        requires at { at ≤ length self.old.rows }
        requires room { length self.old.rows < self.old.column_room }
        ensures { IsBaseColumnIn self.old self.new at }
    {
        self.pairs.insert_right(at);
    }

    /// Takes out column `at`, which is no base column.
    pub fn remove_column(&mut self, at: usize)
        requires at { at < length self.old.rows }
        requires free { is_base self.old at ≡ false }
        ensures { IsBaseColumnOut self.old self.new at }
    {
        self.pairs.remove_right(at);
    }

    // Takes the base column of a row out of the base, if there is one.
    fn clear(&mut self, row: usize)
        requires row { row < length self.old.columns }
        ensures cleared { IsRowOutOfBase (length self.old.rows) (is_base self.old) (base_row self.old)
            (is_base self.new)
            (base_row self.new) row }
        ensures takes { self.new.takes ≡ self.old.takes }
        ensures row_room { self.new.row_room ≡ self.old.row_room }
        ensures column_room { self.new.column_room ≡ self.old.column_room }
        ensures bare { slice_index_or self.new.columns row None ≡ None }
        ensures rows { length self.new.columns ≡ length self.old.columns }
        ensures columns { length self.new.rows ≡ length self.old.rows }
    {
        self.pairs.are_one_to_one();
        if let Some(column) = self.pairs.right_of(row) {
            self.unlink(row, column);
        }
    }

    // Makes the base column of a row, if it has one, that of another row, which has none.
    fn move_base(&mut self, from: usize, to: usize)
        requires from { from < length self.old.columns }
        requires to { to < length self.old.columns }
        requires bare { (y : ℕ) → y < length self.old.rows → is_base self.old y ≡ true → base_row self.old y ≢ to }
        ensures moved { IsBaseMoved self.old self.new from to }
    {
        self.pairs.are_one_to_one();
        if let Some(column) = self.pairs.right_of(from) {
            self.pairs.unlink(from, column);
            self.pairs.link(to, column);
        }
    }

    fn unlink(&mut self, row: usize, column: usize)
        requires { slice_index_or self.old.columns row None ≡ Some column }
        ensures { self.new ≡ unlinked self.old row column }
    {
        self.pairs.unlink(row, column);
    }

    fn link(&mut self, row: usize, column: usize)
        requires row { row < length self.old.columns }
        requires column { column < length self.old.rows }
        requires bare { slice_index_or self.old.columns row None ≡ None }
        requires free { is_base self.old column ≡ false }
        ensures { self.new ≡ linked self.old row column }
    {
        self.pairs.link(row, column);
        self.takes = self.takes.saturating_add(1);
    }
}
