//! Patterns that gain and lose rows and columns.

ghost use Rattle.std.specs.Prelude.{◌≡◌, ◌≤◌, ◌<◌, ℕ, false, IfOk, OnOk, OnErr};
ghost use Rattle.std.specs.List.Sorted.{IsStrictlyIncreasing};
ghost use Rattle.limits.specs.Limits.{column_limit};
ghost use Rattle.sparse_t.specs.Lists.{AreAllBelow};
ghost use Rattle.sparse_t.specs.Incidences.{Incidence, IsIncidence, AreRowsAt, incidence_rows, columns_at, touches};
ghost use Rattle.sparse_t.specs.Edits.{row_inserted, row_removed, column_inserted, column_removed, with_pattern_room, RoomyIncidence};

use crate::indexed::Indexed;
use crate::lists::holds;
use crate::pattern::Pattern;
use crate::shelf::Shelf;
use out_of_memory::NoMemory;
use std::alloc::Global;
use std::marker::Model;

/// A pattern that gains and loses rows and columns, in room that is taken before. Rows and columns are counted from 0. It keeps
/// the columns of each row and the rows of each column.
#[derive(Drop)]
pub struct RoomyPattern {
    rows: Shelf,
    columns: Shelf,
    row_room: usize,
    column_room: usize,
}

impl Model for RoomyPattern {
    ghost use Rattle.std.specs.Prelude.{length};
    ghost use Rattle.sparse_t.specs.Edits.{RoomyIncidence, IsRoomy};

    ghost Value = { RoomyIncidence };

    ghost view = { λ p. record {
      pattern = record { width = length p.columns.lists; rows = p.rows.lists };
      row_room = p.row_room;
      column_room = p.column_room;
    } };

    ghost invariant = { λ p. IsRoomy p.rows p.columns p.row_room p.column_room };
}

impl RoomyPattern {
    /// A copy of a pattern, with no room for more.
    pub fn of(alloc: Global, pattern: &Pattern) -> Result<RoomyPattern, NoMemory>
        ensures { IfOk result (λ p. p ≡ record { pattern = pattern.now; row_room = 0; column_room = 0 }) }
    {
        let (rows, columns) = Indexed::of(alloc, pattern)?.into_lists();
        Ok(RoomyPattern {
            rows: Shelf::of(rows),
            columns: Shelf::of(columns),
            row_room: 0,
            column_room: 0,
        })
    }

    /// Tells a proof what a pattern keeps. It does nothing when it runs.
    pub fn is_pattern(&self)
        ensures { IsIncidence self.now.pattern }
    {
        // a proof knows what the type keeps once a field is read
        let _ = &self.rows;
    }

    /// How many rows there are.
    pub fn rows(&self) -> usize
        ensures rows { result ≡ incidence_rows self.now.pattern }
        ensures incidence { IsIncidence self.now.pattern }
    {
        self.rows.len()
    }

    /// How many columns there are.
    pub fn cols(&self) -> usize
        ensures cols { result ≡ self.now.pattern.width }
        ensures incidence { IsIncidence self.now.pattern }
    {
        self.columns.len()
    }

    /// Whether the row touches the column. It searches in the shorter of their two lists.
    pub fn touches(&self, row: usize, col: usize) -> bool
        requires row { row < incidence_rows self.now.pattern }
        requires col { col < self.now.pattern.width }
        ensures { result ≡ touches self.now.pattern row col }
    {
        let columns = self.rows.list(row);
        let rows = self.columns.list(col);
        if columns.len() <= rows.len() {
            holds(columns, col)
        } else {
            holds(rows, row)
        }
    }

    /// The columns that row i touches, rising.
    pub fn row(&self, i: usize) -> &[u32]
        requires { i < incidence_rows self.now.pattern }
        ensures columns { result.now ≡ columns_at self.now.pattern i }
        ensures rising { IsStrictlyIncreasing result.now }
        ensures below { AreAllBelow self.now.pattern.width result.now }
    {
        self.rows.list(i)
    }

    /// The rows that touch the column, rising.
    pub fn rows_of(&self, col: usize) -> &[u32]
        requires { col < self.now.pattern.width }
        ensures { AreRowsAt self.now.pattern col result.now }
    {
        self.columns.list(col)
    }

    /// Takes room for at least so many rows and columns.
    pub fn room(&mut self, rows: usize, cols: usize) -> Result<(), NoMemory>
        ensures ok { OnOk result (self.new ≡ with_pattern_room self.old rows cols) }
        ensures err { OnErr result (self.new ≡ self.old) }
    {
        let rows = rows.max(self.row_room);
        let cols = cols.max(self.column_room);
        self.rows.room(rows, cols)?;
        self.columns.room(cols, rows)?;
        self.row_room = rows;
        self.column_room = cols;
        Ok(())
    }

    /// Puts a row in as row `at`: the columns that it touches, rising. It takes no memory.
    pub fn insert_row(&mut self, at: usize, columns: &[u32])
        requires at { at ≤ incidence_rows self.old.pattern }
        requires rising { IsStrictlyIncreasing columns.now }
        requires below { AreAllBelow self.old.pattern.width columns.now }
        requires few { incidence_rows self.old.pattern < column_limit }
        requires rows { incidence_rows self.old.pattern < self.old.row_room }
        requires cols { self.old.pattern.width ≤ self.old.column_room }
        ensures { self.new ≡ record self.old { pattern = row_inserted self.old.pattern at columns.now } }
    {
        self.columns.raise(at);
        self.columns.enter(columns, at as u32);
        self.rows.put(at, columns);
    }

    /// Takes row `at` out.
    pub fn remove_row(&mut self, at: usize)
        requires { at < incidence_rows self.old.pattern }
        ensures { self.new ≡ record self.old { pattern = row_removed self.old.pattern at } }
    {
        self.columns.leave(self.rows.list(at), at as u32);
        self.columns.lower(at);
        self.rows.take(at);
    }

    /// Puts a column that no row touches in as column `at`. It takes no memory.
    pub fn insert_column(&mut self, at: usize)
        requires at { at ≤ self.old.pattern.width }
        requires few { self.old.pattern.width < column_limit }
        requires rows { incidence_rows self.old.pattern ≤ self.old.row_room }
        requires cols { self.old.pattern.width < self.old.column_room }
        ensures { self.new ≡ record self.old { pattern = column_inserted self.old.pattern at } }
    {
        self.rows.raise(at);
        self.columns.put(at, &[]);
    }

    /// Takes column `at`, which no row touches, out.
    pub fn remove_column(&mut self, at: usize)
        requires at { at < self.old.pattern.width }
        requires bare { (i : ℕ) → i < incidence_rows self.old.pattern → touches self.old.pattern i at ≡ false }
        ensures { self.new ≡ record self.old { pattern = column_removed self.old.pattern at } }
    {
        self.rows.lower(at);
        self.columns.take(at);
    }
}
