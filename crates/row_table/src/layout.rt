//! Where the columns of [Q | 1] stand in one table.

ghost use Rattle.std.specs.Prelude.{◌≡◌, ◌≢◌, ℕ, ◌+◌, ◌-◌, ◌<◌, ◌≤◌, Bool, true, false, not, ltb, length, slice_index};
ghost use Rattle.std.specs.Prelude.{slice_index_or, IfOk, IfSome, IfNone, IsTrue, ◌↔◌};
ghost use Rattle.limits.specs.Limits.{column_limit};
ghost use Rattle.row_table.specs.Places.{Places, exchanged};
ghost use Rattle.row_table.specs.Layouts.{Layout, rows_of_layout, all, layout_places, moved, IsFirst, IsLayout};

use out_of_memory::NoMemory;
use std::alloc::{AllocError, Global};
use std::marker::Model;

/// Where the columns of a matrix, and after them a unit column for each of its rows, stand after exchanges: each is a
/// unit column now, or has a slot in a table that is as wide as the matrix. There are at most 8,192 rows and columns.
#[derive(Drop)]
pub struct Placement {
    pub(crate) columns: usize,
    pub(crate) basic: Vec<usize>,
    pub(crate) units: Vec<bool>,
    pub(crate) rows: Vec<usize>,
    pub(crate) slots: Vec<usize>,
    pub(crate) row_room: usize,
    pub(crate) column_room: usize,
}

impl Model for Placement {
    ghost use Rattle.std.specs.Prelude.{vec_capacity};
    ghost use Rattle.row_table.specs.Layouts.{Layout, HasListRoom, IsLayout};

    ghost Value = { Layout };

    ghost view = { λ t. record {
      columns = t.columns;
      basic = t.basic.items;
      units = t.units.items;
      unit_rows = t.rows.items;
      slots = t.slots.items;
      row_room = t.row_room;
      column_room = t.column_room;
    } };

    ghost invariant = { λ t. IsLayout (record {
      columns = t.columns;
      basic = t.basic.items;
      units = t.units.items;
      unit_rows = t.rows.items;
      slots = t.slots.items;
      row_room = t.row_room;
      column_room = t.column_room;
    }) × HasListRoom (record {
      columns = t.columns;
      basic = t.basic.items;
      units = t.units.items;
      unit_rows = t.rows.items;
      slots = t.slots.items;
      row_room = t.row_room;
      column_room = t.column_room;
    }) (vec_capacity t.basic) (vec_capacity t.units) (vec_capacity t.rows) (vec_capacity t.slots) };
}

impl Placement {
    /// The places before any exchange.
    pub fn first(alloc: Global, rows: usize, columns: usize) -> Result<Placement, NoMemory>
        requires rows { rows ≤ column_limit }
        requires columns { columns ≤ column_limit }
        ensures rows { IfOk result (λ t. rows_of_layout t ≡ rows) }
        ensures columns { IfOk result (λ t. t.columns ≡ columns) }
        ensures first { IfOk result (λ t. IsFirst rows columns (layout_places t)) }
    {
        let all = columns + rows;
        Ok(Placement {
            columns,
            basic: numbers(alloc, columns, rows)?,
            units: units(alloc, columns, all)?,
            rows: offsets(alloc, columns, all)?,
            slots: numbers(alloc, 0, all)?,
            row_room: 0,
            column_room: 0,
        })
    }

    /// Tells a proof what the lists keep. It does nothing when it runs.
    pub fn is_layout(&self)
        ensures { IsLayout self.now }
    {
        // a proof knows what the type keeps once a field is read
        let _ = &self.basic;
    }

    /// The column that is the unit column of a row.
    pub fn basic(&self, row: usize) -> usize
        requires { row < rows_of_layout self.now }
        ensures basic { result ≡ (layout_places self.now).basic row }
        ensures below { result < all self.now }
    {
        self.basic[row]
    }

    /// Whether a column is a unit column.
    pub fn is_unit(&self, column: usize) -> bool
        requires { column < all self.now }
        ensures { result ≡ (layout_places self.now).is_unit column }
    {
        self.units[column]
    }

    /// The row of a unit column.
    pub fn row(&self, column: usize) -> usize
        requires column { column < all self.now }
        requires unit { (layout_places self.now).is_unit column ≡ true }
        ensures row { result ≡ (layout_places self.now).row column }
        ensures below { result < rows_of_layout self.now }
    {
        self.rows[column]
    }

    /// The slot of a column that is no unit column.
    pub fn slot(&self, column: usize) -> usize
        requires column { column < all self.now }
        requires other { (layout_places self.now).is_unit column ≡ false }
        ensures slot { result ≡ (layout_places self.now).slot column }
        ensures below { result < self.now.columns }
    {
        self.slots[column]
    }

    /// Makes a column the unit column of a row; the one that was it takes its slot.
    pub fn exchange(&mut self, row: usize, column: usize)
        requires row { row < rows_of_layout self.old }
        requires column { column < all self.old }
        requires other { (layout_places self.old).is_unit column ≡ false }
        ensures moved { self.new ≡ moved self.old row column }
        ensures exchanged { layout_places self.new ≡ exchanged (layout_places self.old) row column }
        ensures rows { rows_of_layout self.new ≡ rows_of_layout self.old }
        ensures columns { self.new.columns ≡ self.old.columns }
    {
        let gone = self.basic[row];
        self.slots[gone] = self.slots[column];
        self.units[gone] = false;
        self.units[column] = true;
        self.rows[column] = row;
        self.basic[row] = column;
    }
}

// The numbers from `start` on.
fn numbers(alloc: Global, start: usize, count: usize) -> Result<Vec<usize>, AllocError>
    requires start { start ≤ column_limit }
    requires count { count ≤ column_limit + column_limit }
    ensures length { IfOk result (λ v. length v.items ≡ count) }
    ensures items { IfOk result (λ v. (i : ℕ) → i < count → slice_index v.items i ≡ start + i) }
{
    let mut all = Vec::with_capacity(alloc, count)?;
    for i in 0..count {
        all.push(start + i)?;
    }
    Ok(all)
}

// How far each number is beyond `start`.
fn offsets(alloc: Global, start: usize, count: usize) -> Result<Vec<usize>, AllocError>
    ensures length { IfOk result (λ v. length v.items ≡ count) }
    ensures items { IfOk result (λ v. (i : ℕ) → i < count → slice_index v.items i ≡ i - start) }
{
    let mut all = Vec::with_capacity(alloc, count)?;
    for i in 0..count {
        all.push(i.saturating_sub(start))?;
    }
    Ok(all)
}

// Whether each number is beyond `start`.
fn units(alloc: Global, start: usize, count: usize) -> Result<Vec<bool>, AllocError>
    ensures length { IfOk result (λ v. length v.items ≡ count) }
    ensures items { IfOk result (λ v. (i : ℕ) → i < count → slice_index_or v.items i false ≡ not (ltb i start)) }
{
    let mut all = Vec::with_capacity(alloc, count)?;
    for i in 0..count {
        all.push(i >= start)?;
    }
    Ok(all)
}
