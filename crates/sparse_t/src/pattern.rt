//! Patterns: which places of some rows and columns hold a symbol.

ghost use Rattle.std.specs.Prelude.{◌≡◌, ◌<◌, ℕ, OnOk, OnErr, [], length, map};
ghost use Rattle.std.specs.List.Sorted.{IsStrictlyIncreasing};
ghost use Rattle.limits.specs.Limits.{column_limit};
ghost use Rattle.sparse_t.specs.Lists.{AreAllBelow};
ghost use Rattle.sparse_t.specs.Incidences.{Incidence, IsIncidence, incidence_rows, columns_at, touches, incidence_with_row};

use crate::lists::{Numbers, holds};
use out_of_memory::NoMemory;
use std::alloc::Global;
use std::marker::Model;

/// The symbol places of some rows over some columns, at most 8,192 rows. Rows and columns are counted from 0. It keeps the
/// columns of each row.
#[derive(Drop)]
pub struct Pattern {
    width: usize,
    rows: Vec<Numbers>,
}

impl Model for Pattern {
    ghost use Rattle.std.specs.Prelude.{map};
    ghost use Rattle.sparse_t.specs.Incidences.{Incidence, IsIncidence};

    ghost Value = { Incidence };

    ghost view = { λ p. record { width = p.width; rows = map (λ row. row.items) p.rows.items } };

    ghost invariant = { λ p. IsIncidence (record { width = p.width; rows = map (λ row. row.items) p.rows.items }) };
}

impl Pattern {
    /// No row, over so many columns.
    pub fn empty(alloc: Global, cols: usize) -> Pattern
        ensures { result ≡ record { width = cols; rows = [] } }
    {
        Pattern {
            width: cols,
            rows: Vec::new(alloc),
        }
    }

    /// Puts a row below the last one: the columns that it touches, rising.
    pub fn push_row(&mut self, columns: &[u32]) -> Result<(), NoMemory>
        requires rising { IsStrictlyIncreasing columns.now }
        requires below { AreAllBelow self.old.width columns.now }
        requires room { incidence_rows self.old < column_limit }
        ensures ok { OnOk result (self.new ≡ incidence_with_row self.old columns.now) }
        ensures err { OnErr result (self.new ≡ self.old) }
    {
        let row = Numbers::from_slice(*self.rows.allocator(), columns)?;
        self.rows.push(row)?;
        Ok(())
    }

    /// Tells a proof what a pattern keeps. It does nothing when it runs.
    pub fn is_pattern(&self)
        ensures { IsIncidence self.now }
    {
        // a proof knows what the type keeps once a field is read
        let _ = &self.rows;
    }

    /// How many rows there are.
    pub fn rows(&self) -> usize
        ensures rows { result ≡ incidence_rows self.now }
        ensures incidence { IsIncidence self.now }
    {
        self.rows.len()
    }

    /// How many columns there are.
    pub fn cols(&self) -> usize
        ensures cols { result ≡ self.now.width }
        ensures incidence { IsIncidence self.now }
    {
        self.width
    }

    /// Whether the row touches the column.
    pub fn touches(&self, row: usize, col: usize) -> bool
        requires { row < incidence_rows self.now }
        ensures { result ≡ touches self.now row col }
    {
        holds(self.rows[row].as_slice(), col)
    }

    /// The columns that row i touches, rising.
    pub fn row(&self, i: usize) -> &[u32]
        requires { i < incidence_rows self.now }
        ensures columns { result.now ≡ columns_at self.now i }
        ensures rising { IsStrictlyIncreasing result.now }
        ensures below { AreAllBelow self.now.width result.now }
    {
        self.rows[i].as_slice()
    }
}
