//! The rows of a pattern, with the rows of each of its columns beside them.

ghost use Rattle.std.specs.Prelude.{◌≡◌, ◌<◌, ℕ, IfOk, OnOk, OnErr, [], length, map};
ghost use Rattle.std.specs.List.Sorted.{IsStrictlyIncreasing};
ghost use Rattle.limits.specs.Limits.{column_limit};
ghost use Rattle.sparse_t.specs.Lists.{AreAllBelow};
ghost use Rattle.sparse_t.specs.Incidences.{incidence_rows, incidence_with_row};
ghost use Rattle.sparse_t.specs.Columns.{AreIndexed};

use crate::columns::Columns;
use crate::lists::Numbers;
use crate::pattern::Pattern;
use out_of_memory::NoMemory;
use std::alloc::Global;
use std::marker::Model;

// The columns of each row, and the rows of each column.
#[derive(Drop)]
pub struct Indexed {
    rows: Vec<Numbers>,
    columns: Columns,
}

impl Model for Indexed {
    ghost use Rattle.std.specs.Prelude.{map, length};
    ghost use Rattle.sparse_t.specs.Incidences.{Incidence};
    ghost use Rattle.sparse_t.specs.Columns.{AreIndexed};

    ghost Value = { Incidence };

    ghost view = { λ p. record { width = length p.columns.lists.items; rows = map (λ row. row.items) p.rows.items } };

    ghost invariant = { λ p. AreIndexed p.rows.items p.columns.lists.items };
}

impl Indexed {
    /// The lists of a pattern.
    pub fn of(alloc: Global, pattern: &Pattern) -> Result<Indexed, NoMemory>
        ensures { IfOk result (λ p. p ≡ pattern.now) }
    {
        let mut indexed = Indexed::empty(alloc, pattern.cols())?;
        for i in 0..pattern.rows() {
            indexed.push_row(pattern.row(i))?;
        }
        Ok(indexed)
    }

    // No row, over so many columns.
    fn empty(alloc: Global, cols: usize) -> Result<Indexed, NoMemory>
        ensures { IfOk result (λ p. p ≡ record { width = cols; rows = [] }) }
    {
        Ok(Indexed {
            rows: Vec::new(alloc),
            columns: Columns::open(alloc, cols)?,
        })
    }

    // Puts a row below the last one: the columns that it touches, rising.
    fn push_row(&mut self, columns: &[u32]) -> Result<(), NoMemory>
        requires rising { IsStrictlyIncreasing columns.now }
        requires below { AreAllBelow self.old.width columns.now }
        requires room { incidence_rows self.old < column_limit }
        ensures ok { OnOk result (self.new ≡ incidence_with_row self.old columns.now) }
        ensures err { OnErr result (self.new ≡ self.old) }
    {
        let row = Numbers::from_slice(*self.rows.allocator(), columns)?;
        self.rows.reserve(1)?;
        self.columns.enter(columns, self.rows.len() as u32)?;
        self.rows.push(row)?;
        Ok(())
    }

    /// Its rows, and the rows of each column.
    pub fn into_lists(self) -> (Vec<Numbers>, Vec<Numbers>)
        ensures indexed { AreIndexed result.0.items result.1.items }
        ensures pattern { self ≡ record {
          width = length result.1.items;
          rows = map (λ row. row.items) result.0.items;
        } }
    {
        let Indexed { rows, columns } = self;
        let Columns { lists } = columns;
        (rows, lists)
    }
}
