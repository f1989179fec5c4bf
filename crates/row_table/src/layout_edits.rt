//! The places of columns, where rows and columns come and go.

ghost use Rattle.std.specs.Prelude.{◌≡◌, ℕ, ◌+◌, ◌-◌, ◌<◌, ◌≤◌, false, OnOk, OnErr};
ghost use Rattle.limits.specs.Limits.{column_limit};
ghost use Rattle.row_table.specs.Layouts.{all, layout_places, layout_with_column, layout_with_row};
ghost use Rattle.row_table.specs.Layouts.{layout_without_column, layout_without_row, rows_of_layout, with_list_room};

use crate::layout::Placement;
use crate::lists::{lower, put_in, raise, replace};
use out_of_memory::NoMemory;

impl Placement {
    /// Takes room for at least so many rows and columns. A refusal leaves the places and their room as they were.
    pub fn room(&mut self, rows: usize, columns: usize) -> Result<(), NoMemory>
        requires rows { rows ≤ column_limit }
        requires columns { columns ≤ column_limit }
        ensures ok { OnOk result (self.new ≡ with_list_room self.old rows columns) }
        ensures err { OnErr result (self.new ≡ self.old) }
    {
        let rows = rows.max(self.row_room);
        let columns = columns.max(self.column_room);
        let all = rows + columns;
        self.basic.reserve(rows.saturating_sub(self.basic.len()))?;
        self.units.reserve(all.saturating_sub(self.units.len()))?;
        self.rows.reserve(all.saturating_sub(self.rows.len()))?;
        self.slots.reserve(all.saturating_sub(self.slots.len()))?;
        self.row_room = rows;
        self.column_room = columns;
        Ok(())
    }

    /// Puts a row after the last one, and column v as its unit column.
    pub fn push_row(&mut self, v: usize)
        requires column { v ≤ all self.old }
        requires rows { rows_of_layout self.old < self.old.row_room }
        requires columns { self.old.columns ≤ self.old.column_room }
        requires few { rows_of_layout self.old < column_limit }
        ensures { self.new ≡ layout_with_row self.old v }
    {
        let row = self.basic.len();
        raise(&mut self.basic, v);
        self.basic.push_reserved(v);
        put_in(&mut self.units, v, true);
        put_in(&mut self.rows, v, row);
        put_in(&mut self.slots, v, 0);
    }

    /// Takes row k out, and its unit column; the last row takes the place of k.
    pub fn remove_row(&mut self, k: usize)
        requires { k < rows_of_layout self.old }
        ensures { self.new ≡ layout_without_row self.old k }
    {
        let last = self.basic[self.basic.len() - 1];
        let v = self.basic.swap_remove(k);
        lower(&mut self.basic, v);
        self.units.remove(v);
        self.rows[last] = k;
        self.rows.remove(v);
        self.slots.remove(v);
    }

    /// Puts column v in, in a slot after the last one.
    pub fn push_column(&mut self, v: usize)
        requires column { v ≤ all self.old }
        requires rows { rows_of_layout self.old ≤ self.old.row_room }
        requires columns { self.old.columns < self.old.column_room }
        requires few { self.old.columns < column_limit }
        ensures { self.new ≡ layout_with_column self.old v }
    {
        raise(&mut self.basic, v);
        put_in(&mut self.units, v, false);
        put_in(&mut self.rows, v, 0);
        put_in(&mut self.slots, v, self.columns);
        self.columns += 1;
    }

    /// Takes column v out, which is no unit column; the column in the last slot takes its slot.
    pub fn remove_column(&mut self, v: usize)
        requires column { v < all self.old }
        requires other { (layout_places self.old).is_unit v ≡ false }
        ensures { self.new ≡ layout_without_column self.old v }
    {
        self.columns -= 1;
        lower(&mut self.basic, v);
        self.units.remove(v);
        self.rows.remove(v);
        let slot = self.slots.remove(v);
        replace(&mut self.slots, self.columns, slot);
    }
}
