//! The rows of each column of a pattern.

ghost use Rattle.std.specs.Prelude.{◌≡◌, ◌≤◌, ℕ, ◌<◌, length, vec_len, IfOk, OnOk, OnErr, []};
ghost use Rattle.std.specs.List.Sorted.{IsStrictlyIncreasing};
ghost use Rattle.sparse_t.specs.Lists.{AreAllBelow};
ghost use Rattle.sparse_t.specs.Columns.{list_items_at, HasRoom, HasSameItems, IsEntered};

use crate::lists::Numbers;
use std::alloc::{AllocError, Global};

// The rows of each column.
#[derive(Drop)]
pub struct Columns {
    pub lists: Vec<Numbers>,
}

impl Columns {
    /// So many columns that no row touches.
    pub fn open(alloc: Global, cols: usize) -> Result<Self, AllocError>
        ensures width { IfOk result (λ c. vec_len c.lists ≡ cols) }
        ensures empty { IfOk result (λ c. (j : ℕ) → j < cols → list_items_at c.lists.items j ≡ []) }
    {
        let mut lists = Vec::with_capacity(alloc, cols)?;
        for _column in 0..cols {
            lists.push(Numbers::new(alloc))?;
        }
        Ok(Columns { lists })
    }

    /// Puts a row number at the end of the lists of its columns, all of them or none.
    pub fn enter(&mut self, columns: &[u32], row: u32) -> Result<(), AllocError>
        requires rising { IsStrictlyIncreasing columns.now }
        requires below { AreAllBelow (vec_len self.old.lists) columns.now }
        ensures ok { OnOk result (IsEntered self.old.lists.items self.new.lists.items columns.now row) }
        ensures err { OnErr result (HasSameItems self.old.lists.items self.new.lists.items) }
    {
        self.make_room(columns)?;
        self.push(columns, row);
        Ok(())
    }

    // Makes room for one number more in the list of each of these columns.
    fn make_room(&mut self, columns: &[u32]) -> Result<(), AllocError>
        requires below { AreAllBelow (vec_len self.old.lists) columns.now }
        ensures same { HasSameItems self.old.lists.items self.new.lists.items }
        ensures room { OnOk result (HasRoom self.new.lists.items columns.now (length columns.now)) }
    {
        for column in columns {
            self.lists[*column as usize].reserve(1)?;
        }
        Ok(())
    }

    // Puts a row number at the end of the lists of these columns, which have room for it.
    fn push(&mut self, columns: &[u32], row: u32)
        requires rising { IsStrictlyIncreasing columns.now }
        requires below { AreAllBelow (vec_len self.old.lists) columns.now }
        requires room { HasRoom self.old.lists.items columns.now (length columns.now) }
        ensures { IsEntered self.old.lists.items self.new.lists.items columns.now row }
    {
        for column in columns {
            self.lists[*column as usize].push_reserved(row);
        }
    }
}
