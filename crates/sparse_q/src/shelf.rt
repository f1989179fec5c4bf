//! Rows of a sparse matrix, all at once.

ghost use Rattle.std.specs.Prelude.{◌≡◌, ℕ, ◌+◌, ◌<◌, ◌≤◌, map, vec_len, vec_capacity, OnOk};
ghost use Rattle.std.specs.List.{All};
ghost use Rattle.limits.specs.Limits.{column_limit};
ghost use Rattle.sparse_q.specs.Rows.{AreRowsChanged, IsRowCut, IsRowWidened, row_raised};

use crate::row::SparseRow;
use out_of_memory::NoMemory;
use residue_field::Field;
use std::alloc::Global;

// Takes room for at least so many columns in each row.
pub(crate) fn widen<F: Field>(rows: &mut [SparseRow<F>], columns: usize) -> Result<(), NoMemory>
    ensures same { AreRowsChanged IsRowWidened rows.old rows.new }
    ensures wide { OnOk result (All (λ row. columns ≤ row.room) rows.new) }
{
    for row in rows.iter_mut() {
        row.widen(columns)?;
    }
    Ok(())
}

// Adds so many empty rows with room for so many columns.
pub(crate) fn add_rows<F: Field>(
    alloc: Global,
    shelf: &mut Vec<SparseRow<F>>,
    missing: usize,
    columns: usize,
) -> Result<(), NoMemory>
    requires few { columns ≤ column_limit }
    ensures capacity { vec_capacity shelf.old ≤ vec_capacity shelf.new }
    ensures kept { (w : ℕ) → w ≤ columns → All (λ row. w ≤ row.room) shelf.old.items →
        All (λ row. w ≤ row.room) shelf.new.items }
    ensures more { vec_len shelf.old ≤ vec_len shelf.new }
    ensures enough { OnOk result (vec_len shelf.old + missing ≡ vec_len shelf.new) }
{
    for _row in 0..missing {
        shelf.push(SparseRow::empty(alloc, columns)?)?;
    }
    Ok(())
}

// Puts a column in, at which no row has an entry.
pub(crate) fn insert_column<F: Field>(rows: &mut [SparseRow<F>], at: usize)
    requires room { All (λ row. row.width < row.room) rows.old }
    requires few { All (λ row. row.width < column_limit) rows.old }
    ensures { rows.new ≡ map (row_raised at) rows.old }
{
    for row in rows.iter_mut() {
        row.insert_column(at);
    }
}

// Takes a column out of each row.
pub(crate) fn remove_column<F: Field>(rows: &mut [SparseRow<F>], at: usize)
    requires { All (λ row. at < row.width) rows.old }
    ensures { AreRowsChanged (IsRowCut at) rows.old rows.new }
{
    for row in rows.iter_mut() {
        row.remove_column(at);
    }
}
