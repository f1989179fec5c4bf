//! Tableaus to which rows come.

use dense_q::Mat;
use limits::COLUMN_LIMIT;
use residue_field::{Field, Res};
use row_entries::EntryMat;
use row_transform::{NoMemory, Tableau};
use std::alloc::Global;

// How many columns there are.
const COLUMNS: usize = 16;

/// A tableau of no row takes room for so many rows, and gains so many.
pub(crate) fn edited<T: Tableau<Res>>(
    alloc: Global,
    room: usize,
    rows: usize,
) -> Result<usize, NoMemory> {
    let q = EntryMat::of(alloc, &Mat::zeros(alloc, 0, COLUMNS)?)?;
    let mut tableau = T::open(alloc, &q)?;
    tableau.room(room.min(COLUMN_LIMIT), COLUMNS)?;
    let mut items = vec![in alloc; Res::zero(); COLUMNS]?;
    for row in 0..rows {
        items[row % COLUMNS] = Res::one();
        insert_row(&mut tableau, &items)?;
        items[row % COLUMNS] = Res::zero();
    }
    Ok(tableau.rows())
}

// Puts a row before all others, where it fits.
fn insert_row<T: Tableau<Res>>(tableau: &mut T, items: &[Res]) -> Result<(), NoMemory> {
    let (rows, columns) = (tableau.rows(), tableau.columns());
    if rows < COLUMN_LIMIT && items.len() == columns {
        tableau.room(rows + 1, columns)?;
        tableau.insert_row(0, items);
    }
    Ok(())
}
