//! Matchings to whose pattern rows come.

use bipartite_matching::{Match, NoMemory};
use limits::COLUMN_LIMIT;
use sparse_t::Pattern;
use std::alloc::Global;

// How many columns there are.
const COLUMNS: usize = 16;

/// The empty matching of a pattern with no row takes room for so many rows, and its pattern gains so many.
pub(crate) fn edited(alloc: Global, room: usize, rows: usize) -> Result<usize, NoMemory> {
    let mut found = Match::open(alloc, &Pattern::empty(alloc, COLUMNS))?;
    found.room(room.min(COLUMN_LIMIT), COLUMNS)?;
    for row in 0..rows {
        insert_row(&mut found, (row % COLUMNS) as u32)?;
    }
    Ok(found.pattern().rows())
}

// Puts a row that touches one column before all others, where it fits.
fn insert_row(found: &mut Match, column: u32) -> Result<(), NoMemory> {
    let (rows, columns) = (found.pattern().rows(), found.pattern().cols());
    if rows < COLUMN_LIMIT && (column as usize) < columns {
        found.room(rows + 1, columns)?;
        found.insert_row(0, &[column]);
    }
    Ok(())
}
