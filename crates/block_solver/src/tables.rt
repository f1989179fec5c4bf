//! The table of a block: its rows at its columns.

ghost use Rattle.std.specs.Prelude.{◌≡◌, ◌+◌, ◌<◌, ◌≤◌, [], IfOk, OnOk, length};
ghost use Rattle.std.specs.List.{All};
ghost use Rattle.std.specs.List.Sorted.{IsStrictlyIncreasing};
ghost use Rattle.limits.specs.Limits.{column_limit};
ghost use Rattle.dense_q.specs.Tables.{IsTableOf, height};
ghost use Rattle.cert_text.specs.Contents.{numbered, numbered_rows};
ghost use Rattle.block_solver.specs.Blocks.{block_system, part_matrix};
ghost use Rattle.block_solver.specs.Rows.{AreKeysRising};
ghost use Rattle.block_solver.specs.Tables.{HasPartRow, HasPartRows};

use cert_text::{CcfPart, Items};
use out_of_memory::NoMemory;
use residue_field::Field;
use row_entries::EntryMat;
use std::alloc::Global;

// Puts a row below the last one: its entries at the columns.
fn put_row<F: Field>(
    table: &mut EntryMat<F>,
    entries: &[(usize, F)],
    columns: &[usize],
) -> Result<(), NoMemory>
    requires few { height table.old < column_limit }
    requires width { table.old.width ≡ length columns.now }
    requires columns { IsStrictlyIncreasing columns.now }
    requires entries { AreKeysRising (numbered F.number entries.now) }
    ensures { OnOk result (HasPartRow table.old table.new (numbered F.number entries.now) columns.now) }
{
    table.add_row()?;
    for entry in entries {
        // each row has an entry for each column
        table.is_matrix();
        if let Ok(place) = columns.binary_search(&entry.0) {
            table.put(place, entry.1)?;
        }
    }
    Ok(())
}

// Puts the members of a block among some rows below the last one.
fn put_rows<F: Field>(
    table: &mut EntryMat<F>,
    rows: &[Items<(usize, F)>],
    members: &[usize],
    columns: &[usize],
) -> Result<(), NoMemory>
    requires few { height table.old + length members.now ≤ column_limit }
    requires width { table.old.width ≡ length columns.now }
    requires columns { IsStrictlyIncreasing columns.now }
    requires rows { All AreKeysRising (numbered_rows F.number rows.now) }
    requires members { All (λ member. member < length rows.now) members.now }
    ensures { OnOk result (HasPartRows table.old table.new (length members.now) (numbered_rows F.number rows.now)
        members.now columns.now) }
{
    for member in members {
        put_row(table, rows[*member].as_slice(), columns)?;
    }
    Ok(())
}

/// The table of a part: its Q rows of P, and then its T rows, at its columns.
pub fn part_table<F: Field>(
    alloc: Global,
    p: &[Items<(usize, F)>],
    t: &[Items<(usize, F)>],
    part: &CcfPart,
) -> Result<EntryMat<F>, NoMemory>
    requires few { length part.now.columns ≤ column_limit }
    requires columns { IsStrictlyIncreasing part.now.columns }
    requires q_rows { All (λ row. row < length p.now) part.now.q_rows }
    requires t_rows { All (λ row. row < length t.now) part.now.t_rows }
    requires p_rising { All AreKeysRising (numbered_rows F.number p.now) }
    requires t_rising { All AreKeysRising (numbered_rows F.number t.now) }
    requires square { length part.now.q_rows + length part.now.t_rows ≡ length part.now.columns }
    ensures { IfOk result (IsTableOf (length part.now.columns) (length part.now.columns)
        (part_matrix (block_system F.number p.now t.now [] []) part.now)) }
{
    let columns = part.columns.as_slice();
    let mut table = EntryMat::empty(alloc, columns.len());
    put_rows(&mut table, p, part.q_rows.as_slice(), columns)?;
    put_rows(&mut table, t, part.t_rows.as_slice(), columns)?;
    Ok(table)
}
