//! The printed rows of a matrix, and of the unit matrix.

ghost use Rattle.std.specs.Prelude.{◌≡◌, IfOk};
ghost use Rattle.dense_q.specs.Tables.{entry, height};
ghost use Rattle.linear_algebra.specs.Products.{identity};
ghost use Rattle.cert_text.specs.Contents.{numbered, numbered_rows};
ghost use Rattle.cert_text.specs.Printing.{PrintsMatrix};
ghost use Rattle.row_entries.specs.Rows.{items, placed};

use cert_text::Items;
use out_of_memory::NoMemory;
use residue_field::Field;
use row_entries::{Entry, EntryMat};
use std::alloc::Global;

// The entries of a row, each by its column and its value.
fn entries_of<F: Field>(alloc: Global, row: &[Entry<F>]) -> Result<Items<(usize, F)>, NoMemory>
    ensures { IfOk result (λ entries. numbered F.number entries ≡ placed (items F.number row.now)) }
{
    let mut entries = Vec::with_capacity(alloc, row.len())?;
    for entry in row {
        entries.push((entry.column as usize, entry.value))?;
    }
    Ok(Items::from_vec(entries))
}

/// The printed rows of a matrix.
pub fn rows_of<F: Field>(
    alloc: Global,
    matrix: &EntryMat<F>,
) -> Result<Items<Items<(usize, F)>>, NoMemory>
    ensures { IfOk result (λ rows. PrintsMatrix F.modulus (height matrix.now) matrix.now.width (entry matrix.now)
        (numbered_rows F.number rows)) }
{
    let mut rows = Vec::with_capacity(alloc, matrix.rows())?;
    for row in 0..matrix.rows() {
        rows.push(entries_of(alloc, matrix.row(row))?)?;
    }
    Ok(Items::from_vec(rows))
}

/// The rows of the unit matrix of n rows and columns.
pub fn unit_rows<F: Field>(alloc: Global, n: usize) -> Result<Items<Items<(usize, F)>>, NoMemory>
    ensures { IfOk result (λ rows. PrintsMatrix F.modulus n n identity (numbered_rows F.number rows)) }
{
    let mut rows = Vec::with_capacity(alloc, n)?;
    for row in 0..n {
        let mut entries = Vec::new(alloc);
        entries.push((row, F::one()))?;
        rows.push(Items::from_vec(entries))?;
    }
    Ok(Items::from_vec(rows))
}
