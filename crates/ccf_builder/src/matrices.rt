//! The printed rows of matrices and patterns.

ghost use Rattle.std.specs.Prelude.{◌≡◌, ◌<◌, ◌≤◌, ℕ, IfOk, length};
ghost use Rattle.row_transform.specs.Tableaus.{matrix_which, width_of};
ghost use Rattle.sparse_t.specs.Incidences.{touches};
ghost use Rattle.cert_text.specs.Contents.{numbered, numbered_rows};
ghost use Rattle.ccf_builder.specs.Matrices.{PrintsPattern, PrintsTableau};
ghost use Rattle.cert_text.specs.Printing.{PrintsMatrix, PrintsRow};

use cert_text::Items;
use out_of_memory::NoMemory;
use residue_field::Field;
use row_transform::{Tableau, Which};
use sparse_t::Pattern;
use std::alloc::Global;

// The entries of a row of a tableau's matrix that are not 0, by rising column.
fn entries_of<F: Field, T: Tableau<F>>(
    alloc: Global,
    tableau: &T,
    which: Which,
    row: usize,
) -> Result<Items<(usize, F)>, NoMemory>
    requires { row < (T.state tableau.now).rows }
    ensures { IfOk result (λ entries.
        PrintsRow F.modulus (width_of which (T.state tableau.now)) (matrix_which which (T.state tableau.now) row)
        (numbered F.number entries)) }
{
    // there are at most 8,192 rows and columns, so that the sum below fits
    tableau.is_tableau();
    let mut entries = Vec::new(alloc);
    let mut at = 0;
    while let Some(entry) = tableau.next_in_row(which, row, at) {
        // its number is a residue
        entry.1.in_field();
        entries.push(entry)?;
        at = entry.0 + 1;
    }
    Ok(Items::from_vec(entries))
}

// The rows of a tableau's matrix.
fn rows_of<F: Field, T: Tableau<F>>(
    alloc: Global,
    tableau: &T,
    which: Which,
) -> Result<Items<Items<(usize, F)>>, NoMemory>
    ensures { IfOk result (λ rows.
        PrintsMatrix F.modulus (T.state tableau.now).rows (width_of which (T.state tableau.now))
        (matrix_which which (T.state tableau.now)) (numbered_rows F.number rows)) }
{
    let mut rows = Vec::with_capacity(alloc, tableau.rows())?;
    for row in 0..tableau.rows() {
        rows.push(entries_of(alloc, tableau, which, row)?)?;
    }
    Ok(Items::from_vec(rows))
}

// The columns of a row of symbols.
fn columns_of(alloc: Global, row: &[u32]) -> Result<Items<usize>, NoMemory>
    ensures { IfOk result (λ list. list ≡ row.now) }
{
    let mut columns = Vec::with_capacity(alloc, row.len())?;
    for column in row {
        columns.push(*column as usize)?;
    }
    Ok(Items::from_vec(columns))
}

/// The rows of a pattern.
pub fn symbols_of(alloc: Global, pattern: &Pattern) -> Result<Items<Items<usize>>, NoMemory>
    ensures { IfOk result (PrintsPattern (length pattern.now.rows) pattern.now.width (touches pattern.now)) }
{
    let mut rows = Vec::with_capacity(alloc, pattern.rows())?;
    for row in 0..pattern.rows() {
        rows.push(columns_of(alloc, pattern.row(row))?)?;
    }
    Ok(Items::from_vec(rows))
}

/// The printed rows of S, of its inverse U, and of P.
#[derive(Drop)]
pub struct PrintedTableau<F: Field> {
    pub s: Items<Items<(usize, F)>>,
    pub u: Items<Items<(usize, F)>>,
    pub p: Items<Items<(usize, F)>>,
}

/// The matrices of a tableau.
pub fn tableau_of<F: Field, T: Tableau<F>>(
    alloc: Global,
    tableau: &T,
) -> Result<PrintedTableau<F>, NoMemory>
    ensures { IfOk result (λ printed.
        PrintsTableau F.modulus (T.state tableau.now) (numbered_rows F.number printed.s)
        (numbered_rows F.number printed.u) (numbered_rows F.number printed.p)) }
{
    Ok(PrintedTableau {
        s: rows_of(alloc, tableau, Which::S)?,
        u: rows_of(alloc, tableau, Which::U)?,
        p: rows_of(alloc, tableau, Which::P)?,
    })
}
