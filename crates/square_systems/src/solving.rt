//! A square system: its rows join an echelon one after another, each beside its right side, and the echelon is solved from
//! the last row to the first.

ghost use Rattle.std.specs.Prelude.{◌≡◌, ◌<◌, [], true, false, length, map, replicate, slice_index, IfOk, IfNone, IfSome};
ghost use Rattle.limits.specs.Limits.{column_limit};
ghost use Rattle.residue_theory.specs.Sets.{everything};
ghost use Rattle.linear_algebra.specs.Columns.{IsIndependent};
ghost use Rattle.dense_q.specs.Tables.{entry, height};
ghost use Rattle.block_laws.specs.Systems.{IsSystemSolution};
ghost use Rattle.square_systems.specs.Joined.{AreJoined, HasDependentRow, IsRowOf};

use out_of_memory::NoMemory;
use residue_field::Field;
use row_echelon::{Echelon, add_entries, clear, zeros};
use row_entries::{Entry, EntryMat};
use std::alloc::Global;

// Counts the entries of a row at each column.
fn count_row<F: Field>(counts: &mut [usize], entries: &[Entry<F>]) {
    for entry in entries {
        if let Some(count) = counts.get_mut(entry.column as usize) {
            *count = count.saturating_add(1);
        }
    }
}

// How many rows have an entry at each column.
fn column_counts<F: Field>(alloc: Global, table: &EntryMat<F>) -> Result<Vec<usize>, NoMemory>
    ensures { IfOk result (λ counts. length counts.items ≡ table.now.width) }
{
    let mut counts = Vec::from_elem(alloc, 0, table.cols())?;
    for i in 0..table.rows() {
        count_row(&mut counts, table.row(i));
    }
    Ok(counts)
}

// Makes a row of numbers that of a table.
fn fill_row<F: Field>(row: &mut [F], table: &EntryMat<F>, i: usize)
    requires row { i < height table.now }
    requires width { length row.old ≡ table.now.width }
    ensures { IsRowOf F.modulus table.now i (map F.number row.new) }
{
    clear(row);
    add_entries(row, table.row(i), F::one());
}

// Joins all rows of a table with their right sides, each by way of `row`. False where one of them is a combination of those
// before it.
fn join_rows<F: Field>(
    echelon: &mut Echelon<F>,
    row: &mut [F],
    table: &EntryMat<F>,
    right: &[F],
) -> Result<bool, NoMemory>
    requires empty { echelon.old.rows ≡ [] }
    requires width { echelon.old.width ≡ table.now.width }
    requires row { length row.old ≡ table.now.width }
    requires right { length right.now ≡ height table.now }
    ensures joined { IfOk result (λ full. full ≡ true → AreJoined F.modulus table.now.width (entry table.now)
        (slice_index (map F.number right.now)) echelon.new (height table.now)) }
    ensures dependent { IfOk result (λ full. full ≡ false →
        HasDependentRow F.modulus (height table.now) table.now.width (entry table.now)) }
{
    for i in 0..table.rows() {
        fill_row(row, table, i);
        if !echelon.join(row, right[i])? {
            return Ok(false);
        }
    }
    Ok(true)
}

/// The solution x of a system of linear equations with as many rows as columns, n of each, at most 8,192: `table * x` is
/// the right side, which has a number for each row, and x has one for each column. None exactly where the columns are
/// dependent, so that the rank is below n. (Murota 2000, chapter 2.)
pub fn solve_square<F: Field>(
    alloc: Global,
    table: &EntryMat<F>,
    right: &[F],
) -> Result<Option<Vec<F>>, NoMemory>
    requires square { table.now.width ≡ height table.now }
    requires right { length right.now ≡ height table.now }
    ensures regular { IfOk result (λ found. IfSome found (λ x.
        IsIndependent F.modulus (entry table.now) (height table.now) (height table.now) everything)) }
    ensures count { IfOk result (λ found. IfSome found (λ x. length x.items ≡ height table.now)) }
    ensures solved { IfOk result (λ found. IfSome found (λ x.
        IsSystemSolution F.modulus (entry table.now) (height table.now) (height table.now)
        (slice_index (map F.number x.items)) (slice_index (map F.number right.now)))) }
    ensures singular { IfOk result (λ found. IfNone found
        (IsIndependent F.modulus (entry table.now) (height table.now) (height table.now) everything → ⊥)) }
{
    // there are at most 8,192 columns
    table.is_matrix();
    let counts = column_counts(alloc, table)?;
    let mut echelon = Echelon::open(alloc, counts);
    let mut row = zeros(alloc, table.cols())?;
    if !join_rows(&mut echelon, &mut row, table, right)? {
        return Ok(None);
    }
    echelon.is_echelon();
    Ok(Some(echelon.solution()?))
}
