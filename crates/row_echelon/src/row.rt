//! A row with a number for each column, and entries beside it.

ghost use Rattle.std.specs.Prelude.{◌≡◌, ℕ, ◌*◌, ◌%◌, ◌<◌, IfOk, length, map, replicate, set, slice_index};
ghost use Rattle.std.specs.List.{All};
ghost use Rattle.residue_theory.specs.Sums.{sum_below};
ghost use Rattle.row_entries.specs.Rows.{items, number_at};
ghost use Rattle.row_echelon.specs.Echelons.{IsAddedTo};

use out_of_memory::NoMemory;
use residue_field::Field;
use row_entries::Entry;
use std::alloc::Global;

/// Adds `factor` times the entries to a row.
pub fn add_entries<F: Field>(row: &mut [F], entries: &[Entry<F>], factor: F)
    requires { All (λ entry. entry.column < length row.old) entries.now }
    ensures { IsAddedTo F.modulus (F.number factor) (items F.number entries.now) (map F.number row.old)
        (map F.number row.new) }
{
    for entry in entries {
        let column = entry.column as usize;
        row[column] = row[column].plus_multiple(factor, entry.value);
    }
}

// The number of a row at a column.
pub(crate) fn number_at<F: Field>(row: &[F], column: usize) -> F
    requires { column < length row.now }
    ensures { F.number result ≡ slice_index (map F.number row.now) column }
{
    row[column]
}

// Puts a number at a column of a row.
pub(crate) fn put_at<F: Field>(row: &mut [F], column: usize, value: F)
    requires { column < length row.old }
    ensures { map F.number row.new ≡ set (map F.number row.old) column (F.number value) }
{
    row[column] = value;
}

/// Makes all numbers of a row 0.
pub fn clear<F: Field>(row: &mut [F])
    ensures { (j : ℕ) → slice_index (map F.number row.new) j ≡ 0 }
{
    for column in 0..row.len() {
        row[column] = F::zero();
    }
}

/// So many zeros.
pub fn zeros<F: Field>(alloc: Global, n: usize) -> Result<Vec<F>, NoMemory>
    ensures { IfOk result (λ x. map F.number x.items ≡ replicate n 0) }
{
    let mut x = Vec::with_capacity(alloc, n)?;
    for _column in 0..n {
        x.push(F::zero())?;
    }
    Ok(x)
}

// The sum of the entries, each times the number of its column.
pub(crate) fn entries_sum<F: Field>(entries: &[Entry<F>], x: &[F]) -> F
    requires { All (λ entry. entry.column < length x.now) entries.now }
    ensures { F.number result % F.modulus ≡ sum_below (length x.now)
        (λ j. slice_index (map F.number x.now) j * number_at (items F.number entries.now) j) % F.modulus }
{
    let mut sum = F::zero();
    for entry in entries {
        sum = sum.plus_multiple(x[entry.column as usize], entry.value);
    }
    sum
}
