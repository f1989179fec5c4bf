//! Rows of values, to which entries are added.

ghost use Rattle.std.specs.Prelude.{◌≡◌, ◌<◌, ◌↔◌, length, map, replicate, IfOk, IsTrue};
ghost use Rattle.std.specs.List.{All};
ghost use Rattle.std.specs.List.Sorted.{IsStrictlyIncreasing};
ghost use Rattle.cert_text.specs.Contents.{numbered};
ghost use Rattle.cert_checker.specs.Gathering.{IsAddedRow, IsZeroRow};

use out_of_memory::NoMemory;
use residue_field::Field;
use std::alloc::Global;

/// A row of zeros.
pub fn zero_row<F: Field>(alloc: Global, columns: usize) -> Result<Vec<F>, NoMemory>
    ensures { IfOk result (λ row. map F.number row.items ≡ replicate columns 0) }
{
    let mut row = Vec::with_capacity(alloc, columns)?;
    for _column in 0..columns {
        row.push(F::zero())?;
    }
    Ok(row)
}

/// Whether all values of a row are 0.
pub fn is_zero_row<F: Field>(row: &[F]) -> bool
    ensures { IsTrue result ↔ IsZeroRow F.modulus (length row.now) (map F.number row.now) }
{
    // all are looked at, since a loop that does not end early looks at many values at once
    let mut is_zero = true;
    for value in row {
        // its number is below the modulus
        value.in_field();
        is_zero &= value.is_zero();
    }
    is_zero
}

/// Adds `factor` times the entries to a row.
pub fn add_entries<F: Field>(row: &mut [F], entries: &[(usize, F)], factor: F)
    requires rising { IsStrictlyIncreasing (map (λ entry. entry.0) entries.now) }
    requires columns { All (λ entry. entry.0 < length row.old) entries.now }
    ensures { IsAddedRow F.modulus (length row.old) (F.number factor) (numbered F.number entries.now)
        (map F.number row.old) (map F.number row.new) }
{
    for entry in entries {
        let column = entry.0;
        row[column] = row[column].plus_multiple(factor, entry.1);
    }
}
