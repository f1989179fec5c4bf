//! Products of matrices whose rows are lists of entries.

ghost use Rattle.std.specs.Prelude.{◌<◌, ◌↔◌, length, map, option_map, IfOk, IsTrue};
ghost use Rattle.std.specs.List.{All};
ghost use Rattle.std.specs.List.Sorted.{IsStrictlyIncreasing};
ghost use Rattle.linear_algebra.specs.Products.{Agree, product};
ghost use Rattle.cert_text.specs.Contents.{numbered, numbered_rows};
ghost use Rattle.cert_text.specs.Ranges.{AreEntries, IsPrintedMatrix};
ghost use Rattle.cert_text.specs.Readings.{matrix_of};
ghost use Rattle.cert_checker.specs.Gathering.{IsGatheredRow, IsZeroRow, IsRowCombination};
ghost use Rattle.cert_checker.specs.WideRows.{AreValuesOfRows};

use crate::value_rows::{add_entries, is_zero_row, zero_row};
use crate::wide_rows::{add_row, wide_rows};
use cert_text::Items;
use out_of_memory::NoMemory;
use residue_field::Field;
use std::alloc::Global;

// Adds the rows of a matrix, each times its coefficient, to a row. Of some rows the values are there.
fn gather<F: Field>(
    row: &mut [F],
    coefficients: &[(usize, F)],
    matrix: &[Items<(usize, F)>],
    values: &[Option<Vec<F>>],
)
    requires rising { IsStrictlyIncreasing (map (λ entry. entry.0) coefficients.now) }
    requires rows { All (λ entry. entry.0 < length matrix.now) coefficients.now }
    requires matrix { IsPrintedMatrix F.modulus (length matrix.now) (length row.old)
        (numbered_rows F.number matrix.now) }
    requires values { AreValuesOfRows F.modulus (length row.old) (numbered_rows F.number matrix.now)
        (map (option_map (λ row. map F.number row.items)) values.now) }
    ensures { IsGatheredRow F.modulus (length matrix.now) (length row.old) (numbered F.number coefficients.now)
        (numbered_rows F.number matrix.now) (map F.number row.old) (map F.number row.new) }
{
    for coefficient in coefficients {
        let (i, factor) = *coefficient;
        add_row(row, matrix[i].as_slice(), &values[i], factor);
    }
}

// Whether a sum of rows of a matrix, each times its coefficient, has these entries. The row is 0 before, and where they
// are the same it is 0 again.
fn is_combination<F: Field>(
    row: &mut [F],
    coefficients: &[(usize, F)],
    matrix: &[Items<(usize, F)>],
    values: &[Option<Vec<F>>],
    entries: &[(usize, F)],
) -> bool
    requires coefficients { AreEntries F.modulus (length matrix.now) (numbered F.number coefficients.now) }
    requires matrix { IsPrintedMatrix F.modulus (length matrix.now) (length row.old)
        (numbered_rows F.number matrix.now) }
    requires values { AreValuesOfRows F.modulus (length row.old) (numbered_rows F.number matrix.now)
        (map (option_map (λ row. map F.number row.items)) values.now) }
    requires entries { AreEntries F.modulus (length row.old) (numbered F.number entries.now) }
    requires zero { IsZeroRow F.modulus (length row.old) (map F.number row.old) }
    ensures answer { IsTrue result ↔ IsRowCombination F.modulus (length matrix.now) (length row.old)
        (numbered F.number coefficients.now) (numbered_rows F.number matrix.now) (numbered F.number entries.now) }
    ensures zero { IsTrue result → IsZeroRow F.modulus (length row.old) (map F.number row.new) }
{
    gather(row, coefficients, matrix, values);
    add_entries(row, entries, F::one().neg());
    is_zero_row(row)
}

/// Whether the product of two matrices is a third, which has so many columns.
pub fn is_product<F: Field>(
    alloc: Global,
    a: &[Items<(usize, F)>],
    b: &[Items<(usize, F)>],
    columns: usize,
    c: &[Items<(usize, F)>],
) -> Result<bool, NoMemory>
    requires a { IsPrintedMatrix F.modulus (length a.now) (length b.now) (numbered_rows F.number a.now) }
    requires b { IsPrintedMatrix F.modulus (length b.now) columns (numbered_rows F.number b.now) }
    requires c { IsPrintedMatrix F.modulus (length a.now) columns (numbered_rows F.number c.now) }
    ensures { IfOk result (λ answer. IsTrue answer ↔ Agree F.modulus (length a.now) columns
        (matrix_of (numbered_rows F.number c.now))
        (product (length b.now) (matrix_of (numbered_rows F.number a.now))
        (matrix_of (numbered_rows F.number b.now)))) }
{
    let values = wide_rows(alloc, b, columns)?;
    let mut row = zero_row(alloc, columns)?;
    for i in 0..a.len() {
        if !is_combination(&mut row, a[i].as_slice(), b, &values, c[i].as_slice()) {
            return Ok(false);
        }
    }
    Ok(true)
}
