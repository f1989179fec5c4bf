//! Rows with many entries as rows of values, which are added place by place.

ghost use Rattle.std.specs.Prelude.{◌≡◌, ◌<◌, length, map, option_map, IfOk, IfSome};
ghost use Rattle.cert_text.specs.Contents.{numbered, numbered_rows};
ghost use Rattle.cert_text.specs.Ranges.{AreEntries, IsPrintedMatrix};
ghost use Rattle.cert_checker.specs.Gathering.{IsAddedRow};
ghost use Rattle.cert_checker.specs.WideRows.{AreValues, AreValuesOfRows};

use crate::value_rows::{add_entries, zero_row};
use cert_text::Items;
use out_of_memory::NoMemory;
use residue_field::Field;
use std::alloc::Global;

// A place of a row of values costs about a quarter of an entry, in time and in memory.
const PLACES_FOR_AN_ENTRY: usize = 4;

// The values of a row.
fn values_of<F: Field>(
    alloc: Global,
    entries: &[(usize, F)],
    columns: usize,
) -> Result<Vec<F>, NoMemory>
    requires { AreEntries F.modulus columns (numbered F.number entries.now) }
    ensures { IfOk result (λ values. AreValues F.modulus columns (numbered F.number entries.now)
        (map F.number values.items)) }
{
    let mut values = zero_row(alloc, columns)?;
    add_entries(&mut values, entries, F::one());
    Ok(values)
}

// The values of a row, if it has entries at a quarter of the columns.
fn values_if_wide<F: Field>(
    alloc: Global,
    entries: &[(usize, F)],
    columns: usize,
) -> Result<Option<Vec<F>>, NoMemory>
    requires { AreEntries F.modulus columns (numbered F.number entries.now) }
    ensures { IfOk result (λ found. IfSome found (λ values.
        AreValues F.modulus columns (numbered F.number entries.now) (map F.number values.items))) }
{
    if entries.len() < columns / PLACES_FOR_AN_ENTRY {
        return Ok(None);
    }
    Ok(Some(values_of(alloc, entries, columns)?))
}

/// The values of each row of a matrix that has entries at a quarter of its columns or more, so that they take no more room
/// than the entries.
pub fn wide_rows<F: Field>(
    alloc: Global,
    matrix: &[Items<(usize, F)>],
    columns: usize,
) -> Result<Vec<Option<Vec<F>>>, NoMemory>
    requires { IsPrintedMatrix F.modulus (length matrix.now) columns (numbered_rows F.number matrix.now) }
    ensures { IfOk result (λ rows. AreValuesOfRows F.modulus columns (numbered_rows F.number matrix.now)
        (map (option_map (λ values. map F.number values.items)) rows.items)) }
{
    let mut rows = Vec::with_capacity(alloc, matrix.len())?;
    for row in matrix {
        rows.push(values_if_wide(alloc, row.as_slice(), columns)?)?;
    }
    Ok(rows)
}

/// Adds `factor` times a row, whose values may be kept, to a row of values.
pub fn add_row<F: Field>(sum: &mut [F], entries: &[(usize, F)], values: &Option<Vec<F>>, factor: F)
    requires entries { AreEntries F.modulus (length sum.old) (numbered F.number entries.now) }
    requires values { IfSome values.now (λ values.
        AreValues F.modulus (length sum.old) (numbered F.number entries.now) (map F.number values.items)) }
    ensures { IsAddedRow F.modulus (length sum.old) (F.number factor) (numbered F.number entries.now)
        (map F.number sum.old) (map F.number sum.new) }
{
    match values {
        Some(values) => F::add_scaled(sum, values, factor),
        None => add_entries(sum, entries, factor),
    }
}
