//! Whether columns of a matrix are unit columns.

ghost use Rattle.std.specs.Prelude.{◌≡◌, ◌<◌, ◌≤◌, ◌↔◌, ℕ, IfOk, IsTrue, length};
ghost use Rattle.std.specs.List.{All};
ghost use Rattle.cert_text.specs.Contents.{numbered, numbered_rows};
ghost use Rattle.cert_text.specs.Ranges.{ArePairs, IsPrintedMatrix};
ghost use Rattle.cert_text.specs.Readings.{entry_at};
ghost use Rattle.cert_checker.specs.Units.{AreBaseMarks, AreOnes, AreUnits, IsClear, AreClear};

use cert_text::Items;
use out_of_memory::NoMemory;
use residue_field::Field;
use std::alloc::Global;

// For each column the row of an item with it, and `rows` where there is none.
fn marks_of(
    alloc: Global,
    base: &[(usize, usize)],
    rows: usize,
    columns: usize,
) -> Result<Vec<usize>, NoMemory>
    requires { ArePairs rows columns base.now }
    ensures { IfOk result (λ marks. AreBaseMarks rows columns base.now (length base.now) marks.items) }
{
    let mut marks = vec![in alloc; rows; columns]?;
    for item in base {
        marks[item.1] = item.0;
    }
    Ok(marks)
}

// Whether the entry at a column of a row is 1.
fn is_one<F: Field>(row: &[(usize, F)], column: usize) -> bool
    ensures { IsTrue result ↔ (entry_at (numbered F.number row.now) column ≡ 1) }
{
    for entry in row {
        if entry.0 == column {
            return entry.1.value() == 1;
        }
    }
    false
}

// Whether the entry of each item is 1.
fn are_ones<F: Field>(p: &[Items<(usize, F)>], base: &[(usize, usize)], columns: usize) -> bool
    requires { ArePairs (length p.now) columns base.now }
    ensures { IsTrue result ↔ AreOnes (numbered_rows F.number p.now) base.now (length base.now) }
{
    for item in base {
        if !is_one(p[item.0].as_slice(), item.1) {
            return false;
        }
    }
    true
}

// Whether the entries of row i stand at columns with no mark, or with its own.
fn is_clear<F: Field>(row: &[(usize, F)], i: usize, marks: &[usize], rows: usize) -> bool
    requires { All (λ entry. entry.0 < length marks.now) row.now }
    ensures { IsTrue result ↔ IsClear rows marks.now i (numbered F.number row.now) (length row.now) }
{
    for entry in row {
        let mark = marks[entry.0];
        if mark != rows && mark != i {
            return false;
        }
    }
    true
}

// Whether this is so of each row.
fn are_clear<F: Field>(p: &[Items<(usize, F)>], marks: &[usize]) -> bool
    requires { IsPrintedMatrix F.modulus (length p.now) (length marks.now) (numbered_rows F.number p.now) }
    ensures { IsTrue result ↔ AreClear (length p.now) marks.now (numbered_rows F.number p.now) (length p.now) }
{
    for i in 0..p.len() {
        if !is_clear(p[i].as_slice(), i, marks, p.len()) {
            return false;
        }
    }
    true
}

/// Whether the column of each item of the base is 1 at its row and 0 elsewhere.
pub fn are_units<F: Field>(
    alloc: Global,
    p: &[Items<(usize, F)>],
    base: &[(usize, usize)],
    columns: usize,
) -> Result<bool, NoMemory>
    requires p { IsPrintedMatrix F.modulus (length p.now) columns (numbered_rows F.number p.now) }
    requires base { ArePairs (length p.now) columns base.now }
    ensures { IfOk result (λ answer.
        IsTrue answer ↔ AreUnits F.modulus (length p.now) (numbered_rows F.number p.now) base.now) }
{
    let marks = marks_of(alloc, base, p.len(), columns)?;
    Ok(are_ones(p, base, columns) && are_clear(p, &marks))
}
