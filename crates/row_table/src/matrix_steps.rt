//! Steps on the entries of one matrix.

ghost use Rattle.std.specs.Prelude.{◌≡◌, ◌≢◌, ℕ, ◌<◌, ◌≤◌, IfOk};
ghost use Rattle.limits.specs.Limits.{column_limit};
ghost use Rattle.dense_q.specs.Tables.{height, entry, HasSameSize};
ghost use Rattle.row_table.specs.Tables.{IsLarger};

use crate::put_off::put;
use dense_q::Mat;
use out_of_memory::NoMemory;
use residue_field::Field;
use std::alloc::Global;

// Takes all entries of a row away.
pub(crate) fn clear_row<F: Field>(m: &mut Mat<F>, i: usize)
    requires { i < height m.old }
    ensures size { HasSameSize m.new m.old }
    ensures cleared { (j : ℕ) → j < m.old.width → entry m.new i j ≡ 0 }
    ensures others { (u j : ℕ) → u ≢ i → entry m.new u j ≡ entry m.old u j }
{
    for j in 0..m.cols() {
        put(m, i, j, F::zero());
    }
}

// Puts the entries of column `source` in the place of column j.
pub(crate) fn copy_column<F: Field>(m: &mut Mat<F>, j: usize, source: usize)
    requires column { j < m.old.width }
    requires source { source < m.old.width }
    ensures size { HasSameSize m.new m.old }
    ensures here { (i : ℕ) → i < height m.old → entry m.new i j ≡ entry m.old i source }
    ensures others { (i c : ℕ) → c ≢ j → entry m.new i c ≡ entry m.old i c }
{
    for i in 0..m.rows() {
        put(m, i, j, m.get(i, source));
    }
}

// Puts the entries of row `source` in the place of row i, whose entries are lost.
pub(crate) fn take_row<F: Field>(m: &mut Mat<F>, i: usize, source: usize)
    requires row { i < height m.old }
    requires source { source < height m.old }
    ensures size { HasSameSize m.new m.old }
    ensures here { (j : ℕ) → entry m.new i j ≡ entry m.old source j }
    ensures others { (u j : ℕ) → u ≢ i → u ≢ source → entry m.new u j ≡ entry m.old u j }
{
    m.swap_rows(i, source);
}

// Copies row i of a matrix into a wider one.
fn copy_row<F: Field>(larger: &mut Mat<F>, m: &Mat<F>, i: usize)
    requires row { i < height m.now }
    requires rows { height m.now ≤ height larger.old }
    requires columns { m.now.width ≤ larger.old.width }
    requires zero { (j : ℕ) → entry larger.old i j ≡ 0 }
    ensures size { HasSameSize larger.new larger.old }
    ensures here { (j : ℕ) → entry larger.new i j ≡ entry m.now i j }
    ensures others { (u j : ℕ) → u ≢ i → entry larger.new u j ≡ entry larger.old u j }
{
    for j in 0..m.cols() {
        put(larger, i, j, m.get(i, j));
    }
}

// A matrix of so many rows and columns with the entries of another one, which has no more.
pub(crate) fn larger<F: Field>(
    alloc: Global,
    m: &Mat<F>,
    rows: usize,
    columns: usize,
) -> Result<Mat<F>, NoMemory>
    requires rows { height m.now ≤ rows }
    requires columns { m.now.width ≤ columns }
    requires few { rows ≤ column_limit }
    requires narrow { columns ≤ column_limit }
    ensures { IfOk result (IsLarger m.now rows columns) }
{
    let mut larger = Mat::zeros(alloc, rows, columns)?;
    for i in 0..m.rows() {
        copy_row(&mut larger, m, i);
    }
    Ok(larger)
}
