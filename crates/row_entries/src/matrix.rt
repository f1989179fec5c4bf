//! Matrices of which the entries that are not zero are kept.

ghost use Rattle.std.specs.Prelude.{◌≡◌, ◌≢◌, ℕ, ◌+◌, ◌-◌, ◌<◌, ◌≤◌, map, replicate, not, eqb, IfOk, OnOk, OnErr, IfNone, IfSome};
ghost use Rattle.limits.specs.Limits.{column_limit};
ghost use Rattle.residue_theory.specs.Ranges.{HasNone, IsLeast};
ghost use Rattle.dense_q.specs.Tables.{AreResidues, IsMatrix, IsTableOf, entry, height, table_with_entry, with_last_row, zero_table};
ghost use Rattle.row_entries.specs.Rows.{IsEntryRow, IsRising, items, number_at};
ghost use Rattle.row_entries.specs.Tables.{IsFilled, numbers_of};

use crate::entry::{Entry, first_from, value_at};
use dense_q::Mat;
use out_of_memory::NoMemory;
use residue_field::Field;
use std::alloc::Global;
use std::marker::Model;

/// A matrix with entries in F, at most 8,192 rows and as many columns, of which only the entries that are not zero take
/// room. Rows and columns are counted from 0. It is filled row by row, and each row by rising column.
#[derive(Drop)]
pub struct EntryMat<F: Field> {
    alloc: Global,
    width: usize,
    rows: Vec<Vec<Entry<F>>>,
}

impl<F: Field> Model for EntryMat<F> {
    ghost use Rattle.std.specs.Prelude.{map};
    ghost use Rattle.dense_q.specs.Tables.{Table};
    ghost use Rattle.row_entries.specs.Rows.{items};
    ghost use Rattle.row_entries.specs.Tables.{AreEntryRows, table_of};

    ghost Value = { Table };

    ghost view = { λ m. table_of m.width (map (λ row. items F.number row.items) m.rows.items) };

    ghost invariant = { λ m. AreEntryRows F.modulus m.width (map (λ row. items F.number row.items) m.rows.items) };
}

impl<F: Field> EntryMat<F> {
    /// The matrix of so many columns that has no row.
    pub fn empty(alloc: Global, cols: usize) -> EntryMat<F>
        requires { cols ≤ column_limit }
        ensures { result ≡ zero_table 0 cols }
    {
        EntryMat {
            alloc,
            width: cols,
            rows: Vec::new(alloc),
        }
    }

    /// The entries of a dense matrix.
    pub fn of(alloc: Global, q: &Mat<F>) -> Result<EntryMat<F>, NoMemory>
        ensures { IfOk result (IsTableOf (height q.now) q.now.width (entry q.now)) }
    {
        let mut m = EntryMat::empty(alloc, q.cols());
        for i in 0..q.rows() {
            m.add_row()?;
            m.fill_last(q, i)?;
        }
        Ok(m)
    }

    // Puts the entries of row i of a dense matrix into the last row, which is zero.
    fn fill_last(&mut self, q: &Mat<F>, i: usize) -> Result<(), NoMemory>
        requires some { 0 < height self.old }
        requires row { i < height q.now }
        requires width { q.now.width ≡ self.old.width }
        requires zero { (j : ℕ) → entry self.old (height self.old - 1) j ≡ 0 }
        ensures { OnOk result (IsFilled self.old self.new (height self.old - 1) q.now.width (entry q.now i)) }
    {
        for j in 0..self.cols() {
            self.put(j, q.get(i, j))?;
        }
        Ok(())
    }

    /// Puts a row of zeros below the last one.
    pub fn add_row(&mut self) -> Result<(), NoMemory>
        requires { height self.old < column_limit }
        ensures ok { OnOk result (self.new ≡ with_last_row self.old (replicate self.old.width 0)) }
        ensures err { OnErr result (self.new ≡ self.old) }
    {
        self.rows.push(Vec::new(self.alloc))?;
        Ok(())
    }

    /// Puts an entry into the last row, at a column from which on it has none.
    pub fn put(&mut self, col: usize, value: F) -> Result<(), NoMemory>
        requires some { 0 < height self.old }
        requires col { col < self.old.width }
        requires zero { (j : ℕ) → col ≤ j → j < self.old.width → entry self.old (height self.old - 1) j ≡ 0 }
        ensures ok { OnOk result (self.new ≡ table_with_entry self.old (height self.old - 1) col (F.number value)) }
        ensures err { OnErr result (self.new ≡ self.old) }
    {
        if !value.is_zero() {
            value.in_field();
            let last = self.rows.len() - 1;
            self.rows[last].push(Entry {
                column: col as u32,
                value,
            })?;
        }
        Ok(())
    }

    /// How many rows there are.
    pub fn rows(&self) -> usize
        ensures rows { result ≡ height self.now }
        ensures matrix { IsMatrix self.now }
    {
        self.rows.len()
    }

    /// How many columns there are.
    pub fn cols(&self) -> usize
        ensures cols { result ≡ self.now.width }
        ensures matrix { IsMatrix self.now }
    {
        self.width
    }

    /// The entry at row i and column j.
    pub fn get(&self, i: usize, j: usize) -> F
        requires row { i < height self.now }
        ensures { F.number result ≡ entry self.now i j }
    {
        value_at(&self.rows[i], j)
    }

    /// The entries of row i that are not zero, by rising column.
    pub fn row(&self, i: usize) -> &[Entry<F>]
        requires { i < height self.now }
        ensures row { IsEntryRow F.modulus self.now.width (items F.number result.now) }
        ensures numbers { (j : ℕ) → number_at (items F.number result.now) j ≡ entry self.now i j }
    {
        &self.rows[i]
    }

    /// The first entry of row i that is not zero, from column `from` on, and its column.
    pub fn next(&self, i: usize, from: usize) -> Option<(usize, F)>
        requires row { i < height self.now }
        ensures none { IfNone result (HasNone (λ j. not (eqb (entry self.now i j) 0)) from self.now.width) }
        ensures least { IfSome result (λ e. IsLeast (λ j. not (eqb (entry self.now i j) 0)) from self.now.width e.0) }
        ensures entry { IfSome result (λ e. F.number e.1 ≡ entry self.now i e.0) }
    {
        let (col, value) = first_from(&self.rows[i], from)?;
        Some((col, value))
    }

    /// Tells a proof what a matrix keeps: its rows are as long as it is wide, and it has at most 8,192 rows and columns. It
    /// does nothing when it runs.
    pub fn is_matrix(&self)
        ensures { IsMatrix self.now }
    {
        // a proof knows what the type keeps once a field is read
        let _ = &self.rows;
    }

    /// Tells a proof that the number of each entry is below the modulus. It does nothing when it runs.
    pub fn in_field(&self)
        ensures { AreResidues F.modulus self.now.rows }
    {
        // a proof knows what the type keeps once a field is read
        let _ = &self.rows;
        F::zero().in_field();
    }

    /// The same matrix once more.
    pub fn copy(&self) -> Result<EntryMat<F>, NoMemory>
        ensures { IfOk result (λ m. m ≡ self.now) }
    {
        let mut rows = Vec::with_capacity(self.alloc, self.rows.len())?;
        for row in &self.rows {
            rows.push(Vec::from_slice(self.alloc, row)?)?;
        }
        Ok(EntryMat {
            alloc: self.alloc,
            width: self.width,
            rows,
        })
    }

    /// The dense matrix with the same entries.
    pub fn dense(&self) -> Result<Mat<F>, NoMemory>
        ensures { IfOk result (λ m. m ≡ self.now) }
    {
        let mut m = Mat::zeros(self.alloc, 0, self.width)?;
        for row in &self.rows {
            m.push_row(&values_of(self.alloc, row, self.width)?)?;
        }
        Ok(m)
    }
}

// The values of a row at each of its columns.
fn values_of<F: Field>(alloc: Global, row: &[Entry<F>], cols: usize) -> Result<Vec<F>, NoMemory>
    requires { IsRising (items F.number row.now) }
    ensures { IfOk result (λ values. map F.number values.items ≡ numbers_of cols (items F.number row.now)) }
{
    let mut values = Vec::with_capacity(alloc, cols)?;
    for col in 0..cols {
        values.push(value_at(row, col))?;
    }
    Ok(values)
}
