//! Dense matrices over a field.

ghost use Rattle.std.specs.Prelude.{◌≡◌, ℕ, ◌+◌, ◌*◌, ◌%◌, ◌<◌, ◌≤◌, ◌≢◌, map, length, IfOk, OnOk, OnErr};
ghost use Rattle.limits.specs.Limits.{column_limit};
ghost use Rattle.linear_algebra.specs.Products.{identity};
ghost use Rattle.linear_algebra.specs.RowOperations.{IsRowAdded, IsRowScaled};
ghost use Rattle.residue_field.specs.Rows.{plus_multiple};
ghost use Rattle.dense_q.specs.Rows.{multiple};
ghost use Rattle.dense_q.specs.Tables.{Table, IsMatrix, AreResidues, HasSameSize, IsTableOf, IsProduct, height, row_at};
ghost use Rattle.dense_q.specs.Tables.{entry, zero_table, with_row, table_with_entry, with_rows_swapped, with_last_row};

use crate::rows;
use out_of_memory::NoMemory;
use residue_field::Field;
use std::alloc::Global;
use std::marker::Model;
use std::mem;

/// A matrix with entries in F, at most 8,192 rows and as many columns. Rows and columns are counted from 0.
#[derive(Drop)]
pub struct Mat<F: Field> {
    width: usize,
    rows: Vec<Vec<F>>,
}

impl<F: Field> Model for Mat<F> {
    ghost use Rattle.std.specs.Prelude.{map};
    ghost use Rattle.dense_q.specs.Storage.{IsStored};
    ghost use Rattle.dense_q.specs.Tables.{Table};

    ghost Value = { Table };

    ghost view = { λ m. record { width = m.width; rows = map (λ row. map F.number row.items) m.rows.items } };

    ghost invariant = { λ m. IsStored m.width m.rows.items };
}

impl<F: Field> Mat<F> {
    /// The matrix of so many rows and columns whose entries are all zero.
    pub fn zeros(alloc: Global, rows: usize, cols: usize) -> Result<Mat<F>, NoMemory>
        requires rows { rows ≤ column_limit }
        requires cols { cols ≤ column_limit }
        ensures { IfOk result (λ m. m ≡ zero_table rows cols) }
    {
        let mut all = Vec::with_capacity(alloc, rows)?;
        for _row in 0..rows {
            all.push(rows::zero_row(alloc, cols)?)?;
        }
        Ok(Mat {
            width: cols,
            rows: all,
        })
    }

    /// The square matrix with 1 where row and column are the same, and 0 elsewhere.
    pub fn identity(alloc: Global, n: usize) -> Result<Mat<F>, NoMemory>
        requires { n ≤ column_limit }
        ensures { IfOk result (IsTableOf n n identity) }
    {
        let mut all = Vec::with_capacity(alloc, n)?;
        for i in 0..n {
            let mut row = rows::zero_row(alloc, n)?;
            row[i] = F::one();
            all.push(row)?;
        }
        Ok(Mat {
            width: n,
            rows: all,
        })
    }

    /// The product of two matrices, where a has as many columns as b has rows.
    pub fn product(alloc: Global, a: &Mat<F>, b: &Mat<F>) -> Result<Mat<F>, NoMemory>
        requires { a.now.width ≡ height b.now }
        ensures { IfOk result (IsProduct F.modulus a.now b.now) }
    {
        let mut all = Vec::with_capacity(alloc, a.rows.len())?;
        for coefficients in &a.rows {
            all.push(rows::combination(alloc, coefficients, &b.rows, b.width)?)?;
        }
        Ok(Mat {
            width: b.width,
            rows: all,
        })
    }

    /// The same matrix once more.
    pub fn copy(&self) -> Result<Mat<F>, NoMemory>
        ensures { IfOk result (λ m. m ≡ self.now) }
    {
        let alloc = *self.rows.allocator();
        let mut all = Vec::with_capacity(alloc, self.rows.len())?;
        for row in &self.rows {
            all.push(Vec::from_slice(alloc, row)?)?;
        }
        Ok(Mat {
            width: self.width,
            rows: all,
        })
    }

    /// The matrix with rows and columns in each other's place.
    pub fn transposed(&self) -> Result<Mat<F>, NoMemory>
        ensures { IfOk result (IsTableOf self.now.width (height self.now) (λ i j. entry self.now j i)) }
    {
        let alloc = *self.rows.allocator();
        let mut all = Vec::with_capacity(alloc, self.width)?;
        for j in 0..self.width {
            all.push(rows::column(alloc, &self.rows, j)?)?;
        }
        Ok(Mat {
            width: self.rows.len(),
            rows: all,
        })
    }

    /// Tells a proof what a matrix keeps: its rows are as long as it is wide, and it has at most 8,192 rows and columns. It
    /// does nothing when it runs.
    pub fn is_matrix(&self)
        ensures { IsMatrix self.now }
    {
        // a proof knows what the type keeps once a field is read
        let _ = &self.rows;
    }

    /// How many rows there are.
    pub fn rows(&self) -> usize
        ensures rows { result ≡ height self.now }
        ensures matrix { IsMatrix self.now }
    {
        self.rows.len()
    }

    /// How many columns there are.
    pub fn cols(&self) -> usize
        ensures cols { result ≡ self.now.width }
        ensures matrix { IsMatrix self.now }
    {
        self.width
    }

    /// The entry at row i and column j.
    pub fn get(&self, i: usize, j: usize) -> F
        requires row { i < height self.now }
        requires col { j < self.now.width }
        ensures { F.number result ≡ entry self.now i j }
    {
        self.rows[i][j]
    }

    /// Tells a proof that the number of each entry is below the modulus. It does nothing when it runs.
    pub fn in_field(&self)
        ensures { AreResidues F.modulus self.now.rows }
    {
        for row in &self.rows {
            rows::in_field(row);
        }
    }

    /// Puts an entry at row i and column j.
    pub fn set(&mut self, i: usize, j: usize, v: F)
        requires row { i < height self.old }
        requires col { j < self.old.width }
        ensures { self.new ≡ table_with_entry self.old i j (F.number v) }
    {
        self.rows[i][j] = v;
    }

    /// Puts a row below the last one.
    pub fn push_row(&mut self, row: &[F]) -> Result<(), NoMemory>
        requires width { length row.now ≡ self.old.width }
        requires room { height self.old < column_limit }
        ensures ok { OnOk result (self.new ≡ with_last_row self.old (map F.number row.now)) }
        ensures err { OnErr result (self.new ≡ self.old) }
    {
        let row = Vec::from_slice(*self.rows.allocator(), row)?;
        self.rows.push(row)?;
        Ok(())
    }

    /// Multiplies row i by c.
    pub fn scale_row(&mut self, i: usize, c: F)
        requires { i < height self.old }
        ensures row { self.new ≡ with_row self.old i (multiple F.modulus (F.number c) (row_at self.old i)) }
        ensures scaled { IsRowScaled F.modulus (height self.old) self.old.width (entry self.old)
            (entry self.new) i (F.number c) }
        ensures size { HasSameSize self.new self.old }
    {
        rows::multiply(&mut self.rows[i], c);
    }

    /// Puts rows i and j in each other's place. It moves no entry.
    pub fn swap_rows(&mut self, i: usize, j: usize)
        requires first { i < height self.old }
        requires second { j < height self.old }
        ensures { self.new ≡ with_rows_swapped self.old i j }
    {
        self.rows.swap(i, j);
    }

    /// Adds c times row j to row i.
    pub fn add_row(&mut self, i: usize, j: usize, c: F)
        requires target { i < height self.old }
        requires source { j < height self.old }
        requires apart { i ≢ j }
        ensures row { self.new
            ≡ with_row self.old i (plus_multiple F.modulus (F.number c) (row_at self.old i) (row_at self.old j)) }
        ensures added { IsRowAdded F.modulus (height self.old) self.old.width (entry self.old) (entry self.new)
            i j (F.number c) }
        ensures size { HasSameSize self.new self.old }
    {
        let empty = Vec::new(*self.rows.allocator());
        let mut target = mem::replace(&mut self.rows[i], empty);
        F::add_scaled(&mut target, &self.rows[j], c);
        self.rows[i] = target;
    }

    /// Adds c times row j of another matrix, which is as wide, to row i.
    pub fn add_row_of(&mut self, i: usize, other: &Mat<F>, j: usize, c: F)
        requires target { i < height self.old }
        requires source { j < height other.now }
        requires width { other.now.width ≡ self.old.width }
        ensures row { self.new
            ≡ with_row self.old i (plus_multiple F.modulus (F.number c) (row_at self.old i) (row_at other.now j)) }
        ensures size { HasSameSize self.new self.old }
        ensures changed { (k : ℕ) → k < self.old.width →
            entry self.new i k ≡ (entry self.old i k + F.number c * entry other.now j k) % F.modulus }
        ensures others { (t k : ℕ) → t ≢ i → entry self.new t k ≡ entry self.old t k }
    {
        F::add_scaled(&mut self.rows[i], &other.rows[j], c);
    }

    /// Copies row j of another matrix, which is as wide, into row i.
    pub fn copy_row_of(&mut self, i: usize, other: &Mat<F>, j: usize)
        requires target { i < height self.old }
        requires source { j < height other.now }
        requires width { other.now.width ≡ self.old.width }
        ensures row { self.new ≡ with_row self.old i (row_at other.now j) }
        ensures size { HasSameSize self.new self.old }
        ensures changed { (k : ℕ) → entry self.new i k ≡ entry other.now j k }
        ensures others { (t k : ℕ) → t ≢ i → entry self.new t k ≡ entry self.old t k }
    {
        self.rows[i].copy_from_slice(&other.rows[j]);
    }
}
