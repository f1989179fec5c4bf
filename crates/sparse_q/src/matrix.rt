//! Sparse matrices over a field.

ghost use Rattle.std.specs.Prelude.{◌≡◌, ◌≢◌, ℕ, ◌+◌, ◌*◌, ◌%◌, ◌<◌, ◌≤◌, true, length, IfOk, IfNone, IfSome};
ghost use Rattle.limits.specs.Limits.{column_limit};
ghost use Rattle.residue_theory.specs.Ranges.{HasNone, IsLeast};
ghost use Rattle.bit_table.specs.Bits.{bit_in};
ghost use Rattle.linear_algebra.specs.Products.{identity, transposed};
ghost use Rattle.dense_q.specs.Tables.{height, entry, IsTableOf};
ghost use Rattle.sparse_q.specs.Rows.{number_at};
ghost use Rattle.sparse_q.specs.Tables.{sparse_rows, number_in, has_number_in, HasSize, IsRowSet};

use crate::made::{column_of, row_of, unit_row};
use crate::row::SparseRow;
use bit_table::BitTable;
use dense_q::Mat;
use out_of_memory::NoMemory;
use residue_field::Field;
use row_entries::EntryMat;
use std::alloc::Global;
use std::marker::Model;
use std::mem;

/// A matrix with entries in F, at most 8,192 rows and as many columns, of which only the entries that are not zero are
/// kept. Rows and columns are counted from 0. Each row has room for all its columns, and there is a spare row: so no
/// operation on rows takes memory. Rows and columns come and go in room that is taken before.
#[derive(Drop)]
pub struct SparseMat<F: Field> {
    pub(crate) width: usize,
    pub(crate) rows: Vec<SparseRow<F>>,
    pub(crate) spare: SparseRow<F>,
    // rows that may come
    pub(crate) shelf: Vec<SparseRow<F>>,
    pub(crate) row_room: usize,
    pub(crate) column_room: usize,
}

impl<F: Field> Model for SparseMat<F> {
    ghost use Rattle.std.specs.Prelude.{map, vec_capacity};
    ghost use Rattle.sparse_q.specs.Storage.{AreSparseRows, HasShelf};
    ghost use Rattle.sparse_q.specs.Tables.{SparseTable};

    ghost Value = { SparseTable };

    ghost view = { λ m. record {
      width = m.width;
      rows = map (λ row. row.items) m.rows.items;
      row_room = m.row_room;
      column_room = m.column_room;
    } };

    ghost invariant = { λ m. AreSparseRows m.width m.rows.items m.spare.width
        × HasShelf m.rows.items m.shelf.items m.spare.room m.row_room m.column_room (vec_capacity m.rows)
        (vec_capacity m.shelf) };
}

impl<F: Field> SparseMat<F> {
    /// A matrix that is told by its entries, with room for all its places.
    pub fn of(alloc: Global, q: &EntryMat<F>) -> Result<SparseMat<F>, NoMemory>
        ensures size { IfOk result (HasSize (height q.now) q.now.width) }
        ensures numbers { IfOk result (λ m. number_in m ≡ entry q.now) }
    {
        let mut rows = Vec::with_capacity(alloc, q.rows())?;
        for i in 0..q.rows() {
            rows.push(row_of(alloc, q, i)?)?;
        }
        let spare = SparseRow::empty(alloc, q.cols())?;
        Ok(SparseMat {
            width: q.cols(),
            rows,
            spare,
            shelf: Vec::new(alloc),
            row_room: 0,
            column_room: 0,
        })
    }

    /// The matrix with rows and columns in each other's place: `listed` has a row of bits for each column, and in it a
    /// bit set for each row where the column has an entry that is not zero.
    pub fn turned(&self, alloc: Global, listed: &BitTable) -> Result<SparseMat<F>, NoMemory>
        requires columns { self.now.width ≤ listed.now.rows }
        requires rows { sparse_rows self.now ≤ listed.now.size }
        requires listed { (i j : ℕ) → i < sparse_rows self.now → j < self.now.width → number_in self.now i j ≢ 0 →
            bit_in listed.now j i ≡ true }
        requires outside { (i j : ℕ) → self.now.width ≤ j → number_in self.now i j ≡ 0 }
        ensures size { IfOk result (HasSize self.now.width (sparse_rows self.now)) }
        ensures numbers { IfOk result (λ m. number_in m ≡ transposed (number_in self.now)) }
    {
        let mut rows = Vec::with_capacity(alloc, self.cols())?;
        for j in 0..self.cols() {
            rows.push(column_of(alloc, self, listed, j)?)?;
        }
        let spare = SparseRow::empty(alloc, self.rows())?;
        Ok(SparseMat {
            width: self.rows(),
            rows,
            spare,
            shelf: Vec::new(alloc),
            row_room: 0,
            column_room: 0,
        })
    }

    /// The square matrix with 1 where row and column are the same, and 0 elsewhere.
    pub fn identity(alloc: Global, n: usize) -> Result<SparseMat<F>, NoMemory>
        requires { n ≤ column_limit }
        ensures size { IfOk result (HasSize n n) }
        ensures numbers { IfOk result (λ m. (i j : ℕ) → i < n → number_in m i j ≡ identity i j) }
    {
        let mut rows = Vec::with_capacity(alloc, n)?;
        for i in 0..n {
            rows.push(unit_row(alloc, n, i)?)?;
        }
        let spare = SparseRow::empty(alloc, n)?;
        Ok(SparseMat {
            width: n,
            rows,
            spare,
            shelf: Vec::new(alloc),
            row_room: 0,
            column_room: 0,
        })
    }

    /// The dense matrix with these entries.
    pub fn dense(&self, alloc: Global) -> Result<Mat<F>, NoMemory>
        ensures { IfOk result (IsTableOf (sparse_rows self.now) self.now.width (number_in self.now)) }
    {
        let mut m = Mat::zeros(alloc, self.rows.len(), self.width)?;
        for (i, row) in self.rows.iter().enumerate() {
            row.put_into(&mut m, i);
        }
        Ok(m)
    }

    /// Tells a proof that there are at most 8,192 rows and columns. It does nothing when it runs.
    pub fn is_matrix(&self)
        ensures few { sparse_rows self.now ≤ column_limit }
        ensures narrow { self.now.width ≤ column_limit }
    {
        // a proof knows what the type keeps once a field is read
        let _ = &self.rows;
    }

    /// How many rows there are.
    pub fn rows(&self) -> usize
        ensures rows { result ≡ sparse_rows self.now }
        ensures few { result ≤ column_limit }
    {
        self.rows.len()
    }

    /// How many columns there are.
    pub fn cols(&self) -> usize
        ensures cols { result ≡ self.now.width }
        ensures narrow { result ≤ column_limit }
    {
        self.width
    }

    /// The entry at row i and column j.
    pub fn get(&self, i: usize, j: usize) -> F
        requires { i < sparse_rows self.now }
        ensures { F.number result ≡ number_in self.now i j }
    {
        self.rows[i].at(j)
    }

    /// The first column from `from` on where row i has an entry that is not zero.
    pub fn next(&self, i: usize, from: usize) -> Option<usize>
        requires { i < sparse_rows self.now }
        ensures none { IfNone result (HasNone (has_number_in self.now i) from self.now.width) }
        ensures least { IfSome result (IsLeast (has_number_in self.now i) from self.now.width) }
    {
        self.rows[i].next(from)
    }

    /// Multiplies row i by a factor that is not zero.
    pub fn scale_row(&mut self, i: usize, factor: F)
        requires row { i < sparse_rows self.old }
        requires factor { F.number factor ≢ 0 }
        ensures { IsRowSet self.old self.new i (λ j. F.number factor * number_in self.old i j % F.modulus) }
    {
        self.rows[i].scale(factor);
    }

    /// Adds `factor` times row t to row i.
    pub fn add_row(&mut self, i: usize, t: usize, factor: F)
        requires target { i < sparse_rows self.old }
        requires source { t < sparse_rows self.old }
        ensures { IsRowSet self.old self.new i (λ j.
            (number_in self.old i j + F.number factor * number_in self.old t j) % F.modulus) }
    {
        self.spare.set_sum(&self.rows[i], &self.rows[t], factor);
        mem::swap(&mut self.rows[i], &mut self.spare);
    }

    /// Makes row i the same as row t of another matrix with as many columns.
    pub fn copy_row(&mut self, i: usize, other: &SparseMat<F>, t: usize)
        requires target { i < sparse_rows self.old }
        requires source { t < sparse_rows other.now }
        requires width { other.now.width ≡ self.old.width }
        ensures { IsRowSet self.old self.new i (number_in other.now t) }
    {
        self.rows[i].set(&other.rows[t]);
    }
}
