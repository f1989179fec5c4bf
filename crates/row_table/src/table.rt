//! A tableau's matrices P and S in one table, with U read off Q.

ghost use Rattle.std.specs.Prelude.{◌≡◌, ◌≢◌, ℕ, ◌+◌, ◌%◌, ◌<◌, ◌≤◌, true, false, cond, eqb, IfOk};
ghost use Rattle.limits.specs.Limits.{column_limit};
ghost use Rattle.linear_algebra.specs.Products.{identity};
ghost use Rattle.linear_algebra.specs.RowOperations.{IsPivoted};
ghost use Rattle.dense_q.specs.Tables.{Table, height, entry, HasSameSize, IsTableOf};
ghost use Rattle.sparse_q.specs.Tables.{number_in, sparse_rows};
ghost use Rattle.row_table.specs.Places.{exchanged, with_units};
ghost use Rattle.row_table.specs.Layouts.{layout_places};
ghost use Rattle.row_table.specs.Reductions.{IsReduced, ZeroColumnsStay, ZeroRowsStay};
ghost use Rattle.row_table.specs.RowTables.{Combined, entries, p_part, s_part, u_part, IsCombined};

use crate::layout::Placement;
use crate::put_off::{PutOff, put};
use dense_q::Mat;
use out_of_memory::NoMemory;
use residue_field::Field;
use row_entries::EntryMat;
use sparse_q::SparseMat;
use std::alloc::Global;
use std::marker::Model;

/// A matrix Q, P = S * Q after pivots, the matrix S of all row operations, and its inverse U. Of the columns of
/// [P | S], as many as there are rows are unit columns, one for each row; the table holds the others, in place. The
/// columns of [Q | 1] that are these unit columns make U, which so costs nothing until it is asked for. Rows and
/// columns are counted from 0. (Murota 2000, chapter 2.)
#[derive(Drop)]
pub struct RowTable<F: Field> {
    pub(crate) q: SparseMat<F>,
    pub(crate) table: PutOff<F>,
    pub(crate) places: Placement,
    pub(crate) space: Vec<F>,
    pub(crate) row_room: usize,
    pub(crate) column_room: usize,
}

impl<F: Field> Model for RowTable<F> {
    ghost use Rattle.std.specs.Prelude.{◌≡◌, length, vec_capacity};
    ghost use Rattle.sparse_q.specs.Tables.{sparse_rows};
    ghost use Rattle.row_table.specs.RowTables.{Combined, HasTableRoom, IsCombined};

    ghost Value = { Combined };

    ghost view = { λ t. record {
      q = t.q;
      kept = t.table;
      layout = t.places;
      row_room = t.row_room;
      column_room = t.column_room;
    } };

    ghost invariant = { λ t. IsCombined F.modulus (record {
      q = t.q;
      kept = t.table;
      layout = t.places;
      row_room = t.row_room;
      column_room = t.column_room;
    }) × (length t.space.items ≡ sparse_rows t.q) × HasTableRoom (record {
      q = t.q;
      kept = t.table;
      layout = t.places;
      row_room = t.row_room;
      column_room = t.column_room;
    }) (vec_capacity t.space) };
}

impl<F: Field> RowTable<F> {
    /// Before any pivot.
    pub fn open(alloc: Global, q: &EntryMat<F>) -> Result<RowTable<F>, NoMemory>
        ensures rows { IfOk result (λ t. sparse_rows t.q ≡ height q.now) }
        ensures columns { IfOk result (λ t. t.q.width ≡ q.now.width) }
        ensures q { IfOk result (λ t. number_in t.q ≡ entry q.now) }
        ensures p { IfOk result (λ t. p_part F.modulus t ≡ entry q.now) }
        ensures s { IfOk result (λ t. (i j : ℕ) → i < height q.now → j < height q.now →
            s_part F.modulus t i j ≡ identity i j) }
        ensures u { IfOk result (λ t. (i j : ℕ) → i < height q.now → j < height q.now →
            u_part t i j ≡ identity i j) }
    {
        q.in_field();
        let (rows, columns) = (q.rows(), q.cols());
        let table = PutOff::open(alloc, q)?;
        let places = Placement::first(alloc, rows, columns)?;
        let space = vec![in alloc; F::zero(); rows]?;
        Ok(RowTable {
            q: SparseMat::of(alloc, q)?,
            table,
            places,
            space,
            row_room: 0,
            column_room: 0,
        })
    }

    /// Tells a proof what a table keeps, and that it has at most 8,192 rows and columns. It does nothing when it runs.
    pub fn is_table(&self)
        ensures few { sparse_rows self.now.q ≤ column_limit }
        ensures narrow { self.now.q.width ≤ column_limit }
        ensures combined { IsCombined F.modulus self.now }
    {
        self.q.is_matrix();
    }

    /// How many rows there are.
    pub fn rows(&self) -> usize
        ensures rows { result ≡ sparse_rows self.now.q }
        ensures few { result ≤ column_limit }
        ensures combined { IsCombined F.modulus self.now }
    {
        self.q.rows()
    }

    /// How many columns Q has.
    pub fn columns(&self) -> usize
        ensures columns { result ≡ self.now.q.width }
        ensures narrow { result ≤ column_limit }
        ensures combined { IsCombined F.modulus self.now }
    {
        self.q.cols()
    }

    /// An entry of [P | S].
    pub fn entry(&self, row: usize, column: usize) -> F
        requires row { row < sparse_rows self.now.q }
        requires column { column < self.now.q.width + sparse_rows self.now.q }
        ensures { F.number result ≡ entries F.modulus self.now row column }
    {
        if self.places.is_unit(column) {
            if self.places.row(column) == row {
                F::one()
            } else {
                F::zero()
            }
        } else {
            self.table.entry(row, self.places.slot(column))
        }
    }

    /// Makes a column of P the unit column of a row, where its entry is not zero.
    pub fn pivot(&mut self, row: usize, column: usize)
        requires row { row < sparse_rows self.old.q }
        requires column { column < self.old.q.width }
        requires entry { p_part F.modulus self.old row column % F.modulus ≢ 0 }
        ensures q { self.new.q ≡ self.old.q }
        ensures pivoted { IsPivoted F.modulus (sparse_rows self.old.q) self.old.q.width (p_part F.modulus self.old)
            (p_part F.modulus self.new) row column }
        ensures basic { (i : ℕ) → i < sparse_rows self.old.q → (layout_places self.new.layout).basic i
            ≡ cond (eqb i row) column ((layout_places self.old.layout).basic i) }
        ensures zero_columns { ZeroColumnsStay F.modulus (sparse_rows self.old.q) (s_part F.modulus self.old)
            (s_part F.modulus self.new) row }
        ensures row_room { self.new.row_room ≡ self.old.row_room }
        ensures column_room { self.new.column_room ≡ self.old.column_room }
        ensures rest { ZeroRowsStay F.modulus (sparse_rows self.old.q) self.old.q.width (p_part F.modulus self.old)
            (p_part F.modulus self.new) row column }
    {
        if !self.places.is_unit(column) {
            self.exchange(row, column);
        }
    }

    // Makes a column of [P | S] that is no unit column that of a row, where its entry is not zero.
    pub(crate) fn exchange(&mut self, row: usize, column: usize)
        requires row { row < sparse_rows self.old.q }
        requires column { column < self.old.q.width + sparse_rows self.old.q }
        requires other { (layout_places self.old.layout).is_unit column ≡ false }
        requires entry { entries F.modulus self.old row column % F.modulus ≢ 0 }
        ensures q { self.new.q ≡ self.old.q }
        ensures places { layout_places self.new.layout ≡ exchanged (layout_places self.old.layout) row column }
        ensures p { IsReduced F.modulus (sparse_rows self.old.q) self.old.q.width (p_part F.modulus self.old)
            (p_part F.modulus self.new) row (λ i. entries F.modulus self.old i column) }
        ensures s { IsReduced F.modulus (sparse_rows self.old.q) (sparse_rows self.old.q) (s_part F.modulus self.old)
            (s_part F.modulus self.new) row (λ i. entries F.modulus self.old i column) }
        ensures row_room { self.new.row_room ≡ self.old.row_room }
        ensures column_room { self.new.column_room ≡ self.old.column_room }
    {
        let slot = self.places.slot(column);
        self.table.exchange(row, slot, &mut self.space);
        self.places.exchange(row, column);
    }

    // An entry of [Q | 1].
    fn first_entry(&self, row: usize, column: usize) -> F
        requires row { row < sparse_rows self.now.q }
        requires column { column < self.now.q.width + sparse_rows self.now.q }
        ensures { F.number result ≡ with_units self.now.q.width (number_in self.now.q) row column }
    {
        let columns = self.q.cols();
        if column < columns {
            self.q.get(row, column)
        } else if row == column - columns {
            F::one()
        } else {
            F::zero()
        }
    }

    /// An entry of U.
    pub fn u_entry(&self, row: usize, column: usize) -> F
        requires row { row < sparse_rows self.now.q }
        requires column { column < sparse_rows self.now.q }
        ensures { F.number result ≡ u_part self.now row column }
    {
        self.first_entry(row, self.places.basic(column))
    }

    // Copies columns of [P | S] from `start` on into row i of a matrix.
    fn fill_row(&self, m: &mut Mat<F>, i: usize, start: usize)
        requires row { i < height m.old }
        requires in_q { i < sparse_rows self.now.q }
        requires columns { start + m.old.width ≤ self.now.q.width + sparse_rows self.now.q }
        ensures size { HasSameSize m.new m.old }
        ensures filled { (j : ℕ) → j < m.old.width → entry m.new i j ≡ entries F.modulus self.now i (start + j) }
        ensures others { (u w : ℕ) → u ≢ i → entry m.new u w ≡ entry m.old u w }
    {
        // there are at most 8,192 rows and columns, so that the sum below fits
        let (_rows, _columns) = (self.rows(), self.columns());
        for j in 0..m.cols() {
            put(m, i, j, self.entry(i, start + j));
        }
    }

    // Copies a column of U.
    fn fill_column(&self, m: &mut Mat<F>, j: usize)
        requires column { j < m.old.width }
        requires in_q { j < sparse_rows self.now.q }
        requires rows { height m.old ≡ sparse_rows self.now.q }
        ensures size { HasSameSize m.new m.old }
        ensures filled { (i : ℕ) → i < height m.old → entry m.new i j ≡ u_part self.now i j }
        ensures others { (i w : ℕ) → w ≢ j → entry m.new i w ≡ entry m.old i w }
    {
        for i in 0..m.rows() {
            put(m, i, j, self.u_entry(i, j));
        }
    }

    // So many columns of [P | S] from `start` on.
    fn part(&self, start: usize, count: usize) -> Result<Mat<F>, NoMemory>
        requires count { count ≤ column_limit }
        requires columns { start + count ≤ self.now.q.width + sparse_rows self.now.q }
        ensures { IfOk result (λ m. IsTableOf (sparse_rows self.now.q) count
            (λ i j. entries F.modulus self.now i (start + j)) m) }
    {
        let rows = self.q.rows();
        let mut m = Mat::zeros(*self.space.allocator(), rows, count)?;
        for i in 0..rows {
            self.fill_row(&mut m, i, start);
        }
        Ok(m)
    }

    /// The matrix P.
    pub fn p(&self) -> Result<Mat<F>, NoMemory>
        ensures { IfOk result (λ m. IsTableOf (sparse_rows self.now.q) self.now.q.width
            (entries F.modulus self.now) m) }
    {
        self.part(0, self.q.cols())
    }

    /// The matrix S.
    pub fn s(&self) -> Result<Mat<F>, NoMemory>
        ensures { IfOk result (λ m. IsTableOf (sparse_rows self.now.q) (sparse_rows self.now.q)
            (s_part F.modulus self.now) m) }
    {
        self.part(self.q.cols(), self.q.rows())
    }

    /// The matrix U.
    pub fn u(&self) -> Result<Mat<F>, NoMemory>
        ensures { IfOk result (λ m. IsTableOf (sparse_rows self.now.q) (sparse_rows self.now.q) (u_part self.now) m) }
    {
        let rows = self.q.rows();
        let mut m = Mat::zeros(*self.space.allocator(), rows, rows)?;
        for j in 0..rows {
            self.fill_column(&mut m, j);
        }
        Ok(m)
    }
}
