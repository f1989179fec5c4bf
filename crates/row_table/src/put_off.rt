//! A matrix to which changes of all rows are made later, many at a time.

ghost use Rattle.std.specs.Prelude.{◌≡◌, ◌≢◌, ℕ, ◌+◌, ◌*◌, ◌%◌, ◌<◌, ◌≤◌, map, length, slice_index, IfOk};
ghost use Rattle.limits.specs.Limits.{column_limit};
ghost use Rattle.linear_algebra.specs.RowOperations.{IsRowScaled};
ghost use Rattle.dense_q.specs.Tables.{Table, height, entry, HasSameSize};
ghost use Rattle.row_table.specs.PutOffs.{Kept, actual, most, waiting, HasSameShape, IsActuallySame, IsSettled};
ghost use Rattle.row_table.specs.Reductions.{IsReduced};
ghost use Rattle.row_table.specs.Places.{with_unit};

use dense_q::Mat;
use out_of_memory::NoMemory;
use residue_field::Field;
use row_entries::EntryMat;
use std::alloc::Global;
use std::marker::Model;

// How many changes may wait.
const MOST: usize = 16;

/// A matrix to whose rows multiples of one row are added over and over. Up to 16 such changes wait beside the stored
/// matrix, and are made together, row by row: so a row comes from memory once for 16 changes. Contracts speak of the
/// actual matrix, to which all changes are made. Rows and columns are counted from 0.
#[derive(Drop)]
pub struct PutOff<F: Field> {
    pub(crate) rows: usize,
    pub(crate) columns: usize,
    // these three have room for so many rows and columns, and perhaps for more
    pub(crate) stored: Mat<F>,
    pub(crate) factors: Mat<F>,
    pub(crate) pending: Mat<F>,
    count: usize,
}

impl<F: Field> Model for PutOff<F> {
    ghost use Rattle.row_table.specs.PutOffs.{Kept, AreKeptFactors};

    ghost Value = { Kept };

    ghost view = { λ t. record {
      rows = t.rows;
      columns = t.columns;
      stored = t.stored;
      factors = t.factors;
      pending = t.pending;
      count = t.count;
    } };

    ghost invariant = { λ t. AreKeptFactors (record {
      rows = t.rows;
      columns = t.columns;
      stored = t.stored;
      factors = t.factors;
      pending = t.pending;
      count = t.count;
    }) };
}

impl<F: Field> PutOff<F> {
    /// The matrix, with nothing that waits.
    pub fn open(alloc: Global, q: &EntryMat<F>) -> Result<PutOff<F>, NoMemory>
        ensures stored { IfOk result (λ t. t.stored ≡ q.now) }
        ensures count { IfOk result (λ t. t.count ≡ 0) }
        ensures rows { IfOk result (λ t. t.rows ≡ height q.now) }
        ensures columns { IfOk result (λ t. t.columns ≡ q.now.width) }
    {
        Ok(PutOff {
            rows: q.rows(),
            columns: q.cols(),
            stored: q.dense()?,
            factors: Mat::zeros(alloc, q.rows(), MOST)?,
            pending: Mat::zeros(alloc, MOST, q.cols())?,
            count: 0,
        })
    }

    /// How many rows there are.
    pub fn rows(&self) -> usize
        ensures rows { result ≡ self.now.rows }
        ensures few { result ≤ column_limit }
    {
        self.stored.is_matrix();
        self.rows
    }

    /// How many columns there are.
    pub fn columns(&self) -> usize
        ensures columns { result ≡ self.now.columns }
        ensures narrow { result ≤ column_limit }
    {
        self.stored.is_matrix();
        self.columns
    }

    /// The actual entry.
    pub fn entry(&self, i: usize, j: usize) -> F
        requires row { i < self.now.rows }
        requires column { j < self.now.columns }
        ensures { F.number result ≡ actual F.modulus self.now i j }
    {
        let mut sum = self.stored.get(i, j);
        for t in 0..self.count {
            sum = sum.plus_multiple(self.factors.get(i, t), self.pending.get(t, j));
        }
        sum.in_field();
        sum
    }

    /// Writes the actual entries of a column.
    pub fn column(&self, j: usize, column: &mut [F])
        requires column { j < self.now.columns }
        requires length { length column.old ≡ self.now.rows }
        ensures length { length column.new ≡ length column.old }
        ensures entries { (i : ℕ) → i < length column.old →
            slice_index (map F.number column.new) i ≡ actual F.modulus self.now i j }
    {
        for i in 0..self.rows() {
            column[i] = self.entry(i, j);
        }
    }

    // Makes what waits as change t for row i.
    fn make_one(&mut self, i: usize, t: usize)
        requires row { i < self.old.rows }
        requires waits { t < self.old.count }
        ensures shape { HasSameShape self.new self.old }
        ensures same { IsActuallySame F.modulus self.new self.old }
        ensures pending { self.new.pending ≡ self.old.pending }
        ensures count { self.new.count ≡ self.old.count }
        ensures made { entry self.new.factors i t ≡ 0 }
        ensures other_rows { (u w : ℕ) → u ≢ i → entry self.new.factors u w ≡ entry self.old.factors u w }
        ensures other_changes { (w : ℕ) → w ≢ t → entry self.new.factors i w ≡ entry self.old.factors i w }
    {
        let factor = self.factors.get(i, t);
        if factor.is_zero() {
            return;
        }
        self.stored.add_row_of(i, &self.pending, t, factor);
        put(&mut self.factors, i, t, F::zero());
    }

    // Makes all changes that wait for row i.
    fn settle(&mut self, i: usize)
        requires row { i < self.old.rows }
        ensures shape { HasSameShape self.new self.old }
        ensures same { IsActuallySame F.modulus self.new self.old }
        ensures pending { self.new.pending ≡ self.old.pending }
        ensures count { self.new.count ≡ self.old.count }
        ensures settled { IsSettled self.new i }
        ensures other_rows { (u w : ℕ) → u ≢ i → entry self.new.factors u w ≡ entry self.old.factors u w }
    {
        for t in 0..self.count {
            self.make_one(i, t);
        }
    }

    /// Makes all changes that wait.
    pub fn flush(&mut self)
        ensures shape { HasSameShape self.new self.old }
        ensures same { IsActuallySame F.modulus self.new self.old }
        ensures count { self.new.count ≡ 0 }
    {
        for i in 0..self.rows() {
            self.settle(i);
        }
        self.count = 0;
    }

    /// Multiplies row i by c.
    pub fn scale_row(&mut self, i: usize, c: F)
        requires row { i < self.old.rows }
        ensures shape { HasSameShape self.new self.old }
        ensures scaled { IsRowScaled F.modulus self.old.rows self.old.columns
            (actual F.modulus self.old) (actual F.modulus self.new) i (F.number c) }
    {
        self.settle(i);
        self.stored.scale_row(i, c);
    }

    /// Puts the unit column of row r in the place of column j.
    pub fn put_unit(&mut self, j: usize, r: usize)
        requires row { r < self.old.rows }
        requires column { j < self.old.columns }
        ensures shape { HasSameShape self.new self.old }
        ensures put { (i c : ℕ) → i < self.old.rows → c < self.old.columns →
            actual F.modulus self.new i c ≡ with_unit (actual F.modulus self.old) r j i c }
    {
        clear_column(&mut self.pending, j);
        clear_column(&mut self.stored, j);
        put(&mut self.stored, r, j, F::one());
    }

    /// Adds multiples of row r to all other rows: the factor at i times row r to row i. That of row r is not read.
    pub fn add(&mut self, r: usize, factors: &[F])
        requires row { r < self.old.rows }
        requires length { length factors.now ≡ self.old.rows }
        ensures shape { HasSameShape self.new self.old }
        ensures here { (j : ℕ) → j < self.old.columns →
            actual F.modulus self.new r j ≡ actual F.modulus self.old r j }
        ensures others { (i j : ℕ) → i < self.old.rows → j < self.old.columns → i ≢ r →
            actual F.modulus self.new i j ≡ (actual F.modulus self.old i j
            + slice_index (map F.number factors.now) i * actual F.modulus self.old r j) % F.modulus }
    {
        self.settle(r);
        if self.count == MOST {
            self.flush();
        }
        self.put_change(r, factors);
    }

    // Lets multiples of row r, for which nothing waits, wait.
    fn put_change(&mut self, r: usize, factors: &[F])
        requires row { r < self.old.rows }
        requires length { length factors.now ≡ self.old.rows }
        requires room { self.old.count < most }
        requires settled { IsSettled self.old r }
        ensures shape { HasSameShape self.new self.old }
        ensures here { (j : ℕ) → j < self.old.columns →
            actual F.modulus self.new r j ≡ actual F.modulus self.old r j }
        ensures others { (i j : ℕ) → i < self.old.rows → j < self.old.columns → i ≢ r →
            actual F.modulus self.new i j ≡ (actual F.modulus self.old i j
            + slice_index (map F.number factors.now) i * actual F.modulus self.old r j) % F.modulus }
    {
        self.pending.copy_row_of(self.count, &self.stored, r);
        put_column(&mut self.factors, self.count, factors);
        put(&mut self.factors, r, self.count, F::zero());
        self.count += 1;
    }

    /// Makes an exchange at row r and column j, where the entry is not zero: the unit column of row r takes the place
    /// of column j, and the row operations follow that make the column that stood there that unit column. `space` has
    /// an item for each row; its old values are not read.
    pub fn exchange(&mut self, r: usize, j: usize, space: &mut [F])
        requires row { r < self.old.rows }
        requires column { j < self.old.columns }
        requires length { length space.old ≡ self.old.rows }
        requires entry { actual F.modulus self.old r j ≢ 0 }
        ensures length { length space.new ≡ length space.old }
        ensures shape { HasSameShape self.new self.old }
        ensures reduced { IsReduced F.modulus self.old.rows self.old.columns
            (with_unit (actual F.modulus self.old) r j) (actual F.modulus self.new) r
            (λ i. actual F.modulus self.old i j) }
    {
        self.column(j, space);
        let inverse = space[r].inv().unwrap();
        self.put_unit(j, r);
        self.scale_row(r, inverse);
        negate(space);
        self.add(r, space);
    }
}

// Puts an entry, told entry by entry.
pub(crate) fn put<F: Field>(m: &mut Mat<F>, i: usize, j: usize, value: F)
    requires row { i < height m.old }
    requires column { j < m.old.width }
    ensures size { HasSameSize m.new m.old }
    ensures here { entry m.new i j ≡ F.number value }
    ensures other_rows { (u w : ℕ) → u ≢ i → entry m.new u w ≡ entry m.old u w }
    ensures other_columns { (w : ℕ) → w ≢ j → entry m.new i w ≡ entry m.old i w }
{
    m.is_matrix();
    m.set(i, j, value);
}

// Takes all entries of a column away.
pub(crate) fn clear_column<F: Field>(m: &mut Mat<F>, j: usize)
    requires { j < m.old.width }
    ensures size { HasSameSize m.new m.old }
    ensures cleared { (i : ℕ) → i < height m.old → entry m.new i j ≡ 0 }
    ensures others { (i c : ℕ) → c ≢ j → entry m.new i c ≡ entry m.old i c }
{
    for i in 0..m.rows() {
        put(m, i, j, F::zero());
    }
}

// Puts values in the place of a column.
fn put_column<F: Field>(m: &mut Mat<F>, j: usize, column: &[F])
    requires column { j < m.old.width }
    requires length { length column.now ≤ height m.old }
    ensures size { HasSameSize m.new m.old }
    ensures put { (i : ℕ) → i < length column.now → entry m.new i j ≡ slice_index (map F.number column.now) i }
    ensures others { (i c : ℕ) → c ≢ j → entry m.new i c ≡ entry m.old i c }
{
    for i in 0..column.len() {
        put(m, i, j, column[i]);
    }
}

// Puts the negative of each value in its place.
fn negate<F: Field>(column: &mut [F])
    ensures length { length column.new ≡ length column.old }
    ensures negative { (i : ℕ) → i < length column.old →
        (slice_index (map F.number column.old) i + slice_index (map F.number column.new) i) % F.modulus ≡ 0 }
{
    for i in 0..column.len() {
        column[i] = column[i].neg();
    }
}
