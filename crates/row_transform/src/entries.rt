//! In which rows the columns of a matrix have entries.

ghost use Rattle.std.specs.Prelude.{◌≡◌, ◌≢◌, ℕ, ◌+◌, ◌<◌, ◌≤◌, true, IfOk, IfSome, IfNone, OnOk, OnErr};
ghost use Rattle.residue_theory.specs.Ranges.{HasNone, IsLeast};
ghost use Rattle.dense_q.specs.Tables.{height, entry};
ghost use Rattle.sparse_q.specs.Tables.{sparse_rows};
ghost use Rattle.row_table.specs.RowTables.{p_part};
ghost use Rattle.bit_table.specs.Bits.{bit_in};
ghost use Rattle.row_transform.specs.Entries.{HasSizeOf, HasTableSize, AreRowsListed, IsSpread, KeepsListed};
ghost use Rattle.row_transform.specs.Entries.{IsBitRowCopied, IsColumnListedIn, IsColumnListedOut, IsRowListedAs};

use bit_table::BitTable;
use out_of_memory::NoMemory;
use residue_field::Field;
use row_entries::EntryMat;
use row_table::RowTable;
use std::alloc::Global;

/// For each column of a matrix a list of rows: each row where the column has an entry that is not zero, and perhaps rows
/// where it had one until a pivot cancelled it, since to look for these would cost more than to ask the matrix later. It
/// has room for the columns and rows of the matrix, and perhaps for more.
#[derive(Drop)]
pub struct Entries {
    /// A row of bits for each column, and in it a bit for each row of the matrix.
    pub bits: BitTable,
}

/// How many rows and columns there are.
#[derive(Clone, Copy)]
pub struct Size {
    pub rows: usize,
    pub columns: usize,
}

impl Entries {
    /// The entries of a matrix.
    pub fn of<F: Field>(alloc: Global, q: &EntryMat<F>) -> Result<Entries, NoMemory>
        ensures { IfOk result (λ e. AreRowsListed (height q.now) q.now.width (λ i j. entry q.now i j ≢ 0) e.bits) }
    {
        let bits = BitTable::open(alloc, q.cols(), q.rows())?;
        let mut entries = Entries { bits };
        for row in 0..q.rows() {
            entries.list_row(q, row);
        }
        Ok(entries)
    }

    /// The entries of a square matrix that has them where row and column are the same.
    pub fn diagonal(alloc: Global, count: usize) -> Result<Entries, NoMemory>
        ensures { IfOk result (λ e. AreRowsListed count count (λ i j. i ≡ j) e.bits) }
    {
        let mut bits = BitTable::open(alloc, count, count)?;
        for row in 0..count {
            bits.set(row, row);
        }
        Ok(Entries { bits })
    }

    // Lists the entries of a row.
    fn list_row<F: Field>(&mut self, q: &EntryMat<F>, row: usize)
        requires row { row < height q.now }
        requires size { HasSizeOf (height q.now) q.now.width self.old.bits }
        ensures size { HasTableSize self.old.bits self.new.bits }
        ensures listed { (j : ℕ) → j < q.now.width → entry q.now row j ≢ 0 → bit_in self.new.bits j row ≡ true }
        ensures kept { (i j : ℕ) → i < height q.now → bit_in self.old.bits j i ≡ true →
            bit_in self.new.bits j i ≡ true }
    {
        // there are at most 8,192 columns, so that the sum below fits
        q.is_matrix();
        let mut from = 0;
        while let Some((col, _)) = q.next(row, from) {
            self.bits.set(col, row);
            from = col + 1;
        }
    }

    /// The first row from `from` on and below `rows` that is listed for a column.
    pub fn next(&self, col: usize, from: usize, rows: usize) -> Option<usize>
        requires col { col < self.now.bits.rows }
        requires rows { rows ≤ self.now.bits.size }
        ensures none { IfNone result (HasNone (bit_in self.now.bits col) from rows) }
        ensures least { IfSome result (IsLeast (bit_in self.now.bits col) from rows) }
    {
        self.bits.next(col, from, rows)
    }

    // Lists what a pivot of P at a row and a column is about to make of the entries of other columns: it adds multiples
    // of the row to all rows with an entry in the column.
    pub(crate) fn spread<F: Field>(&mut self, table: &RowTable<F>, row: usize, col: usize)
        requires row { row < sparse_rows table.now.q }
        requires col { col < table.now.q.width }
        requires size { HasSizeOf (sparse_rows table.now.q) table.now.q.width self.old.bits }
        ensures size { HasTableSize self.old.bits self.new.bits }
        ensures spread { IsSpread (sparse_rows table.now.q) table.now.q.width (p_part F.modulus table.now)
            (bit_in self.old.bits) (bit_in self.new.bits) row col }
    {
        for other in 0..table.columns() {
            if other != col && !table.entry(row, other).is_zero() {
                self.bits.join(other, col);
            }
        }
    }

    /// Lists this row alone for a column.
    pub fn close(&mut self, row: usize, col: usize)
        requires row { row < self.old.bits.size }
        requires col { col < self.old.bits.rows }
        ensures here { bit_in self.new.bits col row ≡ true }
        ensures others { (i j : ℕ) → i < self.old.bits.size → j ≢ col →
            bit_in self.new.bits j i ≡ bit_in self.old.bits j i }
        ensures rows { self.new.bits.rows ≡ self.old.bits.rows }
        ensures size { self.new.bits.size ≡ self.old.bits.size }
    {
        self.bits.clear_row(col);
        self.bits.set(col, row);
    }

    /// Takes room for so many rows and columns, in place of what there is for the rows and columns of the matrix. What is
    /// listed for the matrix stays. A refusal leaves all as it was.
    pub fn room(&mut self, alloc: Global, matrix: Size, room: Size) -> Result<(), NoMemory>
        requires held { HasSizeOf matrix.rows matrix.columns self.old.bits }
        requires rows { matrix.rows ≤ room.rows }
        requires columns { matrix.columns ≤ room.columns }
        ensures size { OnOk result (HasSizeOf room.rows room.columns self.new.bits) }
        ensures kept { KeepsListed matrix.rows matrix.columns self.old.bits self.new.bits }
        ensures err { OnErr result (self.new ≡ self.old) }
    {
        let mut bits = BitTable::open(alloc, room.columns, room.rows)?;
        for col in 0..matrix.columns {
            copy_column(&self.bits, &mut bits, col, matrix.rows);
        }
        self.bits = bits;
        Ok(())
    }

    /// Puts in a column `at`, for which no row is listed, where there were so many columns.
    pub fn insert_column(&mut self, at: usize, columns: usize)
        requires at { at ≤ columns }
        requires room { columns < self.old.bits.rows }
        ensures { IsColumnListedIn columns self.old.bits self.new.bits at }
    {
        let mut col = columns;
        while col > at {
            self.copy(col, col - 1);
            col -= 1;
        }
        self.bits.clear_row(at);
    }

    /// Takes out column `at` of so many columns.
    pub fn remove_column(&mut self, at: usize, columns: usize)
        requires at { at < columns }
        requires columns { columns ≤ self.old.bits.rows }
        ensures { IsColumnListedOut columns self.old.bits self.new.bits at }
    {
        for col in at..columns - 1 {
            self.copy(col, col + 1);
        }
    }

    /// Lists row `row` for each of so many columns for which row `like` is listed.
    pub fn list_as(&mut self, row: usize, like: usize, columns: usize)
        requires row { row < self.old.bits.size }
        requires like { like < self.old.bits.size }
        requires columns { columns ≤ self.old.bits.rows }
        ensures { IsRowListedAs columns self.old.bits self.new.bits like row }
    {
        for col in 0..columns {
            if self.bits.get(col, like) {
                self.bits.set(col, row);
            }
        }
    }

    // Lists for a column the rows that are listed for another one.
    fn copy(&mut self, to: usize, from: usize)
        requires to { to < self.old.bits.rows }
        requires from { from < self.old.bits.rows }
        requires apart { to ≢ from }
        ensures { IsBitRowCopied self.old.bits self.new.bits to from }
    {
        self.bits.clear_row(to);
        self.bits.join(to, from);
    }
}

// Sets of a row of bits those below `rows` that are set in the same row of another table.
fn copy_column(from: &BitTable, into: &mut BitTable, col: usize, rows: usize)
    requires col { col < from.now.rows }
    requires rows { rows ≤ from.now.size }
    requires into_col { col < into.old.rows }
    requires into_rows { rows ≤ into.old.size }
    ensures size { HasTableSize into.old into.new }
    ensures copied { (i : ℕ) → i < rows → bit_in from.now col i ≡ true → bit_in into.new col i ≡ true }
    ensures kept { (i j : ℕ) → i < into.old.size → bit_in into.old j i ≡ true → bit_in into.new j i ≡ true }
{
    let mut at = 0;
    while let Some(row) = from.next(col, at, rows) {
        into.set(col, row);
        at = row + 1;
    }
}
