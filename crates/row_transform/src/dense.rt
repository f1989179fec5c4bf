//! A tableau of dense matrices.

ghost use Rattle.std.specs.Prelude.{◌≡◌, ◌≢◌, ℕ, ◌<◌, ◌≤◌, ◌%◌, Bool, true, false, IfOk};
ghost use Rattle.std.specs.Prelude.{IfNone, IfSome, IsFalse, IsTrue};
ghost use Rattle.dense_q.specs.Tables.{height, entry};
ghost use Rattle.bit_table.specs.Bits.{bit_in};
ghost use Rattle.sparse_q.specs.Tables.{number_in, sparse_rows};
ghost use Rattle.row_table.specs.RowTables.{p_part, s_part};
ghost use Rattle.row_table.specs.TableEdits.{IsTableWithoutRow};
ghost use Rattle.row_transform.specs.Bases.{base_row, is_base, IsBaseDropped};
ghost use Rattle.row_transform.specs.Entries.{HasSizeOf, HasTableSize};
ghost use Rattle.row_transform.specs.Tableaus.{IsOpened};
ghost use Rattle.row_transform.specs.Dense.{dense_room, dense_state, IsBareRow, IsLeavingRow};

use crate::base::Base;
use crate::entries::{Entries, Size};
use crate::tableau::{Tableau, TableauParts, Which};
use limits::grown;
use out_of_memory::NoMemory;
use residue_field::Field;
use row_entries::EntryMat;
use row_table::RowTable;
use std::alloc::Global;
use std::marker::Model;
use tableau_edit_laws::laws;

/// A tableau that keeps P and S in one table, in which pivots are put off, and for each column the rows where P may
/// have an entry that is not zero: a search of the exchange graph asks for the entries of a column at each of its
/// looks, and most are zero.
#[derive(Drop)]
pub struct DenseTableau<F: Field> {
    alloc: Global,
    table: RowTable<F>,
    entries: Entries,
    base: Base,
    row_room: usize,
    column_room: usize,
}

impl<F: Field> Model for DenseTableau<F> {
    ghost use Rattle.sparse_q.specs.Tables.{sparse_rows};
    ghost use Rattle.row_table.specs.RowTables.{p_part};
    ghost use Rattle.row_transform.specs.Dense.{Dense, HasDenseRoom, IsDense};
    ghost use Rattle.row_transform.specs.Entries.{AreEntriesListed};

    ghost Value = { Dense };

    ghost view = { λ t. record {
      table = t.table;
      base = t.base;
      row_room = t.row_room;
      column_room = t.column_room;
    } };

    ghost invariant = { λ t. IsDense F.modulus (record {
      table = t.table;
      base = t.base;
      row_room = t.row_room;
      column_room = t.column_room;
    }) × AreEntriesListed F.modulus (sparse_rows t.table.q) t.table.q.width (p_part F.modulus t.table) t.entries.bits
        × HasDenseRoom (record {
          table = t.table;
          base = t.base;
          row_room = t.row_room;
          column_room = t.column_room;
        }) t.entries.bits };
}

impl<F: Field> Tableau<F> for DenseTableau<F> {
    ghost state = { dense_state F.modulus };

    ghost pivots = { λ d. d.base.takes };

    ghost room_of = { dense_room };

    fn open(alloc: Global, q: &EntryMat<F>) -> Result<Self, NoMemory> {
        Ok(DenseTableau {
            alloc,
            table: RowTable::open(alloc, q)?,
            entries: Entries::of(alloc, q)?,
            base: Base::empty(alloc, q.rows(), q.cols())?,
            row_room: 0,
            column_room: 0,
        })
    }

    fn base(&self) -> &Base {
        &self.base
    }

    fn rows(&self) -> usize {
        self.table.rows()
    }

    fn columns(&self) -> usize {
        self.table.columns()
    }

    fn entry(&self, row: usize, col: usize) -> F {
        let entry = self.table.entry(row, col);
        entry.in_field();
        entry
    }

    fn next_candidate(&self, col: usize, from: usize) -> Option<usize> {
        self.entries.next(col, from, self.table.rows())
    }

    fn pivot(&mut self, row: usize, col: usize) {
        self.entries.spread(&self.table, row, col);
        self.table.pivot(row, col);
        self.entries.close(row, col);
        self.base.take(row, col);
    }

    fn drop_base(&mut self, col: usize) {
        self.base.leave(col);
    }

    fn room(&mut self, rows: usize, cols: usize) -> Result<(), NoMemory> {
        if rows <= self.row_room && cols <= self.column_room {
            return Ok(());
        }
        let rows = grown(self.row_room, rows);
        let cols = grown(self.column_room, cols);
        let matrix = Size {
            rows: self.table.rows(),
            columns: self.table.columns(),
        };
        let room = Size {
            rows: rows.max(matrix.rows),
            columns: cols.max(matrix.columns),
        };
        self.table.room(room.rows, room.columns)?;
        self.base.room(room.rows, room.columns)?;
        self.entries.room(self.alloc, matrix, room)?;
        self.row_room = room.rows;
        self.column_room = room.columns;
        Ok(())
    }

    fn insert_row(&mut self, at: usize, items: &[F]) {
        let row = self.table.rows();
        self.table.insert_row(at, items);
        list_row(&mut self.entries, &self.table, row);
        self.base.insert_row(row);
        self.table.is_table();
    }

    fn remove_row(&mut self, at: usize) -> Option<usize> {
        laws::bases_stay_independent_without_a_row();
        laws::some_row_of_s_has_an_entry();
        self.is_tableau();
        let row = self.leaving_row(at).unwrap();
        let told = self.free_row(row);
        self.take_row(at, row);
        told
    }

    fn insert_column(&mut self, at: usize) {
        let columns = self.table.columns();
        self.table.insert_column(at);
        self.entries.insert_column(at, columns);
        self.base.insert_column(at);
        self.table.is_table();
    }

    fn remove_column(&mut self, at: usize) {
        let columns = self.table.columns();
        self.table.remove_column(at);
        self.entries.remove_column(at, columns);
        self.base.remove_column(at);
        self.table.is_table();
    }

    fn entry_of(&self, which: Which, row: usize, col: usize) -> F {
        // there are at most 8,192 rows and columns, so that the sum fits
        self.is_tableau();
        let entry = match which {
            Which::S => self.table.entry(row, self.columns() + col),
            Which::U => self.table.u_entry(row, col),
            Which::P => self.table.entry(row, col),
        };
        entry.in_field();
        entry
    }

    fn parts(&self) -> Result<TableauParts<F>, NoMemory> {
        Ok(TableauParts {
            s: self.table.s()?,
            u: self.table.u()?,
            p: self.table.p()?,
        })
    }
}

impl<F: Field> DenseTableau<F> {
    // A row of P where column `at` of S has an entry that is not zero; one without base column, if there is one.
    fn leaving_row(&self, at: usize) -> Option<usize>
        requires { at < sparse_rows self.now.table.q }
        ensures chosen { IfSome result (IsLeavingRow F.modulus self.now at) }
        ensures none { IfNone result ((i : ℕ) → i < sparse_rows self.now.table.q →
            s_part F.modulus self.now.table i at % F.modulus ≡ 0) }
    {
        match self.bare_row(at) {
            Some(row) => Some(row),
            None => self.row_with_entry(at),
        }
    }

    // The first row of P without base column where column `at` of S has an entry that is not zero.
    fn bare_row(&self, at: usize) -> Option<usize>
        requires { at < sparse_rows self.now.table.q }
        ensures below { IfSome result (λ row. row < sparse_rows self.now.table.q) }
        ensures entry { IfSome result (λ row. s_part F.modulus self.now.table row at % F.modulus ≢ 0) }
        ensures bare { IfSome result (IsBareRow self.now) }
        ensures none { IfNone result ((i : ℕ) → i < sparse_rows self.now.table.q → IsBareRow self.now i →
            s_part F.modulus self.now.table i at % F.modulus ≡ 0) }
    {
        for row in 0..self.table.rows() {
            if self.has_entry(row, at) && self.base.column_of(row).is_none() {
                return Some(row);
            }
        }
        None
    }

    // The first row of P where column `at` of S has an entry that is not zero.
    fn row_with_entry(&self, at: usize) -> Option<usize>
        requires { at < sparse_rows self.now.table.q }
        ensures below { IfSome result (λ row. row < sparse_rows self.now.table.q) }
        ensures entry { IfSome result (λ row. s_part F.modulus self.now.table row at % F.modulus ≢ 0) }
        ensures none { IfNone result ((i : ℕ) → i < sparse_rows self.now.table.q →
            s_part F.modulus self.now.table i at % F.modulus ≡ 0) }
    {
        for row in 0..self.table.rows() {
            if self.has_entry(row, at) {
                return Some(row);
            }
        }
        None
    }

    // Whether column `at` of S has an entry in a row that is not zero.
    fn has_entry(&self, row: usize, at: usize) -> bool
        requires row { row < sparse_rows self.now.table.q }
        requires at { at < sparse_rows self.now.table.q }
        ensures some { IsTrue result → s_part F.modulus self.now.table row at % F.modulus ≢ 0 }
        ensures none { IsFalse result → s_part F.modulus self.now.table row at % F.modulus ≡ 0 }
    {
        let entry = self.entry_of(Which::S, row, at);
        entry.in_field();
        !entry.is_zero()
    }

    // Takes the base column of a row out of the base, and gives it, if there is one.
    fn free_row(&mut self, row: usize) -> Option<usize>
        requires { row < sparse_rows self.old.table.q }
        ensures table { self.new.table ≡ self.old.table }
        ensures bare { IsBareRow self.new row }
        ensures none { IfNone result (self.new.base ≡ self.old.base) }
        ensures below { IfSome result (λ y. y < self.old.table.q.width) }
        ensures member { IfSome result (λ y. is_base self.old.base y ≡ true) }
        ensures at_row { IfSome result (λ y. base_row self.old.base y ≡ row) }
        ensures dropped { IfSome result (λ y. IsBaseDropped self.old.table.q.width (is_base self.old.base)
            (base_row self.old.base) (is_base self.new.base) (base_row self.new.base) y) }
        ensures takes { self.new.base.takes ≡ self.old.base.takes }
        ensures room { dense_room self.new ≡ dense_room self.old }
    {
        self.base.free_row(row)
    }

    // Takes row `at` out of Q, and out of P a row without base column where its column of S has an entry that is not
    // zero.
    fn take_row(&mut self, at: usize, row: usize)
        requires at { at < sparse_rows self.old.table.q }
        requires row { row < sparse_rows self.old.table.q }
        requires entry { s_part F.modulus self.old.table row at % F.modulus ≢ 0 }
        requires bare { IsBareRow self.old row }
        ensures row { IsTableWithoutRow F.modulus self.old.table self.new.table at row }
        ensures base { (y : ℕ) → is_base self.new.base y ≡ is_base self.old.base y }
        ensures takes { self.new.base.takes ≡ self.old.base.takes }
        ensures room { dense_room self.new ≡ dense_room self.old }
    {
        let (last, columns) = (self.table.rows() - 1, self.table.columns());
        list_changed(&mut self.entries, &self.table, at, row);
        self.table.remove_row(at, row);
        self.entries.list_as(row, last, columns);
        self.base.swap_remove_row(row, last);
        self.table.is_table();
    }
}

// Lists each row with an entry in column `at` of S wherever a row is listed: a multiple of this is about to be added to
// it.
fn list_changed<F: Field>(entries: &mut Entries, table: &RowTable<F>, at: usize, row: usize)
    requires at { at < sparse_rows table.now.q }
    requires row { row < sparse_rows table.now.q }
    requires size { HasSizeOf (sparse_rows table.now.q) table.now.q.width entries.old.bits }
    ensures size { HasTableSize entries.old.bits entries.new.bits }
    ensures joined { (i j : ℕ) → i < sparse_rows table.now.q → j < table.now.q.width →
        s_part F.modulus table.now i at % F.modulus ≢ 0 → bit_in entries.old.bits j row ≡ true →
        bit_in entries.new.bits j i ≡ true }
    ensures kept { (i j : ℕ) → i < entries.old.bits.size → bit_in entries.old.bits j i ≡ true →
        bit_in entries.new.bits j i ≡ true }
{
    for i in 0..table.rows() {
        list_if_changed(entries, table, at, row, i);
    }
}

// Lists row i wherever a row is listed, if it has an entry in column `at` of S.
fn list_if_changed<F: Field>(
    entries: &mut Entries,
    table: &RowTable<F>,
    at: usize,
    row: usize,
    i: usize,
)
    requires at { at < sparse_rows table.now.q }
    requires row { row < sparse_rows table.now.q }
    requires i { i < sparse_rows table.now.q }
    requires size { HasSizeOf (sparse_rows table.now.q) table.now.q.width entries.old.bits }
    ensures size { HasTableSize entries.old.bits entries.new.bits }
    ensures joined { (j : ℕ) → j < table.now.q.width → s_part F.modulus table.now i at % F.modulus ≢ 0 →
        bit_in entries.old.bits j row ≡ true → bit_in entries.new.bits j i ≡ true }
    ensures kept { (u j : ℕ) → u < entries.old.bits.size → bit_in entries.old.bits j u ≡ true →
        bit_in entries.new.bits j u ≡ true }
{
    // there are at most 8,192 rows, so that the sum below fits
    table.is_table();
    let columns = table.columns();
    if !table.entry(i, columns + at).is_zero() {
        entries.list_as(i, row, columns);
    }
}

// Lists the entries of a row of P.
fn list_row<F: Field>(entries: &mut Entries, table: &RowTable<F>, row: usize)
    requires row { row < sparse_rows table.now.q }
    requires size { HasSizeOf (sparse_rows table.now.q) table.now.q.width entries.old.bits }
    ensures size { HasTableSize entries.old.bits entries.new.bits }
    ensures listed { (j : ℕ) → j < table.now.q.width → p_part F.modulus table.now row j ≢ 0 →
        bit_in entries.new.bits j row ≡ true }
    ensures kept { (i j : ℕ) → i < entries.old.bits.size → bit_in entries.old.bits j i ≡ true →
        bit_in entries.new.bits j i ≡ true }
{
    for col in 0..table.columns() {
        list_entry(entries, table, row, col);
    }
}

// Lists the entry at a row and a column of P, if it is not zero.
fn list_entry<F: Field>(entries: &mut Entries, table: &RowTable<F>, row: usize, col: usize)
    requires row { row < sparse_rows table.now.q }
    requires col { col < table.now.q.width }
    requires size { HasSizeOf (sparse_rows table.now.q) table.now.q.width entries.old.bits }
    ensures size { HasTableSize entries.old.bits entries.new.bits }
    ensures listed { p_part F.modulus table.now row col ≢ 0 → bit_in entries.new.bits col row ≡ true }
    ensures kept { (i j : ℕ) → i < entries.old.bits.size → bit_in entries.old.bits j i ≡ true →
        bit_in entries.new.bits j i ≡ true }
{
    if !table.entry(row, col).is_zero() {
        entries.bits.set(col, row);
    }
}
