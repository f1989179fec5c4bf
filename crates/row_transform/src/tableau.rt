//! Tableaus, and the matrices that they keep.

ghost use Rattle.std.specs.Prelude.{◌≡◌, ◌≢◌, ℕ, ◌<◌, ◌≤◌, ◌%◌, Bool, true, false, length, map, slice_index};
ghost use Rattle.std.specs.Prelude.{IfSome, IfNone, IfOk, OnOk, OnErr, IsTrue, IsNone, ◌↔◌};
ghost use Rattle.limits.specs.Limits.{column_limit, grown};
ghost use Rattle.residue_theory.specs.Ranges.{HasNone, IsLeast};
ghost use Rattle.dense_q.specs.Tables.{height, entry};
ghost use Rattle.row_transform.specs.Bases.{raised};
ghost use Rattle.row_transform.specs.Tableaus.{TableauState, IsOpened, IsTableau, IsBaseOf, IsBare, IsBaseColumn};
ghost use Rattle.row_transform.specs.Tableaus.{IsCandidate, IsPivot, IsDrop, AreTableauParts, has_entry, has_entry_of};
ghost use Rattle.row_transform.specs.Tableaus.{matrix_which, width_of};
ghost use Rattle.row_transform.specs.Edits.{IsWithRow, IsWithoutRow, IsWithColumn, IsWithoutColumn, KeepsZeroColumns, Room};
ghost use Rattle.linear_algebra.specs.Columns.{IsCombination, IsIndependent};
ghost use Rattle.linear_algebra.specs.Parts.{without_row};

use crate::base::Base;
use dense_q::Mat;
use out_of_memory::NoMemory;
use residue_field::Field;
use row_entries::EntryMat;
use std::alloc::Global;

/// The matrices of a tableau: S and its inverse U, with a row and a column for each row of Q, and P = S * Q.
#[derive(Drop)]
pub struct TableauParts<F: Field> {
    pub s: Mat<F>,
    pub u: Mat<F>,
    pub p: Mat<F>,
}

/// Which of the matrices of a tableau: S, its inverse U, or P.
#[derive(Clone, Copy, PartialEq, Eq, Debug)]
pub enum Which {
    S,
    U,
    P,
}

/// Row operations on a matrix Q: P = S * Q for an invertible S. Some columns are base columns, each with a row of
/// its own; in P it is 1 there and 0 elsewhere. Rows and columns are counted from 0. (Murota 2000, chapter 2.)
///
/// It counts its pivots: only `pivot` adds to the count. Rows and columns of Q come and go in room that is taken before.
pub trait Tableau<F: Field>: Drop {
    ghost state: { Self → TableauState };

    ghost pivots: { Self → ℕ };

    ghost room_of: { Self → Room };

    /// The tableau of a matrix before any row operation, with no base column.
    fn open(alloc: Global, q: &EntryMat<F>) -> Result<Self, NoMemory>
        ensures opened { IfOk result (λ t.
            IsOpened F.modulus (height q.now) q.now.width (entry q.now) (state t)) }
        ensures no_pivot { IfOk result (λ t. pivots t ≡ 0) };

    /// Its base: which column is the base column of which row.
    fn base(&self) -> &Base
        ensures base { IsBaseOf (state self.now) result.now }
        ensures takes { result.now.takes ≡ pivots self.now };

    /// How many pivots were made since it was opened. At the greatest `u64` it stays.
    fn pivots(&self) -> u64
        ensures { result ≡ pivots self.now }
    {
        self.base().takes()
    }

    /// How many rows there are.
    fn rows(&self) -> usize
        ensures rows { result ≡ (state self.now).rows }
        ensures few { result ≤ column_limit }
        ensures tableau { IsTableau F.modulus (state self.now) };

    /// How many columns there are.
    fn columns(&self) -> usize
        ensures columns { result ≡ (state self.now).columns }
        ensures narrow { result ≤ column_limit }
        ensures tableau { IsTableau F.modulus (state self.now) };

    /// Tells a proof that its matrices and its base are a tableau, with few rows and columns. It does nothing when it
    /// runs.
    fn is_tableau(&self)
        ensures tableau { IsTableau F.modulus (state self.now) }
        ensures few { (state self.now).rows ≤ column_limit }
        ensures narrow { (state self.now).columns ≤ column_limit }
    {
        let (_rows, _columns) = (self.rows(), self.columns());
    }

    /// The entry of P.
    fn entry(&self, row: usize, col: usize) -> F
        requires row { row < (state self.now).rows }
        requires col { col < (state self.now).columns }
        ensures { F.number result ≡ (state self.now).p row col % F.modulus };

    /// A row from `from` on where P may have an entry in the column that is not zero; no row before it has one.
    fn next_candidate(&self, col: usize, from: usize) -> Option<usize>
        requires { col < (state self.now).columns }
        ensures none { IfNone result (HasNone (λ row.
            has_entry F.modulus (state self.now) row col) from (state self.now).rows) }
        ensures some { IfSome result (IsCandidate (λ row.
            has_entry F.modulus (state self.now) row col) from (state self.now).rows) };

    /// The first row from `from` on where P has an entry in the column that is not zero.
    fn next_entry(&self, col: usize, from: usize) -> Option<usize>
        requires { col < (state self.now).columns }
        ensures none { IfNone result (HasNone (λ row.
            has_entry F.modulus (state self.now) row col) from (state self.now).rows) }
        ensures least { IfSome result (IsLeast (λ row.
            has_entry F.modulus (state self.now) row col) from (state self.now).rows) }
    {
        self.is_tableau();
        let mut at = from;
        while let Some(row) = self.next_candidate(col, at) {
            if !self.entry(row, col).is_zero() {
                return Some(row);
            }
            at = row + 1;
        }
        None
    }

    /// The base column of a row.
    fn base_of(&self, row: usize) -> Option<usize>
        requires { row < (state self.now).rows }
        ensures none { IfNone result (IsBare (state self.now) row) }
        ensures some { IfSome result (IsBaseColumn (state self.now) row) }
    {
        self.base().column_of(row)
    }

    /// The row whose base column a column is.
    fn row_of(&self, col: usize) -> Option<usize>
        requires { col < (state self.now).columns }
        ensures none { IfNone result ((state self.now).base col ≡ false) }
        ensures some { IfSome result (λ row. IsBaseColumn (state self.now) row col) }
        ensures below { IfSome result (λ row. row < (state self.now).rows) }
    {
        self.base().row_of(col)
    }

    /// Whether a column of Q is a combination of the base columns.
    fn in_span(&self, col: usize) -> bool
        requires { col < (state self.now).columns }
        ensures { IsTrue result ↔ IsCombination F.modulus (state self.now).q (state self.now).rows
            (state self.now).columns (state self.now).base col }
    {
        self.is_tableau();
        let mut at = 0;
        while let Some(row) = self.next_entry(col, at) {
            if self.base_of(row).is_none() {
                return false;
            }
            at = row + 1;
        }
        true
    }

    /// Makes a column that is no base column the base column of a row where its entry is not zero.
    fn pivot(&mut self, row: usize, col: usize)
        requires row { row < (state self.old).rows }
        requires col { col < (state self.old).columns }
        requires entry { (state self.old).p row col % F.modulus ≢ 0 }
        requires no_base { (state self.old).base col ≡ false }
        ensures pivoted { IsPivot F.modulus (state self.old) (state self.new) row col }
        ensures zero_columns { KeepsZeroColumns F.modulus (state self.old).rows (state self.old).s (state self.new).s
            row }
        ensures counted { pivots self.new ≡ raised (pivots self.old) 1 }
        ensures room { room_of self.new ≡ room_of self.old };

    /// Takes a base column out of the base.
    fn drop_base(&mut self, col: usize)
        requires col { col < (state self.old).columns }
        requires base { (state self.old).base col ≡ true }
        ensures dropped { IsDrop (state self.old) (state self.new) col }
        ensures counted { pivots self.new ≡ pivots self.old }
        ensures room { room_of self.new ≡ room_of self.old };

    /// Takes room for at least so many rows and columns, and where it grows at least an eighth more. It changes nothing else. A
    /// refusal leaves the room as it was.
    fn room(&mut self, rows: usize, cols: usize) -> Result<(), NoMemory>
        requires rows { rows ≤ column_limit }
        requires cols { cols ≤ column_limit }
        ensures same { state self.new ≡ state self.old }
        ensures counted { pivots self.new ≡ pivots self.old }
        ensures grown_rows { OnOk result (grown (room_of self.old).rows rows ≤ (room_of self.new).rows) }
        ensures grown_cols { OnOk result (grown (room_of self.old).columns cols ≤ (room_of self.new).columns) }
        ensures rows { OnOk result (rows ≤ (room_of self.new).rows) }
        ensures cols { OnOk result (cols ≤ (room_of self.new).columns) }
        ensures more_rows { (room_of self.old).rows ≤ (room_of self.new).rows }
        ensures more_cols { (room_of self.old).columns ≤ (room_of self.new).columns }
        ensures err { OnErr result (room_of self.new ≡ room_of self.old) };

    /// Puts a row into Q as row `at`, and keeps the base. It takes no memory.
    fn insert_row(&mut self, at: usize, items: &[F])
        requires at { at ≤ (state self.old).rows }
        requires items { length items.now ≡ (state self.old).columns }
        requires rows { (state self.old).rows < (room_of self.old).rows }
        requires cols { (state self.old).columns ≤ (room_of self.old).columns }
        requires few { (state self.old).rows < column_limit }
        ensures row { IsWithRow F.modulus (state self.old) (state self.new) at
            (λ j. slice_index (map F.number items.now) j) }
        ensures counted { pivots self.new ≡ pivots self.old }
        ensures room { room_of self.new ≡ room_of self.old };

    /// Takes row `at` out of Q. The base stays where it is independent without that row; else it loses one column, which
    /// this gives.
    fn remove_row(&mut self, at: usize) -> Option<usize>
        requires at { at < (state self.old).rows }
        ensures row { IsWithoutRow F.modulus (state self.old) (state self.new) at result }
        ensures none { IsNone result ↔ IsIndependent F.modulus (without_row at (state self.old).q)
            (state self.new).rows (state self.old).columns (state self.old).base }
        ensures counted { pivots self.new ≡ pivots self.old }
        ensures room { room_of self.new ≡ room_of self.old };

    /// Puts a column of zeros into Q as column `at`. It is no base column. It takes no memory.
    fn insert_column(&mut self, at: usize)
        requires at { at ≤ (state self.old).columns }
        requires rows { (state self.old).rows ≤ (room_of self.old).rows }
        requires cols { (state self.old).columns < (room_of self.old).columns }
        requires few { (state self.old).columns < column_limit }
        ensures column { IsWithColumn F.modulus (state self.old) (state self.new) at }
        ensures counted { pivots self.new ≡ pivots self.old }
        ensures room { room_of self.new ≡ room_of self.old };

    /// Takes column `at` out of Q, which has no entry in it.
    fn remove_column(&mut self, at: usize)
        requires at { at < (state self.old).columns }
        requires empty { (i : ℕ) → i < (state self.old).rows → (state self.old).q i at % F.modulus ≡ 0 }
        ensures column { IsWithoutColumn F.modulus (state self.old) (state self.new) at }
        ensures counted { pivots self.new ≡ pivots self.old }
        ensures room { room_of self.new ≡ room_of self.old };

    /// The entry of one of the matrices.
    fn entry_of(&self, which: Which, row: usize, col: usize) -> F
        requires row { row < (state self.now).rows }
        requires col { col < width_of which (state self.now) }
        ensures { F.number result ≡ matrix_which which (state self.now) row col };

    /// The first entry of a row of one of the matrices that is not zero, from column `from` on, and its column.
    fn next_in_row(&self, which: Which, row: usize, from: usize) -> Option<(usize, F)>
        requires row { row < (state self.now).rows }
        ensures none { IfNone result (HasNone (has_entry_of which (state self.now) row) from
            (width_of which (state self.now))) }
        ensures least { IfSome result (λ e. IsLeast (has_entry_of which (state self.now) row) from
            (width_of which (state self.now)) e.0) }
        ensures entry { IfSome result (λ e. F.number e.1 ≡ matrix_which which (state self.now) row e.0) }
    {
        let width = match which {
            Which::S | Which::U => self.rows(),
            Which::P => self.columns(),
        };
        for col in from..width {
            let entry = self.entry_of(which, row, col);
            if !entry.is_zero() {
                return Some((col, entry));
            }
        }
        None
    }

    /// The matrices S, U and P.
    fn parts(&self) -> Result<TableauParts<F>, NoMemory>
        ensures { IfOk result (λ t. AreTableauParts (state self.now) t.s t.u t.p) };
}
