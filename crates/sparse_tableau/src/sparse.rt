//! A tableau of sparse matrices.

ghost use Rattle.std.specs.Prelude.{◌≡◌, ◌≢◌, ℕ, ◌<◌, ◌≤◌, ◌%◌, true, false, IfOk};
ghost use Rattle.sparse_tableau.specs.Sparse.{sparse_state};

use crate::transform::Transform;
use crate::{joining, leaving, listing};
use limits::grown;
use out_of_memory::NoMemory;
use residue_field::Field;
use row_entries::EntryMat;
use row_transform::{Base, Entries, Size, Tableau, TableauParts, Which};
use sparse_q::SparseMat;
use std::alloc::Global;
use std::marker::Model;
use tableau_edit_laws::laws;

/// A tableau that keeps of its matrices the entries that are not zero, and Q by columns: a pivot at a row and a column
/// reduces P and S, and puts the column of Q into U, which is kept by its columns. It takes no memory, since each row has
/// room for all its columns.
#[derive(Drop)]
pub struct SparseTableau<F: Field> {
    alloc: Global,
    columns: SparseMat<F>,
    transform: Transform<F>,
    v: SparseMat<F>,
    u_entries: Entries,
    entries: Entries,
    base: Base,
    row_room: usize,
    column_room: usize,
}

impl<F: Field> Model for SparseTableau<F> {
    ghost use Rattle.sparse_tableau.specs.Sparse.{Sparse, IsSparse, HasSparseRoom};
    ghost use Rattle.sparse_tableau.specs.Listings.{AreNumbersListed, AreSparseEntriesListed};

    ghost Value = { Sparse };

    ghost view = { λ t. record {
      q = t.columns;
      p = t.transform.p;
      s = t.transform.s;
      v = t.v;
      base = t.base;
      room = record { rows = t.row_room; columns = t.column_room };
    } };

    ghost invariant = { λ t. IsSparse F.modulus (record {
      q = t.columns;
      p = t.transform.p;
      s = t.transform.s;
      v = t.v;
      base = t.base;
      room = record { rows = t.row_room; columns = t.column_room };
    }) × AreSparseEntriesListed F.modulus t.transform.p t.entries.bits × AreNumbersListed t.v t.u_entries.bits
        × HasSparseRoom (record {
          q = t.columns;
          p = t.transform.p;
          s = t.transform.s;
          v = t.v;
          base = t.base;
          room = record { rows = t.row_room; columns = t.column_room };
        }) t.entries.bits t.u_entries.bits };
}

impl<F: Field> Tableau<F> for SparseTableau<F> {
    ghost state = { sparse_state };

    ghost pivots = { λ t. t.base.takes };

    ghost room_of = { λ t. t.room };

    fn open(alloc: Global, q: &EntryMat<F>) -> Result<Self, NoMemory> {
        let rows = q.rows();
        let columns = q.cols();
        let p = SparseMat::of(alloc, q)?;
        let entries = Entries::of(alloc, q)?;
        let s = SparseMat::identity(alloc, rows)?;
        let v = SparseMat::identity(alloc, rows)?;
        let u_entries = Entries::diagonal(alloc, rows)?;
        Ok(SparseTableau {
            alloc,
            columns: p.turned(alloc, &entries.bits)?,
            transform: Transform { p, s },
            v,
            u_entries,
            entries,
            base: Base::empty(alloc, rows, columns)?,
            row_room: 0,
            column_room: 0,
        })
    }

    fn base(&self) -> &Base {
        &self.base
    }

    fn rows(&self) -> usize {
        self.transform.p.rows()
    }

    fn columns(&self) -> usize {
        self.transform.p.cols()
    }

    fn entry(&self, row: usize, col: usize) -> F {
        let entry = self.transform.p.get(row, col);
        entry.in_field();
        entry
    }

    fn next_candidate(&self, col: usize, from: usize) -> Option<usize> {
        self.entries.next(col, from, self.transform.p.rows())
    }

    fn pivot(&mut self, row: usize, col: usize) {
        listing::spread(&mut self.entries, &self.transform.p, row, col);
        self.transform.pivot(&self.entries, row, col);
        self.entries.close(row, col);
        self.v.copy_row(row, &self.columns, col);
        listing::list_row(&mut self.u_entries, &self.v, row);
        self.base.take(row, col);
    }

    fn drop_base(&mut self, col: usize) {
        self.base.leave(col);
    }

    fn room(&mut self, rows: usize, cols: usize) -> Result<(), NoMemory> {
        if rows <= self.row_room && cols <= self.column_room {
            return Ok(());
        }
        let rows = grown(self.row_room, rows);
        let cols = grown(self.column_room, cols);
        let matrix = Size {
            rows: self.rows(),
            columns: self.columns(),
        };
        let room = Size {
            rows: rows.max(matrix.rows),
            columns: cols.max(matrix.columns),
        };
        self.columns.room(room.columns, room.rows)?;
        self.transform.p.room(room.rows, room.columns)?;
        self.transform.s.room(room.rows, room.rows)?;
        self.v.room(room.rows, room.rows)?;
        self.base.room(room.rows, room.columns)?;
        self.entries.room(self.alloc, matrix, room)?;
        self.u_entries
            .room(self.alloc, square(matrix.rows), square(room.rows))?;
        self.row_room = room.rows;
        self.column_room = room.columns;
        Ok(())
    }

    fn insert_row(&mut self, at: usize, items: &[F]) {
        laws::rows_join_tableaus();
        laws::bases_keep_a_joined_row();
        let last = self.transform.p.rows();
        joining::add_empty_column(&mut self.columns, at);
        joining::put_column(&mut self.columns, at, items);
        joining::add_empty_row(&mut self.transform.p, last);
        joining::put_row(&mut self.transform.p, last, items);
        joining::add_unit(&mut self.transform.s, at);
        joining::add_unit(&mut self.v, at);
        self.u_entries.insert_column(at, last);
        self.u_entries.bits.set(at, last);
        joining::reduce(
            &mut self.transform,
            &mut self.v,
            &mut self.u_entries,
            &self.base,
            at,
            items,
        );
        listing::list_row(&mut self.entries, &self.transform.p, last);
        self.base.insert_row(last);
    }

    fn remove_row(&mut self, at: usize) -> Option<usize> {
        laws::bases_stay_independent_without_a_row();
        laws::bases_leave_rows_in_any_order();
        laws::last_rows_take_places();
        laws::pivots_in_s_clear_a_column();
        laws::pivots_in_s_keep_other_rows();
        laws::rows_leave_in_any_order();
        laws::some_row_of_s_has_an_entry();
        let (rows, columns) = (self.transform.p.rows(), self.transform.p.cols());
        let row = leaving::choose_row(&self.transform.s, &self.base, at).unwrap();
        let told = self.base.free_row(row);
        self.transform.clear(&mut self.entries, row, at);
        leaving::swap_remove(&mut self.transform.p, row);
        leaving::take_line_out(&mut self.transform.s, row, at);
        leaving::take_line_out(&mut self.v, row, at);
        self.columns.remove_column(at);
        self.entries.list_as(row, rows - 1, columns);
        self.u_entries.remove_column(at, rows);
        self.u_entries.list_as(row, rows - 1, rows - 1);
        self.base.swap_remove_row(row, rows - 1);
        told
    }

    fn insert_column(&mut self, at: usize) {
        laws::columns_join_tableaus();
        let columns = self.transform.p.cols();
        joining::add_empty_row(&mut self.columns, at);
        joining::add_empty_column(&mut self.transform.p, at);
        self.entries.insert_column(at, columns);
        self.base.insert_column(at);
    }

    fn remove_column(&mut self, at: usize) {
        laws::columns_leave_tableaus();
        let columns = self.transform.p.cols();
        leaving::remove_row(&mut self.columns, at);
        self.transform.p.remove_column(at);
        self.entries.remove_column(at, columns);
        self.base.remove_column(at);
    }

    fn entry_of(&self, which: Which, row: usize, col: usize) -> F {
        let entry = match which {
            Which::S => self.transform.s.get(row, col),
            Which::U => self.v.get(col, row),
            Which::P => self.transform.p.get(row, col),
        };
        entry.in_field();
        entry
    }

    fn next_in_row(&self, which: Which, row: usize, from: usize) -> Option<(usize, F)> {
        let col = match which {
            Which::S => self.transform.s.next(row, from)?,
            Which::U => listing::next_in(&self.u_entries, &self.v, row, from)?,
            Which::P => self.transform.p.next(row, from)?,
        };
        Some((col, self.entry_of(which, row, col)))
    }

    fn parts(&self) -> Result<TableauParts<F>, NoMemory> {
        let s = self.transform.s.dense(self.alloc)?;
        let v = self.v.dense(self.alloc)?;
        let u = v.transposed()?;
        let p = self.transform.p.dense(self.alloc)?;
        Ok(TableauParts { s, u, p })
    }
}

fn square(count: usize) -> Size
    ensures rows { result.rows ≡ count }
    ensures columns { result.columns ≡ count }
{
    Size {
        rows: count,
        columns: count,
    }
}
