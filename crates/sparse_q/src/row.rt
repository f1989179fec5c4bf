//! A row of a sparse matrix.

ghost use Rattle.std.specs.Prelude.{◌≡◌, ◌≢◌, ℕ, ◌+◌, ◌*◌, ◌%◌, ◌<◌, ◌≤◌, ◌⊎◌, [], length, IfOk, IfNone, IfSome};
ghost use Rattle.limits.specs.Limits.{column_limit};
ghost use Rattle.dense_q.specs.Tables.{height, entry, HasSameSize};
ghost use Rattle.row_entries.specs.Rows.{items};
ghost use Rattle.sparse_q.specs.Rows.{IsEntryRow, number_at, item_or, EndsBefore, with_last, IsSum, IsMultiple, IsMerged, has_number};
ghost use Rattle.residue_theory.specs.Ranges.{HasNone, IsLeast};

use dense_q::Mat;
use out_of_memory::NoMemory;
use residue_field::Field;
use row_entries::{Entry, first_from, value_at};
use std::alloc::Global;
use std::marker::Model;

// How many entries of two rows are done.
#[derive(Clone, Copy)]
struct Done {
    target: usize,
    source: usize,
}

// The entries of a row that are not zero, by rising column. It has room for an entry at each column, and perhaps for more
// columns.
#[derive(Drop)]
pub(crate) struct SparseRow<F: Field> {
    pub(crate) width: usize,
    pub(crate) room: usize,
    pub(crate) entries: Vec<Entry<F>>,
}

impl<F: Field> Model for SparseRow<F> {
    ghost use Rattle.std.specs.Prelude.{◌≤◌, map, vec_capacity};
    ghost use Rattle.sparse_q.specs.Rows.{Row};
    ghost use Rattle.sparse_q.specs.Storage.{IsKeptRow};

    ghost Value = { Row };

    ghost view = { λ r. record {
      width = r.width;
      room = r.room;
      items = map (λ e. record { column = e.column; number = F.number e.value }) r.entries.items;
    } };

    ghost invariant = { λ r. IsKeptRow F.modulus r.width r.room
        (map (λ e. record { column = e.column; number = F.number e.value }) r.entries.items)
        × (r.room ≤ vec_capacity r.entries) };
}

impl<F: Field> SparseRow<F> {
    // A row of so many columns with no entry.
    pub(crate) fn empty(alloc: Global, width: usize) -> Result<SparseRow<F>, NoMemory>
        requires { width ≤ column_limit }
        ensures { IfOk result (λ r. r ≡ record { width = width; room = width; items = [] }) }
    {
        Ok(SparseRow {
            width,
            room: width,
            entries: Vec::with_capacity(alloc, width)?,
        })
    }

    // How many entries there are.
    fn len(&self) -> usize
        ensures len { result ≡ length self.now.items }
        ensures row { IsEntryRow F.modulus self.now.width self.now.items }
        ensures few { length self.now.items ≤ column_limit }
    {
        self.entries.len()
    }

    // The column of the entry at a place, and past the last one the width.
    fn column(&self, place: usize) -> usize
        ensures column { result ≡ (item_or self.now.width self.now.items place).column }
        ensures row { IsEntryRow F.modulus self.now.width self.now.items }
        ensures few { length self.now.items ≤ column_limit }
    {
        if place < self.entries.len() {
            self.entries[place].column as usize
        } else {
            self.width
        }
    }

    // The value of the entry at a place.
    fn value(&self, place: usize) -> F
        requires { place < length self.now.items }
        ensures value { F.number result ≡ (item_or self.now.width self.now.items place).number }
        ensures below { F.number result < F.modulus }
    {
        let value = self.entries[place].value;
        value.in_field();
        value
    }

    // Takes all entries out.
    fn clear(&mut self)
        ensures { self.new ≡ record self.old { items = [] } }
    {
        self.entries.clear();
    }

    // Puts a value at a column behind the last entry.
    pub(crate) fn push(&mut self, column: usize, value: F)
        requires narrow { column < self.old.width }
        requires behind { EndsBefore self.old.items column }
        ensures { self.new ≡ record self.old { items = with_last self.old.items column (F.number value) } }
    {
        if !value.is_zero() {
            value.in_field();
            self.entries.push_reserved(Entry {
                column: column as u32,
                value,
            });
        }
    }

    // Puts the next entry of the sum: of the entries of `target` and `source` that are not done yet, the one whose
    // column comes first, or both where they share it. It gives what is done then.
    fn put_next(
        &mut self,
        target: &SparseRow<F>,
        source: &SparseRow<F>,
        factor: F,
        done: Done,
    ) -> Done
        requires target { target.now.width ≡ self.old.width }
        requires source { source.now.width ≡ self.old.width }
        requires more { (done.target < length target.now.items) ⊎ (done.source < length source.now.items) }
        requires merged { IsMerged F.modulus (F.number factor) self.old.width target.now.items source.now.items
            self.old.items done.target done.source }
        ensures merged { IsMerged F.modulus (F.number factor) self.old.width target.now.items source.now.items
            self.new.items result.target result.source }
        ensures width { self.new.width ≡ self.old.width }
        ensures room { self.new.room ≡ self.old.room }
        ensures further { done.target + done.source < result.target + result.source }
    {
        let first = target.column(done.target);
        let second = source.column(done.source);
        if first < second {
            self.push(first, target.value(done.target));
            return Done {
                target: done.target + 1,
                source: done.source,
            };
        }
        let more = factor.mul(source.value(done.source));
        if second < first {
            self.push(second, more);
            return Done {
                target: done.target,
                source: done.source + 1,
            };
        }
        self.push(first, target.value(done.target).add(more));
        Done {
            target: done.target + 1,
            source: done.source + 1,
        }
    }

    // Becomes `target` with `factor` times `source` added to it.
    pub(crate) fn set_sum(&mut self, target: &SparseRow<F>, source: &SparseRow<F>, factor: F)
        requires target { target.now.width ≡ self.old.width }
        requires source { source.now.width ≡ self.old.width }
        ensures sum { IsSum F.modulus (F.number factor) target.now.items source.now.items self.new.items }
        ensures width { self.new.width ≡ self.old.width }
        ensures room { self.new.room ≡ self.old.room }
    {
        self.clear();
        let mut done = Done {
            target: 0,
            source: 0,
        };
        while done.target < target.len() || done.source < source.len() {
            done = self.put_next(target, source, factor, done);
        }
    }

    // Multiplies the values by a factor that is not zero.
    pub(crate) fn scale(&mut self, factor: F)
        requires { F.number factor ≢ 0 }
        ensures multiple { IsMultiple F.modulus (F.number factor) self.old.items self.new.items }
        ensures width { self.new.width ≡ self.old.width }
        ensures room { self.new.room ≡ self.old.room }
    {
        factor.in_field();
        for entry in self.entries.iter_mut() {
            entry.value = factor.mul(entry.value);
        }
    }

    // Becomes the row of such entries, which are copied all at once.
    pub(crate) fn fill(&mut self, entries: &[Entry<F>])
        requires { IsEntryRow F.modulus self.old.width (items F.number entries.now) }
        ensures { self.new ≡ record self.old { items = items F.number entries.now } }
    {
        self.entries.clear();
        // they fit in the room of the row
        let _ = self.entries.extend_from_slice(entries);
    }

    // Becomes another row.
    pub(crate) fn set(&mut self, source: &SparseRow<F>)
        requires { source.now.width ≡ self.old.width }
        ensures { self.new ≡ record self.old { items = source.now.items } }
    {
        self.fill(&source.entries);
    }

    // The value at a column.
    pub(crate) fn at(&self, column: usize) -> F
        ensures { F.number result ≡ number_at self.now.items column }
    {
        value_at(&self.entries, column)
    }

    // The first column from `from` on where the row has an entry.
    pub(crate) fn next(&self, from: usize) -> Option<usize>
        ensures none { IfNone result (HasNone (has_number self.now.items) from self.now.width) }
        ensures least { IfSome result (IsLeast (has_number self.now.items) from self.now.width) }
    {
        let (column, _) = first_from(&self.entries, from)?;
        Some(column)
    }

    // Puts the entries into row i of a matrix, where all are zero.
    pub(crate) fn put_into(&self, m: &mut Mat<F>, i: usize)
        requires row { i < height m.old }
        requires width { self.now.width ≡ m.old.width }
        requires zero { (j : ℕ) → entry m.old i j ≡ 0 }
        ensures size { HasSameSize m.new m.old }
        ensures numbers { (j : ℕ) → entry m.new i j ≡ number_at self.now.items j }
        ensures others { (t j : ℕ) → t ≢ i → entry m.new t j ≡ entry m.old t j }
    {
        m.is_matrix();
        for entry in &self.entries {
            m.set(i, entry.column as usize, entry.value);
        }
    }
}
