//! Row operations on a sparse matrix, with their own matrix.

ghost use Rattle.std.specs.Prelude.{◌≡◌, ◌≢◌, ℕ, ◌+◌, ◌*◌, ◌%◌, ◌<◌, true};
ghost use Rattle.sparse_q.specs.Tables.{sparse_rows, number_in, IsRowSet};
ghost use Rattle.bit_table.specs.Bits.{bit_in};
ghost use Rattle.row_transform.specs.Entries.{HasSizeOf, HasTableSize};
ghost use Rattle.sparse_tableau.specs.Listings.{AreSparseEntriesListed};
ghost use Rattle.sparse_tableau.specs.Sparse.{IsTableReduced};

use crate::listing;
use residue_field::Field;
use row_transform::Entries;
use sparse_q::SparseMat;

// A matrix P to which row operations have led, and the matrix S of these operations.
#[derive(Drop)]
pub(crate) struct Transform<F: Field> {
    pub(crate) p: SparseMat<F>,
    pub(crate) s: SparseMat<F>,
}

impl<F: Field> Transform<F> {
    // Multiplies a row by a factor that is not zero.
    fn scale(&mut self, row: usize, factor: F)
        requires row { row < sparse_rows self.old.p }
        requires same { sparse_rows self.old.s ≡ sparse_rows self.old.p }
        requires factor { F.number factor ≢ 0 }
        ensures p { IsRowSet self.old.p self.new.p row (λ j.
            F.number factor * number_in self.old.p row j % F.modulus) }
        ensures s { IsRowSet self.old.s self.new.s row (λ j.
            F.number factor * number_in self.old.s row j % F.modulus) }
    {
        self.p.scale_row(row, factor);
        self.s.scale_row(row, factor);
    }

    // Adds a multiple of row `source` to row `target`.
    pub(crate) fn add(&mut self, target: usize, source: usize, factor: F)
        requires target { target < sparse_rows self.old.p }
        requires source { source < sparse_rows self.old.p }
        requires same { sparse_rows self.old.s ≡ sparse_rows self.old.p }
        ensures p { IsRowSet self.old.p self.new.p target (λ j.
            (number_in self.old.p target j + F.number factor * number_in self.old.p source j) % F.modulus) }
        ensures s { IsRowSet self.old.s self.new.s target (λ j.
            (number_in self.old.s target j + F.number factor * number_in self.old.s source j) % F.modulus) }
    {
        self.p.add_row(target, source, factor);
        self.s.add_row(target, source, factor);
    }

    // Makes a column of P the unit column of a row, by row operations. All rows with an entry in the column are listed.
    pub(crate) fn pivot(&mut self, entries: &Entries, row: usize, col: usize)
        requires row { row < sparse_rows self.old.p }
        requires col { col < self.old.p.width }
        requires same { sparse_rows self.old.s ≡ sparse_rows self.old.p }
        requires size { HasSizeOf (sparse_rows self.old.p) self.old.p.width entries.now.bits }
        requires listed { (i : ℕ) → i < sparse_rows self.old.p → number_in self.old.p i col % F.modulus ≢ 0 →
            bit_in entries.now.bits col i ≡ true }
        requires entry { number_in self.old.p row col ≢ 0 }
        ensures p { IsTableReduced F.modulus self.old.p self.new.p row (λ i. number_in self.old.p i col) }
        ensures s { IsTableReduced F.modulus self.old.s self.new.s row (λ i. number_in self.old.p i col) }
    {
        let entry = self.p.get(row, col);
        let inverse = entry.inv().unwrap();
        self.scale(row, inverse);
        let rows = self.p.rows();
        let mut from = 0;
        while let Some(i) = entries.next(col, from, rows) {
            let entry = self.p.get(i, col);
            if i != row && !entry.is_zero() {
                self.add(i, row, entry.neg());
            }
            from = i + 1;
        }
    }

    // Makes a row the only one with an entry in a column of S, by row operations. The entries of P are listed.
    pub(crate) fn clear(&mut self, entries: &mut Entries, row: usize, col: usize)
        requires row { row < sparse_rows self.old.p }
        requires col { col < self.old.s.width }
        requires same { sparse_rows self.old.s ≡ sparse_rows self.old.p }
        requires listed { AreSparseEntriesListed F.modulus self.old.p entries.old.bits }
        requires entry { number_in self.old.s row col ≢ 0 }
        ensures p { IsTableReduced F.modulus self.old.p self.new.p row (λ i. number_in self.old.s i col) }
        ensures s { IsTableReduced F.modulus self.old.s self.new.s row (λ i. number_in self.old.s i col) }
        ensures listed { AreSparseEntriesListed F.modulus self.new.p entries.new.bits }
        ensures bits { HasTableSize entries.old.bits entries.new.bits }
    {
        let entry = self.s.get(row, col);
        let factor = entry.inv().unwrap();
        self.scale(row, factor);
        for i in 0..self.p.rows() {
            let entry = self.s.get(i, col);
            if i != row && !entry.is_zero() {
                self.add(i, row, entry.neg());
                listing::list_row(entries, &self.p, i);
            }
        }
    }
}
