//! In which rows the columns of a sparse matrix have entries.

ghost use Rattle.std.specs.Prelude.{◌≡◌, ◌≢◌, ℕ, ◌<◌, true, IfSome, IfNone};
ghost use Rattle.residue_theory.specs.Ranges.{HasNone, IsLeast};
ghost use Rattle.bit_table.specs.Bits.{bit_in};
ghost use Rattle.sparse_q.specs.Tables.{sparse_rows, number_in};
ghost use Rattle.row_transform.specs.Entries.{HasSizeOf, HasTableSize, IsSpread};
ghost use Rattle.sparse_tableau.specs.Listings.{AreNumbersListed, has_number_at};

use residue_field::Field;
use row_transform::Entries;
use sparse_q::SparseMat;

// Lists the entries of a row.
pub(crate) fn list_row<F: Field>(entries: &mut Entries, m: &SparseMat<F>, row: usize)
    requires row { row < sparse_rows m.now }
    requires size { HasSizeOf (sparse_rows m.now) m.now.width entries.old.bits }
    ensures size { HasTableSize entries.old.bits entries.new.bits }
    ensures listed { (j : ℕ) → j < m.now.width → number_in m.now row j ≢ 0 → bit_in entries.new.bits j row ≡ true }
    ensures kept { (i j : ℕ) → i < sparse_rows m.now → bit_in entries.old.bits j i ≡ true →
        bit_in entries.new.bits j i ≡ true }
{
    // there are at most 8,192 columns, so that the sum below fits
    m.is_matrix();
    let mut from = 0;
    while let Some(col) = m.next(row, from) {
        entries.bits.set(col, row);
        from = col + 1;
    }
}

// The first row from `from` on where a matrix has an entry in a column. All its entries are listed.
pub(crate) fn next_in<F: Field>(
    entries: &Entries,
    m: &SparseMat<F>,
    col: usize,
    from: usize,
) -> Option<usize>
    requires col { col < m.now.width }
    requires listed { AreNumbersListed m.now entries.now.bits }
    ensures none { IfNone result (HasNone (has_number_at m.now col) from (sparse_rows m.now)) }
    ensures least { IfSome result (IsLeast (has_number_at m.now col) from (sparse_rows m.now)) }
{
    // there are at most 8,192 rows, so that the sum below fits
    let rows = m.rows();
    let mut at = from;
    while let Some(row) = entries.next(col, at, rows) {
        if !m.get(row, col).is_zero() {
            return Some(row);
        }
        at = row + 1;
    }
    None
}

// Lists what a pivot of P at a row and a column is about to make of the entries of other columns: it adds multiples of
// the row to all rows with an entry in the column.
pub(crate) fn spread<F: Field>(entries: &mut Entries, p: &SparseMat<F>, row: usize, col: usize)
    requires row { row < sparse_rows p.now }
    requires col { col < p.now.width }
    requires size { HasSizeOf (sparse_rows p.now) p.now.width entries.old.bits }
    ensures size { HasTableSize entries.old.bits entries.new.bits }
    ensures spread { IsSpread (sparse_rows p.now) p.now.width (number_in p.now) (bit_in entries.old.bits)
        (bit_in entries.new.bits) row col }
{
    // there are at most 8,192 columns, so that the sum below fits
    p.is_matrix();
    let mut from = 0;
    while let Some(other) = p.next(row, from) {
        if other != col {
            entries.bits.join(other, col);
        }
        from = other + 1;
    }
}
