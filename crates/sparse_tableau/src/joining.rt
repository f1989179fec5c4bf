//! A row that joins a sparse tableau.

ghost use Rattle.std.specs.Prelude.{◌≡◌, ◌≢◌, ℕ, ◌+◌, ◌-◌, ◌<◌, ◌≤◌, length, map, slice_index};
ghost use Rattle.limits.specs.Limits.{column_limit};
ghost use Rattle.sparse_q.specs.Tables.{sparse_rows, number_in, HasSize};
ghost use Rattle.row_transform.specs.Entries.{HasSizeOf};
ghost use Rattle.sparse_tableau.specs.Joins.{HasRowsApart, IsColumnPut, IsEmptyColumnIn, IsEmptyRowIn, IsJoinedTo};
ghost use Rattle.sparse_tableau.specs.Joins.{IsLess, IsFactorTold, IsRowPut, IsUnitIn};

use crate::transform::Transform;
use residue_field::Field;
use row_transform::{Base, Entries};
use sparse_q::SparseMat;

// Puts items into a row of a matrix, one for each column.
pub(crate) fn put_row<F: Field>(m: &mut SparseMat<F>, row: usize, items: &[F])
    requires row { row < sparse_rows m.old }
    requires items { length items.now ≡ m.old.width }
    ensures { IsRowPut m.old m.new row (λ j. slice_index (map F.number items.now) j) }
{
    for j in 0..items.len() {
        m.put(row, j, items[j]);
    }
}

// Puts items into a column of a matrix, one for each row.
pub(crate) fn put_column<F: Field>(m: &mut SparseMat<F>, col: usize, items: &[F])
    requires col { col < m.old.width }
    requires items { length items.now ≡ sparse_rows m.old }
    ensures { IsColumnPut m.old m.new col (λ i. slice_index (map F.number items.now) i) }
{
    for i in 0..items.len() {
        m.put(i, col, items[i]);
    }
}

// Puts an empty row in, so that it is row `at`.
pub(crate) fn add_empty_row<F: Field>(m: &mut SparseMat<F>, at: usize)
    requires at { at ≤ sparse_rows m.old }
    requires rows { sparse_rows m.old < m.old.row_room }
    requires cols { m.old.width ≤ m.old.column_room }
    requires few { sparse_rows m.old < column_limit }
    ensures { IsEmptyRowIn m.old m.new at }
{
    m.insert_row(at);
}

// Puts an empty column in, so that it is column `at`.
pub(crate) fn add_empty_column<F: Field>(m: &mut SparseMat<F>, at: usize)
    requires at { at ≤ m.old.width }
    requires cols { m.old.width < m.old.column_room }
    requires few { m.old.width < column_limit }
    ensures { IsEmptyColumnIn m.old m.new at }
{
    m.insert_column(at);
}

// Puts in a row behind the others and a column `at`, with 1 where they meet and 0 elsewhere.
pub(crate) fn add_unit<F: Field>(m: &mut SparseMat<F>, at: usize)
    requires at { at ≤ m.old.width }
    requires rows { sparse_rows m.old < m.old.row_room }
    requires cols { m.old.width < m.old.column_room }
    requires few { sparse_rows m.old < column_limit }
    requires narrow { m.old.width < column_limit }
    ensures { IsUnitIn m.old m.new at }
{
    let last = m.rows();
    add_empty_column(m, at);
    add_empty_row(m, last);
    m.put(last, at, F::one());
}

// Takes from the last row of P and S, for each base column, the row of that column times the item at it. Column `at` of V
// tells how often, and its entries are listed.
pub(crate) fn reduce<F: Field>(
    transform: &mut Transform<F>,
    v: &mut SparseMat<F>,
    entries: &mut Entries,
    base: &Base,
    at: usize,
    items: &[F],
)
    requires base { HasRowsApart (sparse_rows v.old - 1) (length items.now) base.now }
    requires columns { length base.now.rows ≡ length items.now }
    requires p { sparse_rows transform.old.p ≡ sparse_rows v.old }
    requires s { sparse_rows transform.old.s ≡ sparse_rows v.old }
    requires rows { 0 < sparse_rows v.old }
    requires at { at < v.old.width }
    requires size { HasSizeOf (sparse_rows v.old) v.old.width entries.old.bits }
    requires zero { (i : ℕ) → i + 1 < sparse_rows v.old → number_in v.old i at ≡ 0 }
    ensures { IsJoinedTo F.modulus (sparse_rows v.old - 1) at (length items.now)
        (λ j. slice_index (map F.number items.now) j) base.now transform.old.s transform.new.s transform.old.p
        transform.new.p v.old v.new entries.old.bits entries.new.bits }
{
    for column in 0..items.len() {
        if let Some(row) = base.row_of(column) {
            take_away(transform, v, entries, row, at, items[column]);
        }
    }
}

// Takes from the last row of P and S an item times another row, and tells it at that row in column `at` of V.
fn take_away<F: Field>(
    transform: &mut Transform<F>,
    v: &mut SparseMat<F>,
    entries: &mut Entries,
    row: usize,
    at: usize,
    item: F,
)
    requires row { row + 1 < sparse_rows v.old }
    requires p { sparse_rows transform.old.p ≡ sparse_rows v.old }
    requires s { sparse_rows transform.old.s ≡ sparse_rows v.old }
    requires at { at < v.old.width }
    requires size { HasSizeOf (sparse_rows v.old) v.old.width entries.old.bits }
    requires zero { number_in v.old row at ≡ 0 }
    ensures s { IsLess F.modulus (sparse_rows v.old - 1) row (F.number item) transform.old.s transform.new.s }
    ensures p { IsLess F.modulus (sparse_rows v.old - 1) row (F.number item) transform.old.p transform.new.p }
    ensures v { IsFactorTold row at (F.number item) v.old v.new entries.old.bits entries.new.bits }
{
    if !item.is_zero() {
        transform.add(v.rows() - 1, row, item.neg());
        v.put(row, at, item);
        entries.bits.set(at, row);
    }
}
