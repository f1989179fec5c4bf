//! A row that joins a table of P and S, and its Q.

ghost use Rattle.std.specs.Prelude.{◌≡◌, ◌≢◌, ℕ, ◌+◌, ◌*◌, ◌%◌, ◌<◌, ◌≤◌, false, cond, ltb, map, length, slice_index};
ghost use Rattle.limits.specs.Limits.{column_limit};
ghost use Rattle.residue_theory.specs.Sums.{sum_below};
ghost use Rattle.sparse_q.specs.Tables.{HasSize, number_in, sparse_rows};
ghost use Rattle.dense_q.specs.Tables.{height};
ghost use Rattle.row_table.specs.Layouts.{all, layout_places, rows_of_layout};
ghost use Rattle.row_table.specs.PutOffs.{HasSameShape, IsSettled, actual};
ghost use Rattle.row_table.specs.TableEdits.{IsQWithRow, taken};

use crate::layout::Placement;
use crate::put_off::PutOff;
use residue_field::Field;
use sparse_q::SparseMat;

// Puts a value into a row for which nothing waits, at the slot of column c, if that is no unit column.
fn put_one<F: Field>(table: &mut PutOff<F>, places: &Placement, row: usize, c: usize, value: F)
    requires row { row < table.old.rows }
    requires columns { places.now.columns ≡ table.old.columns }
    requires column { c < all places.now }
    requires settled { IsSettled table.old row }
    ensures shape { HasSameShape table.new table.old }
    ensures settled { IsSettled table.new row }
    ensures here { (layout_places places.now).is_unit c ≡ false →
        actual F.modulus table.new row ((layout_places places.now).slot c) ≡ F.number value }
    ensures other_columns { (d : ℕ) → d < all places.now → d ≢ c → (layout_places places.now).is_unit d ≡ false →
        actual F.modulus table.new row ((layout_places places.now).slot d)
        ≡ actual F.modulus table.old row ((layout_places places.now).slot d) }
    ensures other_rows { (i j : ℕ) → i < table.old.rows → j < table.old.columns → i ≢ row →
        actual F.modulus table.new i j ≡ actual F.modulus table.old i j }
{
    places.is_layout();
    if !places.is_unit(c) {
        table.put(row, places.slot(c), value);
    }
}

// Puts the items of a row into a row of zeros for which nothing waits, at the slots of the columns that are no unit
// columns.
fn put_row<F: Field>(table: &mut PutOff<F>, places: &Placement, row: usize, items: &[F])
    requires row { row < table.old.rows }
    requires columns { places.now.columns ≡ table.old.columns }
    requires length { length items.now ≡ table.old.columns }
    requires settled { IsSettled table.old row }
    requires zero { (j : ℕ) → j < table.old.columns → actual F.modulus table.old row j ≡ 0 }
    ensures shape { HasSameShape table.new table.old }
    ensures small { (c : ℕ) → c < length items.now → slice_index (map F.number items.now) c < F.modulus }
    ensures here { (c : ℕ) → c < all places.now → (layout_places places.now).is_unit c ≡ false →
        actual F.modulus table.new row ((layout_places places.now).slot c)
        ≡ cond (ltb c (length items.now)) (slice_index (map F.number items.now) c) 0 }
    ensures other_rows { (i j : ℕ) → i < table.old.rows → j < table.old.columns → i ≢ row →
        actual F.modulus table.new i j ≡ actual F.modulus table.old i j }
{
    places.is_layout();
    for c in 0..items.len() {
        let value = items[c];
        value.in_field();
        put_one(table, places, row, c, value);
    }
}

// Adds a multiple of row i to a row, so that this is zero at the unit column of row i, if that is a column of Q.
fn reduce_by<F: Field>(table: &mut PutOff<F>, places: &Placement, row: usize, i: usize, items: &[F])
    requires row { row < table.old.rows }
    requires other { i < rows_of_layout places.now }
    requires before { i < row }
    requires length { length items.now ≡ table.old.columns }
    ensures shape { HasSameShape table.new table.old }
    ensures here { (j : ℕ) → j < table.old.columns → actual F.modulus table.new row j % F.modulus
        ≡ (actual F.modulus table.old row j + taken F.modulus (length items.now) (layout_places places.now).basic
        (λ c. slice_index (map F.number items.now) c) i * actual F.modulus table.old i j) % F.modulus }
    ensures other_rows { (u j : ℕ) → u < table.old.rows → j < table.old.columns → u ≢ row →
        actual F.modulus table.new u j % F.modulus ≡ actual F.modulus table.old u j % F.modulus }
{
    let c = places.basic(i);
    if c < items.len() {
        let value = items[c];
        value.in_field();
        if !value.is_zero() {
            table.add_row(row, i, value.neg());
        }
    }
}

// Adds multiples of the rows before it to the last row, so that it is zero at their unit columns that are columns of Q.
fn reduce_last<F: Field>(table: &mut PutOff<F>, places: &Placement, row: usize, items: &[F])
    requires row { table.old.rows ≡ row + 1 }
    requires rows { rows_of_layout places.now ≡ row }
    requires length { length items.now ≡ table.old.columns }
    ensures shape { HasSameShape table.new table.old }
    ensures here { (j : ℕ) → j < table.old.columns → actual F.modulus table.new row j % F.modulus
        ≡ (actual F.modulus table.old row j + sum_below row (λ i. taken F.modulus (length items.now)
        (layout_places places.now).basic (λ c. slice_index (map F.number items.now) c) i
        * actual F.modulus table.old i j)) % F.modulus }
    ensures other_rows { (u j : ℕ) → u < table.old.rows → j < table.old.columns → u ≢ row →
        actual F.modulus table.new u j % F.modulus ≡ actual F.modulus table.old u j % F.modulus }
{
    for i in 0..row {
        reduce_by(table, places, row, i, items);
    }
}

// A row of Q joins the table, after the last row.
pub(crate) fn join_table<F: Field>(table: &mut PutOff<F>, places: &Placement, items: &[F])
    requires rows { rows_of_layout places.now ≡ table.old.rows }
    requires columns { places.now.columns ≡ table.old.columns }
    requires length { length items.now ≡ table.old.columns }
    requires room { table.old.rows < height table.old.stored }
    ensures rows { table.new.rows ≡ table.old.rows + 1 }
    ensures columns { table.new.columns ≡ table.old.columns }
    ensures height { height table.new.stored ≡ height table.old.stored }
    ensures width { table.new.stored.width ≡ table.old.stored.width }
    ensures small { (c : ℕ) → c < length items.now → slice_index (map F.number items.now) c < F.modulus }
    ensures stays { (i j : ℕ) → i < table.old.rows → j < table.old.columns →
        actual F.modulus table.new i j % F.modulus ≡ actual F.modulus table.old i j % F.modulus }
    ensures joins { (c : ℕ) → c < all places.now → (layout_places places.now).is_unit c ≡ false →
        actual F.modulus table.new table.old.rows ((layout_places places.now).slot c) % F.modulus
        ≡ (sum_below table.old.rows (λ i. taken F.modulus (length items.now) (layout_places places.now).basic
        (λ c. slice_index (map F.number items.now) c) i
        * actual F.modulus table.old i ((layout_places places.now).slot c))
        + cond (ltb c (length items.now)) (slice_index (map F.number items.now) c) 0) % F.modulus }
{
    places.is_layout();
    let row = table.rows();
    table.push_row();
    put_row(table, places, row, items);
    reduce_last(table, places, row, items);
}

// Puts the items of a row into a row of Q.
fn put_items<F: Field>(q: &mut SparseMat<F>, at: usize, items: &[F])
    requires at { at < sparse_rows q.old }
    requires length { length items.now ≡ q.old.width }
    ensures size { HasSize (sparse_rows q.old) q.old.width q.new }
    ensures row_room { q.new.row_room ≡ q.old.row_room }
    ensures column_room { q.new.column_room ≡ q.old.column_room }
    ensures here { (j : ℕ) → j < length items.now → number_in q.new at j ≡ slice_index (map F.number items.now) j }
    ensures others { (i j : ℕ) → i ≢ at → number_in q.new i j ≡ number_in q.old i j }
{
    for j in 0..items.len() {
        q.put(at, j, items[j]);
    }
}

// A row joins Q.
pub(crate) fn join_q<F: Field>(q: &mut SparseMat<F>, at: usize, items: &[F])
    requires at { at ≤ sparse_rows q.old }
    requires length { length items.now ≡ q.old.width }
    requires rows { sparse_rows q.old < q.old.row_room }
    requires columns { q.old.width ≤ q.old.column_room }
    requires few { sparse_rows q.old < column_limit }
    ensures row { IsQWithRow q.old q.new at (λ j. slice_index (map F.number items.now) j) }
    ensures row_room { q.new.row_room ≡ q.old.row_room }
    ensures column_room { q.new.column_room ≡ q.old.column_room }
{
    q.insert_row(at);
    put_items(q, at, items);
}
