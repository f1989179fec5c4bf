//! A row that leaves a sparse tableau.

ghost use Rattle.std.specs.Prelude.{◌≡◌, ◌≢◌, ℕ, ◌%◌, ◌<◌, IfSome, IfNone, true, length};
ghost use Rattle.sparse_q.specs.Tables.{sparse_rows, number_in};
ghost use Rattle.row_transform.specs.Bases.{is_base, base_row};
ghost use Rattle.sparse_tableau.specs.Leaves.{IsChosen, IsLineReplaced, IsRowGone, IsRowReplaced};

use residue_field::Field;
use row_transform::Base;
use sparse_q::SparseMat;

// The first row without a base column that has an entry in a column.
pub(crate) fn bare_row<F: Field>(m: &SparseMat<F>, base: &Base, col: usize) -> Option<usize>
    requires { length base.now.columns ≡ sparse_rows m.now }
    ensures below { IfSome result (λ row. row < sparse_rows m.now) }
    ensures entry { IfSome result (λ row. number_in m.now row col % F.modulus ≢ 0) }
    ensures bare { IfSome result (λ row. (y : ℕ) → y < length base.now.rows → is_base base.now y ≡ true →
        base_row base.now y ≢ row) }
    ensures none { IfNone result ((i : ℕ) → i < sparse_rows m.now → ((y : ℕ) → y < length base.now.rows →
        is_base base.now y ≡ true → base_row base.now y ≢ i) → number_in m.now i col ≡ 0) }
{
    for row in 0..m.rows() {
        let entry = m.get(row, col);
        if base.column_of(row).is_none() && !entry.is_zero() {
            entry.in_field();
            return Some(row);
        }
    }
    None
}

// The first row that has an entry in a column.
pub(crate) fn row_with_entry<F: Field>(m: &SparseMat<F>, col: usize) -> Option<usize>
    ensures below { IfSome result (λ row. row < sparse_rows m.now) }
    ensures entry { IfSome result (λ row. number_in m.now row col % F.modulus ≢ 0) }
    ensures none { IfNone result ((i : ℕ) → i < sparse_rows m.now → number_in m.now i col ≡ 0) }
{
    for row in 0..m.rows() {
        let entry = m.get(row, col);
        if !entry.is_zero() {
            entry.in_field();
            return Some(row);
        }
    }
    None
}

// A row that has an entry in a column, without a base column if there is one such.
pub(crate) fn choose_row<F: Field>(m: &SparseMat<F>, base: &Base, col: usize) -> Option<usize>
    requires { length base.now.columns ≡ sparse_rows m.now }
    ensures chosen { IfSome result (IsChosen F.modulus m.now base.now col) }
    ensures none { IfNone result ((i : ℕ) → i < sparse_rows m.now → number_in m.now i col ≡ 0) }
{
    match bare_row(m, base, col) {
        Some(row) => Some(row),
        None => row_with_entry(m, col),
    }
}

// Takes a row out, whose place the last row takes.
pub(crate) fn swap_remove<F: Field>(m: &mut SparseMat<F>, row: usize)
    requires { row < sparse_rows m.old }
    ensures { IsRowReplaced m.old m.new row }
{
    let last = m.rows() - 1;
    m.swap_rows(row, last);
    m.remove_row(last);
}

// Takes a row out, whose place the last row takes, and a column.
pub(crate) fn take_line_out<F: Field>(m: &mut SparseMat<F>, row: usize, col: usize)
    requires row { row < sparse_rows m.old }
    requires col { col < m.old.width }
    ensures { IsLineReplaced m.old m.new row col }
{
    swap_remove(m, row);
    m.remove_column(col);
}

// Takes a row out.
pub(crate) fn remove_row<F: Field>(m: &mut SparseMat<F>, row: usize)
    requires { row < sparse_rows m.old }
    ensures { IsRowGone m.old m.new row }
{
    m.remove_row(row);
}
