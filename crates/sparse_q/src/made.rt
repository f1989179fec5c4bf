//! Rows of a sparse matrix, made of another matrix.

ghost use Rattle.std.specs.Prelude.{◌≡◌, ◌≢◌, ℕ, ◌<◌, ◌≤◌, true, IfOk};
ghost use Rattle.limits.specs.Limits.{column_limit};
ghost use Rattle.linear_algebra.specs.Products.{identity};
ghost use Rattle.dense_q.specs.Tables.{height, entry};
ghost use Rattle.bit_table.specs.Bits.{bit_in};
ghost use Rattle.sparse_q.specs.Rows.{number_at};
ghost use Rattle.sparse_q.specs.Tables.{number_in, sparse_rows};

use crate::matrix::SparseMat;
use crate::row::SparseRow;
use bit_table::BitTable;
use out_of_memory::NoMemory;
use residue_field::Field;
use row_entries::EntryMat;
use std::alloc::Global;

// Row i of a matrix.
pub(crate) fn row_of<F: Field>(
    alloc: Global,
    q: &EntryMat<F>,
    i: usize,
) -> Result<SparseRow<F>, NoMemory>
    requires { i < height q.now }
    ensures width { IfOk result (λ row. row.width ≡ q.now.width) }
    ensures numbers { IfOk result (λ row. (j : ℕ) → number_at row.items j ≡ entry q.now i j) }
{
    let mut row = SparseRow::empty(alloc, q.cols())?;
    row.fill(q.row(i));
    Ok(row)
}

// Column j of a sparse matrix, all of whose rows with an entry in it are listed.
pub(crate) fn column_of<F: Field>(
    alloc: Global,
    m: &SparseMat<F>,
    listed: &BitTable,
    j: usize,
) -> Result<SparseRow<F>, NoMemory>
    requires column { j < listed.now.rows }
    requires rows { sparse_rows m.now ≤ listed.now.size }
    requires listed { (i : ℕ) → i < sparse_rows m.now → number_in m.now i j ≢ 0 → bit_in listed.now j i ≡ true }
    ensures width { IfOk result (λ column. column.width ≡ sparse_rows m.now) }
    ensures numbers { IfOk result (λ column. (i : ℕ) → number_at column.items i ≡ number_in m.now i j) }
{
    let rows = m.rows();
    let mut column = SparseRow::empty(alloc, rows)?;
    let mut from = 0;
    while let Some(i) = listed.next(j, from, rows) {
        column.push(i, m.get(i, j));
        from = i + 1;
    }
    Ok(column)
}

// Row i of the identity matrix of n rows.
pub(crate) fn unit_row<F: Field>(
    alloc: Global,
    n: usize,
    i: usize,
) -> Result<SparseRow<F>, NoMemory>
    requires few { n ≤ column_limit }
    requires row { i < n }
    ensures width { IfOk result (λ row. row.width ≡ n) }
    ensures numbers { IfOk result (λ row. (j : ℕ) → number_at row.items j ≡ identity i j) }
{
    let mut row = SparseRow::empty(alloc, n)?;
    row.push(i, F::one());
    Ok(row)
}
