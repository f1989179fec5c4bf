//! Which tableau suits a matrix.

ghost use Rattle.std.specs.Prelude.{◌≤◌, ◌<◌};
ghost use Rattle.limits.specs.Limits.{column_limit};
ghost use Rattle.dense_q.specs.Tables.{height};

use residue_field::Field;
use row_entries::EntryMat;

// Whether a matrix has at most as many entries that are not zero as it has rows and columns, or at most five for two
// columns. As the edges of a graph on the rows and columns the first are little more than a forest, in which pivots fill
// nothing in; the second are what resistors, coils and capacitors have, where they fill in little. So a sparse tableau
// suits it. Where there are more, pivots fill the matrix in, and a dense tableau is faster.
pub(crate) fn has_few_entries<F: Field>(q: &EntryMat<F>) -> bool {
    let most = (q.rows() + q.cols()).max(5 * q.cols() / 2);
    let mut entries = 0;
    for row in 0..q.rows() {
        entries += entries_in_row(q, row);
        if most < entries {
            return false;
        }
    }
    true
}

// How many entries of a row are not zero.
fn entries_in_row<F: Field>(q: &EntryMat<F>, row: usize) -> usize
    requires { row < height q.now }
    ensures { result ≤ column_limit }
{
    // there are at most 8,192 columns
    q.is_matrix();
    q.row(row).len()
}
