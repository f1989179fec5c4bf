//! Tableaus whose matrix gains and loses rows and columns, against tableaus that are opened anew.

ghost use Rattle.std.specs.Prelude.{◌≡◌, ◌<◌, ◌%◌, ℕ, IsTrue};

use crate::plain::{Plain, assert_same, residues};
use dense_q::Mat;
use residue_field::{Field, Res};
use row_transform::{DenseTableau, Tableau};
use sparse_tableau::SparseTableau;
use std::alloc::Global;
use std::process::Abort;
use std::test::Fail;

// What is done to a tableau.
#[derive(Clone, Copy)]
enum Edit {
    // This row comes as row `at`.
    RowIn(usize, &'static [u32]),
    RowOut(usize),
    // A column of zeros comes as column `at`.
    ColumnIn(usize),
    ColumnOut(usize),
    // The column becomes a base column.
    Take(usize),
    Drop(usize),
}

// A name, how many columns there are before the first edit, and the edits.
type Case = (&'static str, usize, &'static [Edit]);

// Rows, and for each of them a column in which it has an entry.
const ROWS: [&[u32]; 3] = [&[1, 2, 0, 3], &[2, 4, 5, 0], &[0, 0, 7, 65_520]];

const TAKEN: [usize; 3] = [3, 2, 2];

const CASES: [Case; 4] = [
    (
        "a row of base columns comes before all and goes",
        3,
        &[
            Edit::RowIn(0, &[1, 2, 3]),
            Edit::RowIn(1, &[4, 5, 6]),
            Edit::Take(0),
            Edit::Take(2),
            Edit::RowIn(0, &[7, 8, 10]),
            Edit::Take(1),
            Edit::RowOut(1),
            Edit::RowOut(0),
        ],
    ),
    (
        "columns come between and go",
        1,
        &[
            Edit::RowIn(0, &[5]),
            Edit::ColumnIn(0),
            Edit::Take(1),
            Edit::ColumnIn(2),
            Edit::ColumnIn(1),
            Edit::RowIn(1, &[1, 0, 2, 3]),
            Edit::Take(0),
            Edit::ColumnOut(1),
            Edit::RowIn(0, &[0, 1, 1]),
            Edit::Take(2),
            Edit::RowOut(2),
            Edit::ColumnOut(0),
        ],
    ),
    (
        "a base column that was dropped stays out",
        2,
        &[
            Edit::RowIn(0, &[1, 1]),
            Edit::Take(0),
            Edit::Drop(0),
            Edit::RowIn(1, &[3, 4]),
            Edit::Take(1),
            Edit::RowOut(0),
            Edit::RowOut(0),
        ],
    ),
    (
        "rows that depend on others",
        4,
        &[
            Edit::RowIn(0, &[1, 2, 3, 4]),
            Edit::Take(1),
            Edit::RowIn(1, &[2, 4, 6, 8]),
            Edit::RowIn(0, &[0, 0, 0, 0]),
            Edit::RowOut(1),
            Edit::RowIn(2, &[0, 1, 0, 1]),
            Edit::Take(3),
            Edit::RowOut(0),
            Edit::RowOut(0),
        ],
    ),
];

fn insert_row<T: Tableau<Res>>(
    rt: &impl Abort,
    alloc: Global,
    t: &mut T,
    at: usize,
    numbers: &[u32],
) -> Result<(), Fail> {
    let items = residues(alloc, numbers)?;
    let (rows, columns) = (t.rows(), t.columns());
    assert!(rt; at <= rows && rows < 8_192 && items.len() == columns);
    t.room(rows + 1, columns)?;
    t.insert_row(at, &items);
    Ok(())
}

fn insert_column<T: Tableau<Res>>(rt: &impl Abort, t: &mut T, at: usize) -> Result<(), Fail> {
    let (rows, columns) = (t.rows(), t.columns());
    assert!(rt; at <= columns && columns < 8_192);
    t.room(rows, columns + 1)?;
    t.insert_column(at);
    Ok(())
}

// Whether a column of the matrix has no entry: then neither has the column of P.
fn is_empty_column<F: Field, T: Tableau<F>>(t: &T, column: usize) -> bool
    requires { column < (T.state t.now).columns }
    ensures { IsTrue result → (i : ℕ) → i < (T.state t.now).rows → (T.state t.now).q i column % F.modulus ≡ 0 }
{
    t.is_tableau();
    match t.next_entry(column, 0) {
        Some(_) => false,
        None => true,
    }
}

fn remove_column<T: Tableau<Res>>(rt: &impl Abort, t: &mut T, at: usize) {
    assert!(rt; at < t.columns());
    assert!(rt; is_empty_column::<Res, T>(t, at));
    t.remove_column(at);
}

// The first row without base column in which the column has an entry.
fn bare_row<T: Tableau<Res>>(rt: &impl Abort, t: &T, column: usize) -> Option<usize> {
    assert!(rt; column < t.columns());
    for row in 0..t.rows() {
        assert!(rt; row < t.rows());
        if t.base_of(row).is_none() && !t.entry(row, column).is_zero() {
            return Some(row);
        }
    }
    None
}

// Makes a column a base column, where it is in no span.
fn take<T: Tableau<Res>>(rt: &impl Abort, t: &mut T, column: usize) -> bool {
    let Some(row) = bare_row(rt, t, column) else {
        return false;
    };
    assert!(rt; row < t.rows() && column < t.columns());
    assert!(rt; !t.entry(row, column).is_zero());
    assert!(rt; t.row_of(column).is_none());
    t.pivot(row, column);
    true
}

fn is_base<T: Tableau<Res>>(rt: &impl Abort, t: &T, column: usize) -> bool {
    assert!(rt; column < t.columns());
    t.row_of(column).is_some()
}

fn drop_base<T: Tableau<Res>>(rt: &impl Abort, t: &mut T, column: usize) {
    assert!(rt; column < t.columns());
    assert!(rt; t.row_of(column).is_some());
    t.drop_base(column);
}

// Whether the base columns of one tableau are independent in another, which has none yet and takes them.
fn take_base<T: Tableau<Res>>(rt: &impl Abort, from: &T, into: &mut T) -> bool {
    for column in 0..from.columns() {
        if is_base(rt, from, column) && !take(rt, into, column) {
            return false;
        }
    }
    true
}

// Takes each column that is in no span, and gives how many base columns there are then.
fn rank<T: Tableau<Res>>(rt: &impl Abort, t: &mut T) -> usize {
    let mut count: usize = 0;
    for column in 0..t.columns() {
        if is_base(rt, t, column) || take(rt, t, column) {
            count = count.saturating_add(1);
        }
    }
    count
}

// A row goes; where a base column goes with it, the base was dependent without the row.
fn remove_row<T: Tableau<Res>>(
    rt: &impl Abort,
    alloc: Global,
    t: &mut T,
    plain: &Plain,
    at: usize,
    name: &str,
) -> Result<(), Fail> {
    let mut anew = T::open(alloc, &plain.entries(rt, alloc)?)?;
    let independent = take_base(rt, t, &mut anew);
    assert!(rt; at < t.rows());
    let gone = t.remove_row(at);
    assert_eq!(rt; gone.is_none(), independent, "{name}");
    Ok(())
}

// Edits the tableau and its matrix alike.
fn apply<T: Tableau<Res>>(
    rt: &impl Abort,
    alloc: Global,
    t: &mut T,
    plain: &mut Plain,
    edit: Edit,
    name: &str,
) -> Result<(), Fail> {
    match edit {
        Edit::RowIn(at, items) => {
            insert_row(rt, alloc, t, at, items)?;
            plain.insert_row(rt, at, items)
        }
        Edit::RowOut(at) => {
            plain.remove_row(rt, at);
            remove_row(rt, alloc, t, plain, at, name)
        }
        Edit::ColumnIn(at) => {
            insert_column(rt, t, at)?;
            plain.insert_column(rt, at)
        }
        Edit::ColumnOut(at) => {
            remove_column(rt, t, at);
            plain.remove_column(rt, at);
            Ok(())
        }
        Edit::Take(column) => {
            assert!(rt; take(rt, t, column), "{name}");
            Ok(())
        }
        Edit::Drop(column) => {
            drop_base(rt, t, column);
            Ok(())
        }
    }
}

// S * Q = P and S * U = 1.
fn assert_products<T: Tableau<Res>>(
    rt: &impl Abort,
    alloc: Global,
    t: &T,
    q: &Mat<Res>,
    name: &str,
) -> Result<(), Fail> {
    let parts = t.parts()?;
    let (s, u, p) = (&parts.s, &parts.u, &parts.p);
    assert!(rt; s.cols() == u.rows() && s.cols() == q.rows());
    assert_same(rt, &Mat::product(alloc, s, q)?, p, name);
    let one = Mat::identity(alloc, t.rows())?;
    assert_same(rt, &Mat::product(alloc, s, u)?, &one, name);
    Ok(())
}

// Each base column is the unit column of its row.
fn assert_units<T: Tableau<Res>>(rt: &impl Abort, t: &T, column: usize, name: &str) {
    assert!(rt; column < t.columns());
    let Some(base_row) = t.row_of(column) else {
        return;
    };
    for row in 0..t.rows() {
        assert!(rt; row < t.rows() && column < t.columns());
        let want = if row == base_row { 1 } else { 0 };
        assert_eq!(rt;
            t.entry(row, column).value(),
            want,
            "{name}, row {row}, column {column}"
        );
    }
}

fn assert_same_span<T: Tableau<Res>>(rt: &impl Abort, t: &T, anew: &T, name: &str) {
    assert_eq!(rt;
        (t.rows(), t.columns()),
        (anew.rows(), anew.columns()),
        "{name}"
    );
    for column in 0..t.columns() {
        assert!(rt; column < t.columns() && column < anew.columns());
        assert_eq!(rt;
            t.in_span(column),
            anew.in_span(column),
            "{name}, column {column}"
        );
        assert_units(rt, t, column, name);
    }
}

// The tableau is one of the matrix: its base is independent, its span is that of these columns in a tableau that is opened
// anew, and the products hold.
fn assert_tableau<T: Tableau<Res>>(
    rt: &impl Abort,
    alloc: Global,
    t: &T,
    plain: &Plain,
    name: &str,
) -> Result<(), Fail> {
    let mut anew = T::open(alloc, &plain.entries(rt, alloc)?)?;
    assert!(rt; take_base(rt, t, &mut anew), "{name}");
    assert_same_span(rt, t, &anew, name);
    assert_products(rt, alloc, t, &plain.matrix(rt, alloc)?, name)
}

fn assert_rank<T: Tableau<Res>>(
    rt: &impl Abort,
    alloc: Global,
    t: &mut T,
    plain: &Plain,
    name: &str,
) -> Result<(), Fail> {
    let mut anew = T::open(alloc, &plain.entries(rt, alloc)?)?;
    let want = rank(rt, &mut anew);
    assert_eq!(rt; rank(rt, t), want, "{name}");
    Ok(())
}

fn follow<T: Tableau<Res>>(
    rt: &impl Abort,
    alloc: Global,
    columns: usize,
    edits: &[Edit],
    name: &str,
) -> Result<(), Fail> {
    let mut plain = Plain::empty(alloc, columns);
    let mut t = T::open(alloc, &plain.entries(rt, alloc)?)?;
    for step in edits {
        apply(rt, alloc, &mut t, &mut plain, *step, name)?;
        assert_tableau(rt, alloc, &t, &plain, name)?;
    }
    assert_rank(rt, alloc, &mut t, &plain, name)
}

fn follow_cases<T: Tableau<Res>>(rt: &impl Abort, alloc: Global) -> Result<(), Fail> {
    for (name, columns, edits) in CASES {
        follow::<T>(rt, alloc, columns, edits, name)?;
    }
    Ok(())
}

// The rows come in each order, each to its place, and go in each order; a column of the first is a base column.
fn follow_orders<T: Tableau<Res>>(rt: &impl Abort, alloc: Global) -> Result<(), Fail> {
    // the rows, each with the number that it comes as; the same numbers take rows out
    let orders = [
        [(0, 0), (1, 1), (2, 2)],
        [(0, 0), (2, 1), (1, 1)],
        [(1, 0), (0, 0), (2, 2)],
        [(1, 0), (2, 1), (0, 0)],
        [(2, 0), (0, 0), (1, 1)],
        [(2, 0), (1, 0), (0, 0)],
    ];
    for coming in &orders {
        for going in &orders {
            follow_order::<T>(rt, alloc, coming, going)?;
        }
    }
    Ok(())
}

fn follow_order<T: Tableau<Res>>(
    rt: &impl Abort,
    alloc: Global,
    coming: &[(usize, usize); 3],
    going: &[(usize, usize); 3],
) -> Result<(), Fail> {
    let [(a, i), (b, j), (c, k)] = *coming;
    let [(_, l), (_, m), (_, n)] = *going;
    assert!(rt; a < 3 && b < 3 && c < 3);
    let edits = [
        Edit::RowIn(i, ROWS[a]),
        Edit::Take(TAKEN[a]),
        Edit::RowIn(j, ROWS[b]),
        Edit::RowIn(k, ROWS[c]),
        Edit::RowOut(n),
        Edit::RowOut(m),
        Edit::RowOut(l),
    ];
    follow::<T>(rt, alloc, 4, &edits, "orders")
}

#[test]
fn dense_tableaus_are_edited(rt: HostRuntime) -> Result<(), Fail> {
    follow_cases::<DenseTableau<Res>>(&rt, rt.alloc())
}

#[test]
fn sparse_tableaus_are_edited(rt: HostRuntime) -> Result<(), Fail> {
    follow_cases::<SparseTableau<Res>>(&rt, rt.alloc())
}

#[test]
fn dense_tableaus_are_edited_in_each_order(rt: HostRuntime) -> Result<(), Fail> {
    follow_orders::<DenseTableau<Res>>(&rt, rt.alloc())
}

#[test]
fn sparse_tableaus_are_edited_in_each_order(rt: HostRuntime) -> Result<(), Fail> {
    follow_orders::<SparseTableau<Res>>(&rt, rt.alloc())
}
