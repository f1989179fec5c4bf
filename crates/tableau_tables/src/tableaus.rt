//! Tableaus, dense and sparse, step by step.

use crate::matrices::{assert_entries, matrix};
use dense_q::Mat;
use residue_field::{Field, Res};
use row_entries::EntryMat;
use row_transform::{DenseTableau, Tableau};
use sparse_tableau::SparseTableau;
use std::alloc::Global;
use std::process::Abort;
use std::test::Fail;

// What is done to a tableau, or looked at.
#[derive(Drop)]
enum Step<'a> {
    Pivot(usize, usize),
    DropBase(usize),
    // The base column of each row.
    Base(&'a [Option<usize>]),
    // For each column the rows of its entries that are not zero.
    Columns(&'a [&'a [usize]]),
    // Whether the column is a combination of the base columns.
    InSpan(usize, bool),
    // The entries of S, U and P.
    Parts(&'a [&'a [u32]], &'a [&'a [u32]], &'a [&'a [u32]]),
    // That S * U = 1 and U * P = Q, in two rows.
    Products,
}

// A name, the matrix Q, and the steps.
type Case = (
    &'static str,
    &'static [&'static [u32]],
    &'static [Step<'static>],
);

const CASES: [Case; 5] = [
    (
        "opened",
        &[&[1, 2, 3], &[4, 5, 6]],
        &[
            Step::Base(&[None, None]),
            Step::Parts(
                &[&[1, 0], &[0, 1]],
                &[&[1, 0], &[0, 1]],
                &[&[1, 2, 3], &[4, 5, 6]],
            ),
        ],
    ),
    (
        "ones",
        &[&[1, 1, 1], &[1, 1, 1]],
        &[
            Step::InSpan(2, false),
            Step::Pivot(0, 0),
            Step::Base(&[Some(0), None]),
            Step::InSpan(2, true),
            Step::Parts(
                &[&[1, 0], &[65_520, 1]],
                &[&[1, 0], &[1, 1]],
                &[&[1, 1, 1], &[0, 0, 0]],
            ),
            Step::DropBase(0),
            Step::Base(&[None, None]),
        ],
    ),
    (
        "two pivots",
        &[&[2, 1, 3], &[4, 5, 6]],
        &[
            Step::Pivot(1, 1),
            Step::Pivot(0, 0),
            Step::Base(&[Some(0), Some(1)]),
            Step::Products,
        ],
    ),
    (
        "row 0 takes another column",
        &[&[2, 1, 3], &[4, 5, 6]],
        &[
            Step::Pivot(0, 0),
            Step::Pivot(0, 2),
            Step::Base(&[Some(2), None]),
        ],
    ),
    // The pivot gives column 1 an entry in row 1, and takes that of column 2 away.
    (
        "entries",
        &[&[1, 1, 2], &[1, 0, 2], &[0, 3, 0]],
        &[
            Step::Columns(&[&[0, 1], &[0, 2], &[0, 1]]),
            Step::Pivot(0, 0),
            Step::Columns(&[&[0], &[0, 1, 2], &[0]]),
        ],
    ),
];

// A pivot at an entry that is not zero, in a column that is no base column.
fn pivot<T: Tableau<Res>>(rt: &impl Abort, t: &mut T, row: usize, column: usize, at: &str) {
    assert!(rt; row < t.rows() && column < t.columns());
    assert!(rt; !t.entry(row, column).is_zero(), "{at}");
    assert_eq!(rt; t.row_of(column), None, "{at}");
    t.pivot(row, column);
}

fn drop_base<T: Tableau<Res>>(rt: &impl Abort, t: &mut T, column: usize, at: &str) {
    assert!(rt; column < t.columns());
    assert!(rt; t.row_of(column).is_some(), "{at}");
    t.drop_base(column);
}

// The row whose base column this is.
fn row_of(base: &[Option<usize>], column: usize) -> Option<usize> {
    for (row, found) in base.iter().enumerate() {
        if *found == Some(column) {
            return Some(row);
        }
    }
    None
}

fn assert_base<T: Tableau<Res>>(rt: &impl Abort, t: &T, want: &[Option<usize>], at: &str) {
    assert_eq!(rt; t.rows(), want.len(), "{at}");
    for (row, column) in want.iter().enumerate() {
        assert!(rt; row < t.rows());
        assert_eq!(rt; t.base_of(row), *column, "{at}, row {row}");
    }
    for column in 0..t.columns() {
        let row = row_of(want, column);
        assert_eq!(rt; t.row_of(column), row, "{at}, column {column}");
    }
}

fn assert_columns<T: Tableau<Res>>(rt: &impl Abort, t: &T, want: &[&[usize]], at: &str) {
    assert_eq!(rt; t.columns(), want.len(), "{at}");
    for (column, rows) in want.iter().enumerate() {
        assert_column(rt, t, column, rows, at);
    }
}

fn assert_column<T: Tableau<Res>>(rt: &impl Abort, t: &T, column: usize, want: &[usize], at: &str) {
    assert!(rt; column < t.columns());
    let mut from = 0;
    for row in want {
        assert_eq!(rt;
            t.next_entry(column, from),
            Some(*row),
            "{at}, column {column} from {from}"
        );
        assert!(rt; *row < t.rows());
        from = *row + 1;
    }
    assert_eq!(rt;
        t.next_entry(column, from),
        None,
        "{at}, column {column} from {from}"
    );
}

fn assert_parts<T: Tableau<Res>>(
    rt: &impl Abort,
    t: &T,
    want: (&[&[u32]], &[&[u32]], &[&[u32]]),
    at: &str,
) -> Result<(), Fail> {
    let parts = t.parts()?;
    assert_entries(rt, &parts.s, want.0, at);
    assert_entries(rt, &parts.u, want.1, at);
    assert_entries(rt, &parts.p, want.2, at);
    for row in 0..t.rows() {
        for column in 0..t.columns() {
            assert!(rt; row < parts.p.rows() && column < parts.p.cols());
            assert!(rt; t.entry(row, column) == parts.p.get(row, column), "{at}");
        }
    }
    Ok(())
}

fn assert_products<T: Tableau<Res>>(
    rt: &impl Abort,
    alloc: Global,
    t: &T,
    q: &[&[u32]],
) -> Result<(), Fail> {
    let parts = t.parts()?;
    let (s, u, p) = (&parts.s, &parts.u, &parts.p);
    assert!(rt; s.cols() == u.rows() && u.cols() == p.rows());
    assert_entries(
        rt,
        &Mat::product(alloc, s, u)?,
        &[&[1, 0], &[0, 1]],
        "S * U",
    );
    assert_entries(rt, &Mat::product(alloc, u, p)?, q, "U * P");
    Ok(())
}

fn assert_in_span<T: Tableau<Res>>(rt: &impl Abort, t: &T, column: usize, want: bool, at: &str) {
    assert!(rt; column < t.columns());
    assert_eq!(rt; t.in_span(column), want, "{at}, column {column}");
}

fn take<T: Tableau<Res>>(
    rt: &impl Abort,
    alloc: Global,
    t: &mut T,
    q: &[&[u32]],
    step: &Step,
    at: &str,
) -> Result<(), Fail> {
    match step {
        Step::Pivot(row, column) => pivot(rt, t, *row, *column, at),
        Step::DropBase(column) => drop_base(rt, t, *column, at),
        Step::Base(want) => assert_base(rt, t, want, at),
        Step::Columns(want) => assert_columns(rt, t, want, at),
        Step::InSpan(column, want) => assert_in_span(rt, t, *column, *want, at),
        Step::Parts(s, u, p) => assert_parts(rt, t, (*s, *u, *p), at)?,
        Step::Products => assert_products(rt, alloc, t, q)?,
    }
    Ok(())
}

// Opens a tableau for each case, and takes its steps in turn.
fn follow<T: Tableau<Res>>(rt: &impl Abort, alloc: Global) -> Result<(), Fail> {
    for (name, q, steps) in CASES {
        let mut t = T::open(alloc, &EntryMat::of(alloc, &matrix(rt, alloc, q)?)?)?;
        for step in steps {
            take(rt, alloc, &mut t, q, step, name)?;
        }
    }
    Ok(())
}

#[test]
fn dense_tableaus_take_steps(rt: HostRuntime) -> Result<(), Fail> {
    follow::<DenseTableau<Res>>(&rt, rt.alloc())
}

#[test]
fn sparse_tableaus_take_steps(rt: HostRuntime) -> Result<(), Fail> {
    follow::<SparseTableau<Res>>(&rt, rt.alloc())
}
