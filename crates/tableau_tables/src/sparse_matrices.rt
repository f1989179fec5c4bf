//! Tests of sparse matrices, over the residues modulo 65,521.

ghost use Rattle.std.specs.Prelude.{◌≤◌};

use crate::matrices::{assert_entries, matrix};
use residue_field::{Field, Res};
use row_entries::EntryMat;
use sparse_q::SparseMat;
use std::alloc::Global;
use std::process::Abort;
use std::test::Fail;

fn assert_dense(
    rt: &impl Abort,
    alloc: Global,
    m: &SparseMat<Res>,
    want: &[&[u32]],
    at: &str,
) -> Result<(), Fail> {
    assert_entries(rt, &m.dense(alloc)?, want, at);
    Ok(())
}

#[test]
fn keeps_the_entries(rt: HostRuntime) -> Result<(), Fail> {
    let q = matrix(&rt, rt.alloc(), &[&[0, 2, 0], &[4, 0, 65_521]])?;
    let m = SparseMat::of(rt.alloc(), &EntryMat::of(rt.alloc(), &q)?)?;
    assert_eq!(rt; (m.rows(), m.cols()), (2, 3));
    let found = (m.next(0, 0), m.next(0, 2), m.next(1, 1));
    assert_eq!(rt; found, (Some(1), None, None));
    assert_eq!(rt; m.get(1, 0).value(), 4);
    assert_dense(&rt, rt.alloc(), &m, &[&[0, 2, 0], &[4, 0, 0]], "rows")?;
    let unit = SparseMat::<Res>::identity(rt.alloc(), 2)?;
    assert_dense(&rt, rt.alloc(), &unit, &[&[1, 0], &[0, 1]], "identity")
}

// The entries of column 2 cancel, one of each row is alone in its column.
#[test]
fn changes_rows(rt: HostRuntime) -> Result<(), Fail> {
    let q = matrix(&rt, rt.alloc(), &[&[1, 0, 65_519], &[0, 5, 1]])?;
    let mut m = SparseMat::of(rt.alloc(), &EntryMat::of(rt.alloc(), &q)?)?;
    assert_eq!(rt; (m.rows(), m.cols()), (2, 3));
    m.add_row(0, 1, Res::of(2));
    assert_eq!(rt; m.next(0, 2), None);
    assert_dense(&rt, rt.alloc(), &m, &[&[1, 10, 0], &[0, 5, 1]], "added")?;
    let factor = Res::of(3);
    assert!(rt; !factor.is_zero());
    m.scale_row(1, factor);
    assert_dense(&rt, rt.alloc(), &m, &[&[1, 10, 0], &[0, 15, 3]], "scaled")?;
    let other = SparseMat::of(rt.alloc(), &EntryMat::of(rt.alloc(), &q)?)?;
    assert_eq!(rt; (other.rows(), other.cols()), (2, 3));
    m.copy_row(1, &other, 0);
    assert_dense(
        &rt,
        rt.alloc(),
        &m,
        &[&[1, 10, 0], &[1, 0, 65_519]],
        "copied",
    )
}

// Puts in row 1 and column 0, and then values at places that are empty, that hold one, and that are to be empty.
fn edit(rt: &impl Abort, m: &mut SparseMat<Res>)
    requires rows { 3 ≤ m.old.row_room }
    requires columns { 4 ≤ m.old.column_room }
{
    assert_eq!(rt; (m.rows(), m.cols()), (2, 3));
    m.insert_row(1);
    assert_eq!(rt; (m.rows(), m.cols()), (3, 3));
    m.insert_column(0);
    assert_eq!(rt; (m.rows(), m.cols()), (3, 4));
    m.put(1, 0, Res::of(7));
    assert_eq!(rt; (m.rows(), m.cols()), (3, 4));
    m.put(2, 2, Res::of(3));
    assert_eq!(rt; (m.rows(), m.cols()), (3, 4));
    m.put(0, 1, Res::of(0));
}

// Takes out column 2 and row 0.
fn cut(rt: &impl Abort, m: &mut SparseMat<Res>) {
    assert_eq!(rt; (m.rows(), m.cols()), (3, 4));
    m.remove_column(2);
    assert_eq!(rt; (m.rows(), m.cols()), (3, 3));
    m.remove_row(0);
}

#[test]
fn gains_and_loses_rows_and_columns(rt: HostRuntime) -> Result<(), Fail> {
    let q = matrix(&rt, rt.alloc(), &[&[1, 0, 2], &[0, 5, 1]])?;
    let mut m = SparseMat::of(rt.alloc(), &EntryMat::of(rt.alloc(), &q)?)?;
    m.room(3, 4)?;
    edit(&rt, &mut m);
    let want: &[&[u32]] = &[&[0, 0, 0, 2], &[7, 0, 0, 0], &[0, 0, 3, 1]];
    assert_dense(&rt, rt.alloc(), &m, want, "edited")?;
    cut(&rt, &mut m);
    assert_dense(&rt, rt.alloc(), &m, &[&[7, 0, 0], &[0, 0, 1]], "cut")
}
