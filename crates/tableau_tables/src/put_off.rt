//! Tests of the one table, over the residues modulo 65,521. Pivots are tried in row_transform.

use crate::matrices::{assert_entries, matrix};
use residue_field::{Field, Res};
use row_entries::EntryMat;
use row_table::{Placement, PutOff, RowTable};
use std::process::Abort;
use std::test::Fail;

fn assert_rows(rt: &impl Abort, t: &PutOff<Res>, want: &[[u32; 2]], at: &str) {
    for (row, values) in want.iter().enumerate() {
        for (column, value) in values.iter().enumerate() {
            assert!(rt; row < t.rows() && column < t.columns());
            assert_eq!(rt;
                t.entry(row, column).value(),
                *value,
                "{at}, row {row}, column {column}"
            );
        }
    }
}

#[test]
fn puts_off_more_than_may_wait(rt: HostRuntime) -> Result<(), Fail> {
    let q = matrix(&rt, rt.alloc(), &[&[1, 2], &[3, 4], &[5, 6]])?;
    let mut t = PutOff::open(rt.alloc(), &EntryMat::of(rt.alloc(), &q)?)?;
    let factors = [Res::one(), Res::one(), Res::zero()];
    for _turn in 0..40 {
        assert_eq!(rt; t.rows(), factors.len());
        t.add(0, &factors);
    }
    assert_rows(&rt, &t, &[[1, 2], [43, 84], [5, 6]], "forty times");
    t.flush();
    assert_rows(&rt, &t, &[[1, 2], [43, 84], [5, 6]], "flushed");
    Ok(())
}

#[test]
fn places_columns(rt: HostRuntime) -> Result<(), Fail> {
    let mut t = Placement::first(rt.alloc(), 2, 3)?;
    assert_eq!(rt; (t.basic(0), t.basic(1)), (3, 4));
    assert!(rt; !t.is_unit(1));
    t.exchange(0, 1);
    assert_eq!(rt; (t.basic(0), t.basic(1)), (1, 4));
    assert!(rt; t.is_unit(1) && !t.is_unit(3));
    assert_eq!(rt; (t.row(1), t.slot(3)), (0, 1));
    Ok(())
}

#[test]
fn has_unit_matrices_before_any_pivot(rt: HostRuntime) -> Result<(), Fail> {
    let q = matrix(&rt, rt.alloc(), &[&[1, 2], &[3, 4]])?;
    let t = RowTable::open(rt.alloc(), &EntryMat::of(rt.alloc(), &q)?)?;
    assert_entries(&rt, &t.p()?, &[&[1, 2], &[3, 4]], "P");
    assert_entries(&rt, &t.s()?, &[&[1, 0], &[0, 1]], "S");
    assert_entries(&rt, &t.u()?, &[&[1, 0], &[0, 1]], "U");
    Ok(())
}
