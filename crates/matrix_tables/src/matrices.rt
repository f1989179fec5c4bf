//! Tests of matrices, dense and by their entries, over the residues modulo 65,521.

use dense_q::{Mat, NoMemory};
use residue_field::{Field, Res};
use row_entries::EntryMat;
use std::alloc::Global;
use std::process::Abort;
use std::test::Fail;

// The matrix with these rows.
fn matrix(alloc: Global, rows: &[[u64; 2]]) -> Result<Mat<Res>, NoMemory> {
    let mut m = Mat::zeros(alloc, 0, 2)?;
    for row in rows {
        if m.rows() < 8_192 && m.cols() == 2 {
            m.push_row(&[Res::of(row[0]), Res::of(row[1])])?;
        }
    }
    Ok(m)
}

fn assert_entries(rt: &impl Abort, m: &Mat<Res>, want: &[&[u32]], at: &str) {
    assert_eq!(rt; m.rows(), want.len(), "{at}");
    for (i, row) in want.iter().enumerate() {
        assert_eq!(rt; m.cols(), row.len(), "{at}");
        for (j, value) in row.iter().enumerate() {
            assert!(rt; i < m.rows() && j < m.cols());
            assert_eq!(rt; m.get(i, j).value(), *value, "{at}, row {i}, column {j}");
        }
    }
}

#[test]
fn makes_matrices(rt: HostRuntime) -> Result<(), Fail> {
    let m = matrix(rt.alloc(), &[[1, 2], [3, 4], [5, 6]])?;
    assert_entries(&rt, &m, &[&[1, 2], &[3, 4], &[5, 6]], "pushed");
    assert_entries(&rt, &m.copy()?, &[&[1, 2], &[3, 4], &[5, 6]], "copied");
    assert_entries(&rt, &m.transposed()?, &[&[1, 3, 5], &[2, 4, 6]], "turned");
    let unit = Mat::identity(rt.alloc(), 2)?;
    assert_entries(&rt, &unit, &[&[1, 0], &[0, 1]], "identity");
    let empty = Mat::<Res>::zeros(rt.alloc(), 0, 3)?;
    assert_eq!(rt; (empty.rows(), empty.cols()), (0, 3));
    Ok(())
}

#[test]
fn changes_rows(rt: HostRuntime) -> Result<(), Fail> {
    let mut m = matrix(rt.alloc(), &[[1, 2], [3, 4]])?;
    assert_eq!(rt; (m.rows(), m.cols()), (2, 2));
    m.add_row(1, 0, Res::of(10));
    assert_entries(&rt, &m, &[&[1, 2], &[13, 24]], "added");
    m.scale_row(0, Res::of(65_520));
    assert_entries(&rt, &m, &[&[65_520, 65_519], &[13, 24]], "scaled");
    m.swap_rows(0, 1);
    assert_entries(&rt, &m, &[&[13, 24], &[65_520, 65_519]], "swapped");
    m.set(1, 0, Res::of(7));
    assert_entries(&rt, &m, &[&[13, 24], &[7, 65_519]], "set");
    Ok(())
}

#[test]
fn multiplies(rt: HostRuntime) -> Result<(), Fail> {
    let a = matrix(rt.alloc(), &[[1, 2], [3, 4], [5, 6]])?;
    let b = matrix(rt.alloc(), &[[7, 8], [9, 65_520]])?;
    assert_eq!(rt; a.cols(), b.rows());
    let product = Mat::product(rt.alloc(), &a, &b)?;
    assert_entries(&rt, &product, &[&[25, 6], &[57, 20], &[89, 34]], "product");
    Ok(())
}

// The columns and the numbers of the entries of a row that are not zero.
fn assert_row(rt: &impl Abort, m: &EntryMat<Res>, row: usize, want: &[(usize, u32)]) {
    assert!(rt; row < m.rows());
    let mut from = 0;
    for (column, number) in want {
        let found = m.next(row, from).map(|entry| (entry.0, entry.1.value()));
        assert_eq!(rt; found, Some((*column, *number)), "row {row}");
        from = *column;
        assert!(rt; from < 8_192);
        from += 1;
    }
    assert!(rt; m.next(row, from).is_none(), "row {row}");
}

#[test]
fn keeps_entries(rt: HostRuntime) -> Result<(), Fail> {
    let m = matrix(rt.alloc(), &[[0, 2], [3, 65_521], [0, 0]])?;
    let entries = EntryMat::of(rt.alloc(), &m)?;
    assert_eq!(rt; (entries.rows(), entries.cols()), (3, 2));
    assert_row(&rt, &entries, 0, &[(1, 2)]);
    assert_row(&rt, &entries, 1, &[(0, 3)]);
    assert_row(&rt, &entries.copy()?, 2, &[]);
    assert_entries(
        &rt,
        &entries.dense()?,
        &[&[0, 2], &[3, 0], &[0, 0]],
        "dense",
    );
    let mut none = EntryMat::<Res>::empty(rt.alloc(), 3);
    none.add_row()?;
    assert_eq!(rt; (none.rows(), none.cols()), (1, 3));
    assert_row(&rt, &none, 0, &[]);
    assert_eq!(rt; none.get(0, 2).value(), 0);
    Ok(())
}
