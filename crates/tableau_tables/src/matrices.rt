//! Matrices over the residues modulo 65,521, made of rows of numbers and held against them.

use dense_q::Mat;
use residue_field::{Field, Res};
use std::alloc::Global;
use std::process::Abort;
use std::test::Fail;

fn residues(alloc: Global, numbers: &[u32]) -> Result<Vec<Res>, Fail> {
    let mut found = Vec::new(alloc);
    for number in numbers {
        found.push(Res::of(u64::from(*number)))?;
    }
    Ok(found)
}

/// The matrix with these rows, as wide as the first.
pub(crate) fn matrix(rt: &impl Abort, alloc: Global, rows: &[&[u32]]) -> Result<Mat<Res>, Fail> {
    let columns = match rows.first() {
        Some(row) => row.len(),
        None => 0,
    };
    assert!(rt; columns <= 8_192);
    let mut m = Mat::zeros(alloc, 0, columns)?;
    for row in rows {
        let row = residues(alloc, row)?;
        assert!(rt; m.rows() < 8_192 && m.cols() == row.len());
        m.push_row(&row)?;
    }
    Ok(m)
}

/// Holds each entry of a matrix against these rows.
pub(crate) fn assert_entries(rt: &impl Abort, m: &Mat<Res>, want: &[&[u32]], at: &str) {
    assert_eq!(rt; m.rows(), want.len(), "{at}");
    for (i, row) in want.iter().enumerate() {
        assert_eq!(rt; m.cols(), row.len(), "{at}");
        for (j, value) in row.iter().enumerate() {
            assert!(rt; i < m.rows() && j < m.cols());
            assert_eq!(rt; m.get(i, j).value(), *value, "{at}, row {i}, column {j}");
        }
    }
}
