//! Matrices of numbers that are edited row by row and column by column, to hold tableaus against.

use dense_q::Mat;
use residue_field::{Field, Res};
use row_entries::EntryMat;
use std::alloc::Global;
use std::process::Abort;
use std::test::Fail;

/// The rows of a matrix with so many columns.
#[derive(Drop)]
pub(crate) struct Plain {
    pub(crate) rows: Vec<Vec<u32>>,
    pub(crate) columns: usize,
}

impl Plain {
    pub(crate) fn empty(alloc: Global, columns: usize) -> Plain {
        Plain {
            rows: Vec::new(alloc),
            columns,
        }
    }

    pub(crate) fn insert_row(
        &mut self,
        rt: &impl Abort,
        at: usize,
        items: &[u32],
    ) -> Result<(), Fail> {
        assert!(rt; at <= self.rows.len());
        let row = Vec::from_slice(*self.rows.allocator(), items)?;
        self.rows.insert(at, row)?;
        Ok(())
    }

    pub(crate) fn remove_row(&mut self, rt: &impl Abort, at: usize) {
        assert!(rt; at < self.rows.len());
        self.rows.remove(at);
    }

    pub(crate) fn insert_column(&mut self, rt: &impl Abort, at: usize) -> Result<(), Fail> {
        assert!(rt; self.columns < 8_192);
        self.columns += 1;
        for row in &mut self.rows {
            assert!(rt; at <= row.len());
            row.insert(at, 0)?;
        }
        Ok(())
    }

    pub(crate) fn remove_column(&mut self, rt: &impl Abort, at: usize) {
        assert!(rt; 0 < self.columns);
        self.columns -= 1;
        for row in &mut self.rows {
            assert!(rt; at < row.len());
            row.remove(at);
        }
    }

    /// The same matrix over the residues.
    pub(crate) fn matrix(&self, rt: &impl Abort, alloc: Global) -> Result<Mat<Res>, Fail> {
        assert!(rt; self.columns <= 8_192);
        let mut m = Mat::zeros(alloc, 0, self.columns)?;
        for row in &self.rows {
            push_row(rt, alloc, &mut m, row)?;
        }
        Ok(m)
    }

    pub(crate) fn entries(&self, rt: &impl Abort, alloc: Global) -> Result<EntryMat<Res>, Fail> {
        let m = self.matrix(rt, alloc)?;
        Ok(EntryMat::of(alloc, &m)?)
    }
}

/// The residues of numbers.
pub(crate) fn residues(alloc: Global, numbers: &[u32]) -> Result<Vec<Res>, Fail> {
    let mut found = Vec::new(alloc);
    for number in numbers {
        found.push(Res::of(u64::from(*number)))?;
    }
    Ok(found)
}

fn push_row(rt: &impl Abort, alloc: Global, m: &mut Mat<Res>, numbers: &[u32]) -> Result<(), Fail> {
    let row = residues(alloc, numbers)?;
    assert!(rt; m.rows() < 8_192 && m.cols() == row.len());
    m.push_row(&row)?;
    Ok(())
}

/// Holds a matrix against another.
pub(crate) fn assert_same(rt: &impl Abort, found: &Mat<Res>, want: &Mat<Res>, at: &str) {
    assert_eq!(rt; found.rows(), want.rows(), "{at}");
    assert_eq!(rt; found.cols(), want.cols(), "{at}");
    for i in 0..found.rows() {
        assert_same_row(rt, found, want, i, at);
    }
}

fn assert_same_row(rt: &impl Abort, found: &Mat<Res>, want: &Mat<Res>, i: usize, at: &str) {
    for j in 0..found.cols() {
        assert!(rt; i < found.rows() && j < found.cols() && i < want.rows() && j < want.cols());
        assert!(rt;
            found.get(i, j) == want.get(i, j),
            "{at}, row {i}, column {j}"
        );
    }
}
