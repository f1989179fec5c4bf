//! Rows of a matrix, each over slices of their own.

ghost use Rattle.std.specs.Prelude.{◌≡◌, ℕ, ◌<◌, ◌≤◌, map, length, replicate, vec_len, slice_index, slice_index_or, IfOk};
ghost use Rattle.std.specs.List.{All};
ghost use Rattle.dense_q.specs.Rows.{multiple, IsRowSum};

use residue_field::Field;
use std::alloc::{AllocError, Global};

pub(crate) fn multiply<F: Field>(row: &mut [F], factor: F)
    ensures { map F.number row.new ≡ multiple F.modulus (F.number factor) (map F.number row.old) }
{
    for x in row.iter_mut() {
        *x = factor.mul(*x);
    }
}

pub(crate) fn zero_row<F: Field>(alloc: Global, columns: usize) -> Result<Vec<F>, AllocError>
    ensures { IfOk result (λ row. map F.number row.items ≡ replicate columns 0) }
{
    let mut row = Vec::with_capacity(alloc, columns)?;
    for _column in 0..columns {
        row.push(F::zero())?;
    }
    Ok(row)
}

// The sum of the rows, each times its coefficient.
pub(crate) fn combination<F: Field>(
    alloc: Global,
    coefficients: &[F],
    rows: &[Vec<F>],
    columns: usize,
) -> Result<Vec<F>, AllocError>
    requires coefficients { length coefficients.now ≡ length rows.now }
    requires full { All (λ row. vec_len row ≡ columns) rows.now }
    ensures { IfOk result (λ row. IsRowSum F.modulus (map F.number coefficients.now)
        (map (λ row. map F.number row.items) rows.now) columns (map F.number row.items)) }
{
    let mut sum = zero_row(alloc, columns)?;
    for (row, coefficient) in rows.iter().zip(coefficients) {
        F::add_scaled(&mut sum, row, *coefficient);
    }
    Ok(sum)
}

// Tells a proof that the number of each value is below the modulus.
pub(crate) fn in_field<F: Field>(row: &[F])
    ensures { All (λ value. F.number value < F.modulus) row.now }
{
    for value in row {
        value.in_field();
    }
}

// The values at one column.
pub(crate) fn column<F: Field>(
    alloc: Global,
    rows: &[Vec<F>],
    j: usize,
) -> Result<Vec<F>, AllocError>
    requires { All (λ row. j < vec_len row) rows.now }
    ensures { IfOk result (λ column. map F.number column.items ≡ map (λ row.
        slice_index (map F.number row.items) j) rows.now) }
{
    let mut column = Vec::with_capacity(alloc, rows.len())?;
    for row in rows {
        column.push(row[j])?;
    }
    Ok(column)
}
