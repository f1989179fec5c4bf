//! Rows of entries, beside numbers for their columns.

ghost use Rattle.std.specs.Prelude.{◌≡◌, ◌%◌, ◌<◌, IfOk, length, map};
ghost use Rattle.std.specs.List.{All};
ghost use Rattle.cert_text.specs.Contents.{numbered, numbered_rows};
ghost use Rattle.block_solver.specs.Rows.{AreRowSums, row_sum};

use cert_text::Items;
use out_of_memory::NoMemory;
use residue_field::Field;
use std::alloc::Global;

/// The sum of the entries, each times the number of its column.
pub fn row_sum<F: Field>(entries: &[(usize, F)], x: &[F]) -> F
    requires { All (λ entry. entry.0 < length x.now) entries.now }
    ensures { F.number result % F.modulus ≡ row_sum (numbered F.number entries.now) (map F.number x.now) % F.modulus }
{
    let mut sum = F::zero();
    for entry in entries {
        sum = sum.plus_multiple(x[entry.0], entry.1);
    }
    sum
}

/// The sum of each row.
pub fn row_sums<F: Field>(
    alloc: Global,
    rows: &[Items<(usize, F)>],
    x: &[F],
) -> Result<Vec<F>, NoMemory>
    requires { All (λ row. All (λ entry. entry.0 < length x.now) row) rows.now }
    ensures { IfOk result (λ sums. AreRowSums F.modulus (numbered_rows F.number rows.now) (map F.number x.now)
        (map F.number sums.items)) }
{
    let mut sums = Vec::with_capacity(alloc, rows.len())?;
    for row in rows {
        sums.push(row_sum(row.as_slice(), x))?;
    }
    Ok(sums)
}
