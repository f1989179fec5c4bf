//! A row of an echelon.

ghost use Rattle.std.specs.Prelude.{◌≡◌, ◌≢◌, ◌<◌, ◌≤◌, IfOk, length, map, slice_index};
ghost use Rattle.limits.specs.Limits.{column_limit};
ghost use Rattle.row_entries.specs.Rows.{items};
ghost use Rattle.row_echelon.specs.Echelons.{AreEntriesOf, IsDivided};

use out_of_memory::NoMemory;
use residue_field::Field;
use row_entries::Entry;
use std::alloc::Global;

// A row of an echelon, with a 1 at its lead.
#[derive(Drop)]
pub(crate) struct PivotRow<F: Field> {
    pub(crate) lead: usize,
    pub(crate) right: F,
    pub(crate) entries: Vec<Entry<F>>,
}

// The entries of a row that are not 0, times a factor.
fn entries_of<F: Field>(alloc: Global, row: &[F], factor: F) -> Result<Vec<Entry<F>>, NoMemory>
    requires { length row.now ≤ column_limit }
    ensures { IfOk result (λ entries. AreEntriesOf F.modulus (F.number factor) (length row.now) (map F.number row.now)
        (items F.number entries.items)) }
{
    let mut entries = Vec::new(alloc);
    for column in 0..row.len() {
        let value = row[column];
        if !value.is_zero() {
            entries.push(Entry {
                column: column as u32,
                value: value.mul(factor),
            })?;
        }
    }
    Ok(entries)
}

// A row and its right side, divided by the number at the lead.
pub(crate) fn divided<F: Field>(
    alloc: Global,
    row: &[F],
    lead: usize,
    right: F,
) -> Result<PivotRow<F>, NoMemory>
    requires narrow { length row.now ≤ column_limit }
    requires lead { lead < length row.now }
    requires some { slice_index (map F.number row.now) lead ≢ 0 }
    ensures { IfOk result (λ made. IsDivided F.modulus (length row.now) (map F.number row.now) lead (F.number right)
        made.lead (F.number made.right) (items F.number made.entries.items)) }
{
    let factor = row[lead].inv().unwrap();
    let entries = entries_of(alloc, row, factor)?;
    Ok(PivotRow {
        lead,
        right: right.mul(factor),
        entries,
    })
}
