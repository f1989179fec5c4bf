//! The entries of a row by rising column, and the first one from a column on.

ghost use Rattle.std.specs.Prelude.{◌≡◌, ℕ, IfNone, IfSome};
ghost use Rattle.residue_theory.specs.Ranges.{HasNone, IsLeast};
ghost use Rattle.row_entries.specs.Rows.{IsPlaceFrom, IsRising, IsEntryRow, has_number, items, number_at};

use residue_field::Field;

/// A value that is not zero, and the column where it stands.
#[derive(Clone, Copy)]
pub struct Entry<F: Field> {
    pub column: u32,
    pub value: F,
}

/// The place of the first entry from a column on.
pub fn place_from<F: Field>(entries: &[Entry<F>], column: usize) -> usize
    requires { IsRising (items F.number entries.now) }
    ensures { IsPlaceFrom (items F.number entries.now) column result }
{
    entries.partition_point(|entry| (entry.column as usize) < column)
}

/// The value at a column: zero where there is no entry.
pub fn value_at<F: Field>(entries: &[Entry<F>], column: usize) -> F
    requires { IsRising (items F.number entries.now) }
    ensures { F.number result ≡ number_at (items F.number entries.now) column }
{
    let place = place_from(entries, column);
    if place < entries.len() && entries[place].column as usize == column {
        entries[place].value
    } else {
        F::zero()
    }
}

/// The first entry from a column on: its column and its value.
pub fn first_from<F: Field>(entries: &[Entry<F>], column: usize) -> Option<(usize, F)>
    requires { IsRising (items F.number entries.now) }
    ensures none { IfNone result ((p w : ℕ) → IsEntryRow p w (items F.number entries.now) →
        HasNone (has_number (items F.number entries.now)) column w) }
    ensures least { IfSome result (λ e. (p w : ℕ) → IsEntryRow p w (items F.number entries.now) →
        IsLeast (has_number (items F.number entries.now)) column w e.0) }
    ensures value { IfSome result (λ e. number_at (items F.number entries.now) e.0 ≡ F.number e.1) }
{
    let place = place_from(entries, column);
    if place < entries.len() {
        Some((entries[place].column as usize, entries[place].value))
    } else {
        None
    }
}
