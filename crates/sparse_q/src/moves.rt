//! Entries whose columns move by one where a column before them comes or goes.

ghost use Rattle.std.specs.Prelude.{◌≡◌, ◌<◌, map};
ghost use Rattle.std.specs.List.{All};
ghost use Rattle.limits.specs.Limits.{column_limit};
ghost use Rattle.linear_algebra.specs.Parts.{skip, unskip};
ghost use Rattle.sparse_q.specs.Rows.{entry_moved};

use residue_field::Field;
use row_entries::Entry;

// Makes each column from `at` on greater by one.
pub(crate) fn raise<F: Field>(entries: &mut [Entry<F>], at: usize)
    requires { All (λ entry. entry.column < column_limit) entries.old }
    ensures { entries.new ≡ map (entry_moved (skip at)) entries.old }
{
    for entry in entries.iter_mut() {
        *entry = raised(*entry, at);
    }
}

// Makes each column after `at` smaller by one.
pub(crate) fn lower<F: Field>(entries: &mut [Entry<F>], at: usize)
    ensures { entries.new ≡ map (entry_moved (unskip at)) entries.old }
{
    for entry in entries.iter_mut() {
        *entry = lowered(*entry, at);
    }
}

fn raised<F: Field>(entry: Entry<F>, at: usize) -> Entry<F>
    requires { entry.column < column_limit }
    ensures { result ≡ entry_moved (skip at) entry }
{
    if (entry.column as usize) < at {
        entry
    } else {
        Entry {
            column: entry.column + 1,
            value: entry.value,
        }
    }
}

fn lowered<F: Field>(entry: Entry<F>, at: usize) -> Entry<F>
    ensures { result ≡ entry_moved (unskip at) entry }
{
    if entry.column as usize <= at {
        entry
    } else {
        Entry {
            column: entry.column - 1,
            value: entry.value,
        }
    }
}
