//! Whether matched rows have symbols, and whether no column stands twice.

ghost use Rattle.std.specs.Prelude.{◌≡◌, ◌<◌, ◌≤◌, ◌↔◌, ℕ, IfOk, IsTrue, length};
ghost use Rattle.std.specs.List.{All};
ghost use Rattle.sparse_t.specs.Incidences.{incidence_rows};
ghost use Rattle.cert_text.specs.Ranges.{ArePairs};
ghost use Rattle.cert_text.specs.Readings.{ColumnsDiffer};
ghost use Rattle.cert_checker.specs.Matching.{AreSymbols, AreFreeColumns, IsTaken};

use out_of_memory::NoMemory;
use sparse_t::Pattern;
use std::alloc::Global;

/// Whether the row of each item has a symbol at its column.
pub fn are_symbols(t: &Pattern, mates: &[(usize, usize)]) -> bool
    requires { ArePairs (incidence_rows t.now) t.now.width mates.now }
    ensures { IsTrue result ↔ AreSymbols t.now mates.now (length mates.now) }
{
    for item in mates {
        if !t.touches(item.0, item.1) {
            return false;
        }
    }
    true
}

// Writes 1 at the column of each item. False where one of them has it already.
fn take_columns(taken: &mut [usize], pairs: &[(usize, usize)]) -> bool
    requires { All (λ pair. pair.1 < length taken.old) pairs.now }
    ensures answer { IsTrue result ↔ AreFreeColumns taken.old pairs.now (length pairs.now) }
    ensures taken { IsTrue result → IsTaken taken.old pairs.now (length pairs.now) taken.new }
{
    for pair in pairs {
        if taken[pair.1] != 0 {
            return false;
        }
        taken[pair.1] = 1;
    }
    true
}

/// Whether no column stands twice, in one of two lists of items or in both.
pub fn columns_differ(
    alloc: Global,
    base: &[(usize, usize)],
    mates: &[(usize, usize)],
    columns: usize,
) -> Result<bool, NoMemory>
    requires base { All (λ pair. pair.1 < columns) base.now }
    requires mates { All (λ pair. pair.1 < columns) mates.now }
    ensures { IfOk result (λ answer. IsTrue answer ↔ ColumnsDiffer base.now mates.now) }
{
    let mut taken = vec![in alloc; 0; columns]?;
    if !take_columns(&mut taken, base) {
        return Ok(false);
    }
    Ok(take_columns(&mut taken, mates))
}
