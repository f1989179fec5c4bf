//! Whether rows stand in the parts of their columns.

ghost use Rattle.std.specs.Prelude.{◌≡◌, ◌↔◌, ℕ, IfOk, IsTrue, length};
ghost use Rattle.cert_text.specs.Ranges.{ArePairs};
ghost use Rattle.cert_checker.specs.Placing.{ArePlacedRows, StandWithColumns};

use out_of_memory::NoMemory;
use std::alloc::Global;

// For each row the part of the column of its item, and `last` where it has none.
fn wanted_places(
    alloc: Global,
    rows: usize,
    pairs: &[(usize, usize)],
    columns: &[usize],
    last: usize,
) -> Result<Vec<usize>, NoMemory>
    requires { ArePairs rows (length columns.now) pairs.now }
    ensures { IfOk result (λ places. ArePlacedRows rows pairs.now columns.now last (length pairs.now) places.items) }
{
    let mut places = vec![in alloc; last; rows]?;
    for pair in pairs {
        places[pair.0] = columns[pair.1];
    }
    Ok(places)
}

// Whether two lists hold the same numbers in the same order.
fn same_places(a: &[usize], b: &[usize]) -> bool
    ensures { IsTrue result ↔ (a.now ≡ b.now) }
{
    a == b
}

/// Whether each row with an item has the part of its column, and each other one the part `last`.
pub fn stand_with_columns(
    alloc: Global,
    places: &[usize],
    pairs: &[(usize, usize)],
    columns: &[usize],
    last: usize,
) -> Result<bool, NoMemory>
    requires { ArePairs (length places.now) (length columns.now) pairs.now }
    ensures { IfOk result (λ answer.
        IsTrue answer ↔ StandWithColumns (length places.now) pairs.now columns.now last places.now) }
{
    let wanted = wanted_places(alloc, places.len(), pairs, columns, last)?;
    Ok(same_places(&wanted, places))
}
