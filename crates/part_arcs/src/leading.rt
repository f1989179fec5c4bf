//! Arcs from what stands in the rows of items to the columns of these.

ghost use Rattle.std.specs.Prelude.{◌≡◌, ◌<◌, ◌≤◌, ℕ, OnOk, length, map};
ghost use Rattle.std.specs.List.{All};
ghost use Rattle.part_arcs.specs.Leading.{AreLed, AreLedTo};
ghost use Rattle.part_arcs.specs.Marking.{first_numbers};

use cert_text::Items;
use out_of_memory::NoMemory;

// Puts an arc to y from the column of each entry, but from y itself.
fn put_keys<T>(
    arcs: &mut Vec<(usize, usize)>,
    items: &[(usize, T)],
    y: usize,
) -> Result<(), NoMemory>
    ensures { OnOk result (AreLedTo (first_numbers items.now) y (length items.now) arcs.old.items arcs.new.items) }
{
    for item in items {
        if item.0 != y {
            arcs.push((item.0, y))?;
        }
    }
    Ok(())
}

// Puts an arc to y from each number of a list, but from y itself.
fn put_numbers(arcs: &mut Vec<(usize, usize)>, list: &[usize], y: usize) -> Result<(), NoMemory>
    ensures { OnOk result (AreLedTo list.now y (length list.now) arcs.old.items arcs.new.items) }
{
    for number in list {
        if *number != y {
            arcs.push((*number, y))?;
        }
    }
    Ok(())
}

/// Puts the arcs from the entries in the row of each item to its column.
pub fn put_entries<T: Drop>(
    arcs: &mut Vec<(usize, usize)>,
    pairs: &[(usize, usize)],
    rows: &[Items<(usize, T)>],
) -> Result<(), NoMemory>
    requires { All (λ pair. pair.0 < length rows.now) pairs.now }
    ensures { OnOk result
        (AreLed (map first_numbers rows.now) pairs.now (length pairs.now) arcs.old.items arcs.new.items) }
{
    for pair in pairs {
        put_keys(arcs, rows[pair.0].as_slice(), pair.1)?;
    }
    Ok(())
}

/// Puts the arcs from the symbols in the row of each item to its column.
pub fn put_symbols(
    arcs: &mut Vec<(usize, usize)>,
    pairs: &[(usize, usize)],
    rows: &[Items<usize>],
) -> Result<(), NoMemory>
    requires { All (λ pair. pair.0 < length rows.now) pairs.now }
    ensures { OnOk result (AreLed rows.now pairs.now (length pairs.now) arcs.old.items arcs.new.items) }
{
    for pair in pairs {
        put_numbers(arcs, rows[pair.0].as_slice(), pair.1)?;
    }
    Ok(())
}
