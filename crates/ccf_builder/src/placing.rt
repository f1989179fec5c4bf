//! The part in which each column and each row stands.

ghost use Rattle.std.specs.Prelude.{◌≡◌, IfOk, length};
ghost use Rattle.minimiser_lattice.specs.Views.{parts_in};
ghost use Rattle.ccf_builder.specs.Pairs.{AreWithin};
ghost use Rattle.ccf_builder.specs.Placings.{PlacesColumns, PlacesRows};

use minimiser_lattice::{Lattice, Part};
use out_of_memory::NoMemory;
use std::alloc::Global;

/// The part of each of these columns.
pub fn column_parts(alloc: Global, lattice: &Lattice, columns: usize) -> Result<Vec<Part>, NoMemory>
    requires { columns ≡ lattice.now.places }
    ensures { IfOk result (λ list. PlacesColumns (parts_in lattice.now) list.items) }
{
    let mut parts = Vec::with_capacity(alloc, columns)?;
    for column in 0..columns {
        parts.push(lattice.part_of(column))?;
    }
    Ok(parts)
}

/// The part of each of so many rows: that of the column with which it is paired, and the last one where it is not.
pub fn row_parts(
    alloc: Global,
    rows: usize,
    pairs: &[(usize, usize)],
    columns: &[Part],
) -> Result<Vec<Part>, NoMemory>
    requires { AreWithin rows (length columns.now) pairs.now }
    ensures { IfOk result (λ list. PlacesRows rows pairs.now columns.now list.items) }
{
    let mut parts = vec![in alloc; Part::Last; rows]?;
    for pair in pairs {
        parts[pair.0] = columns[pair.1];
    }
    Ok(parts)
}
