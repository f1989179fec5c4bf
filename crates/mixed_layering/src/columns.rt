//! The columns of a layered matrix.

ghost use Rattle.std.specs.Prelude.{◌≡◌, ◌<◌, ◌+◌, ℕ, length, IfOk, MatchOption, Some, slice_get, slice_index};
ghost use Rattle.std.specs.List.Sorted.{IsStrictlyIncreasing};
ghost use Rattle.mixed_layering.specs.Columns.{AreColumns, StandsIn, IsAbsent};

use mixed_model::Origin;
use out_of_memory::NoMemory;
use std::alloc::Global;

/// The origins of the columns: the unknowns in order, then the split equations.
pub fn column_origins(
    alloc: Global,
    unknowns: usize,
    split: &[usize],
) -> Result<Vec<Origin>, NoMemory>
    ensures { IfOk result (λ origins. AreColumns unknowns split.now (length split.now) origins.items) }
{
    let mut origins = Vec::new(alloc);
    for unknown in 0..unknowns {
        origins.push(Origin::Unknown(unknown))?;
    }
    for equation in split {
        origins.push(Origin::Split(*equation))?;
    }
    Ok(origins)
}

/// Where an equation stands among the split ones.
pub fn place_of(split: &[usize], equation: usize) -> Option<usize>
    requires { IsStrictlyIncreasing split.now }
    ensures { MatchOption result (IsAbsent split.now equation) (λ place. StandsIn split.now equation place) }
{
    split.binary_search(&equation).ok()
}
