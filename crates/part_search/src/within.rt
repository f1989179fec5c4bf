//! What is reached from some places, and what reaches some, within parts.

ghost use Rattle.std.specs.Prelude.{◌≡◌, length, slice_index, IfOk};
ghost use Rattle.part_rules.specs.Listed.{arc_in, AreArcs, inner, marked, AreReached, AreReaching};
ghost use Rattle.part_search.specs.Neighbours.{AreLists};

use crate::marking::Marking;
use crate::neighbours::Neighbours;
use out_of_memory::NoMemory;
use std::alloc::Global;

/// The places that are reached from a start along arcs that stay within one part. A walk may have no arc: the starts are
/// among them. It takes time for each place and each arc once.
pub fn reached_within(
    alloc: Global,
    arcs: &[(usize, usize)],
    parts: &[usize],
    starts: &[bool],
) -> Result<Vec<bool>, NoMemory>
    requires arcs { AreArcs (length parts.now) arcs.now }
    requires starts { length starts.now ≡ length parts.now }
    ensures { IfOk result (λ marks. AreReached (inner (arc_in arcs.now) (slice_index parts.now))
        (length parts.now) (marked starts.now) marks.items) }
{
    let neighbours = Neighbours::forth(alloc, arcs, parts)?;
    let mut marking = Marking::start(alloc, starts)?;
    marking.reach(&neighbours)?;
    Ok(marking.marks)
}

/// The places that reach an end along arcs that stay within one part. A walk may have no arc: the ends are among them.
/// It takes time for each place and each arc once.
pub fn reaching_within(
    alloc: Global,
    arcs: &[(usize, usize)],
    parts: &[usize],
    ends: &[bool],
) -> Result<Vec<bool>, NoMemory>
    requires arcs { AreArcs (length parts.now) arcs.now }
    requires ends { length ends.now ≡ length parts.now }
    ensures { IfOk result (λ marks. AreReaching (inner (arc_in arcs.now) (slice_index parts.now))
        (length parts.now) (marked ends.now) marks.items) }
{
    let neighbours = Neighbours::back(alloc, arcs, parts)?;
    let mut marking = Marking::start(alloc, ends)?;
    marking.reach(&neighbours)?;
    Ok(marking.marks)
}
