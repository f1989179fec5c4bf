//! Whether each place is met by the searches that should meet it.

ghost use Rattle.std.specs.Prelude.{◌≡◌, ◌<◌, ◌≤◌, ◌+◌, ◌↔◌, ℕ, Bool, IfOk, IsTrue, length, slice_index};
ghost use Rattle.std.specs.List.{All};
ghost use Rattle.part_rules.specs.Listed.{AreArcs, arc_in, inner, marked};
ghost use Rattle.part_rules.specs.Tests.{AreSeeds};
ghost use Rattle.part_search.specs.Searched.{IsSearched};
ghost use Rattle.part_search.specs.Steps.{AreMarkedBut, AreMarkedWith};

use crate::within::{reached_within, reaching_within};
use out_of_memory::NoMemory;
use std::alloc::Global;

// The same marks.
fn copy_of(alloc: Global, marks: &[bool]) -> Result<Vec<bool>, NoMemory>
    ensures { IfOk result (λ copy. copy.items ≡ marks.now) }
{
    let mut copy = Vec::with_capacity(alloc, marks.len())?;
    for mark in marks {
        copy.push(*mark)?;
    }
    Ok(copy)
}

// Marks the heads.
fn mark_heads(marks: &mut [bool], heads: &[usize])
    requires { All (λ head. head < length marks.old) heads.now }
    ensures { AreMarkedWith marks.old heads.now (length heads.now) marks.new }
{
    for head in heads {
        marks[*head] = true;
    }
}

// The marks, and those of the heads.
fn seeds_of(alloc: Global, marks: &[bool], heads: &[usize]) -> Result<Vec<bool>, NoMemory>
    requires { All (λ head. head < length marks.now) heads.now }
    ensures count { IfOk result (λ seeds. length seeds.items ≡ length marks.now) }
    ensures seeds { IfOk result (λ seeds. AreSeeds (length marks.now) (marked marks.now) (length heads.now)
        (slice_index heads.now) (marked seeds.items)) }
{
    let mut seeds = copy_of(alloc, marks)?;
    mark_heads(&mut seeds, heads);
    Ok(seeds)
}

// Whether each place has this part, or is marked.
fn are_marked_but(marks: &[bool], parts: &[usize], part: usize) -> bool
    requires { length marks.now ≡ length parts.now }
    ensures { IsTrue result ↔ AreMarkedBut marks.now parts.now part (length parts.now) }
{
    for x in 0..parts.len() {
        if parts[x] != part && !marks[x] {
            return false;
        }
    }
    true
}

/// Whether each place but those of the last part is reached within its part from a start or a head, and each but those
/// of part 1 reaches an end or a head: each block has one head, and block k the part k + 2.
pub fn are_met(
    alloc: Global,
    arcs: &[(usize, usize)],
    starts: &[bool],
    ends: &[bool],
    parts: &[usize],
    last: usize,
    heads: &[usize],
) -> Result<bool, NoMemory>
    requires arcs { AreArcs (length parts.now) arcs.now }
    requires starts { length starts.now ≡ length parts.now }
    requires ends { length ends.now ≡ length parts.now }
    requires heads { All (λ head. head < length parts.now) heads.now }
    requires last { last ≡ length heads.now + 2 }
    ensures { IfOk result (λ answer. IsSearched (inner (arc_in arcs.now) (slice_index parts.now)) (length parts.now)
        (marked starts.now) (marked ends.now) (slice_index parts.now) (length heads.now) (slice_index heads.now)
        answer) }
{
    let low = seeds_of(alloc, starts, heads)?;
    let from = reached_within(alloc, arcs, parts, &low)?;
    let high = seeds_of(alloc, ends, heads)?;
    let to = reaching_within(alloc, arcs, parts, &high)?;
    if !are_marked_but(&from, parts, last) {
        return Ok(false);
    }
    Ok(are_marked_but(&to, parts, 1))
}
