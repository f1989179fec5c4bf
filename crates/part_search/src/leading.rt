//! Whether arcs lead down, by the numbers of the parts.

ghost use Rattle.std.specs.Prelude.{◌≡◌, ◌<◌, ◌≤◌, ◌+◌, ◌↔◌, ℕ, Bool, IsTrue, length, slice_index};
ghost use Rattle.bit_table.specs.Bits.{bit_in};
ghost use Rattle.part_rules.specs.Listed.{AreArcs, arc_in, marked};
ghost use Rattle.part_rules.specs.Tests.{ArcsAreDown, MayLead, TellsChains};
ghost use Rattle.part_search.specs.Steps.{AreNumberedParts, HavePart, MayAllLead};

use bit_table::BitTable;

// Whether each place that is marked has this part.
fn have_part(marks: &[bool], parts: &[usize], part: usize) -> bool
    requires { length marks.now ≡ length parts.now }
    ensures { IsTrue result ↔ HavePart marks.now parts.now part (length parts.now) }
{
    for x in 0..parts.len() {
        if marks[x] && parts[x] != part {
            return false;
        }
    }
    true
}

// Whether a place of one part may lead to a place of another one.
fn may_lead(below: &BitTable, last: usize, from: usize, to: usize) -> bool
    requires size { below.now.size ≡ below.now.rows }
    requires last { last ≡ below.now.rows + 2 }
    requires from { 1 ≤ from }
    requires from_part { from ≤ last }
    requires to { 1 ≤ to }
    requires to_part { to ≤ last }
    ensures { (lower : ℕ → ℕ → Bool) → TellsChains lower below.now.rows (bit_in below.now) →
        IsTrue result ↔ MayLead below.now.rows lower from to }
{
    if from == last || to == 1 || from == to {
        return true;
    }
    if from == 1 || to == last {
        return false;
    }
    below.get(from - 2, to - 2)
}

// Whether each arc leads where it may.
fn may_all_lead(arcs: &[(usize, usize)], parts: &[usize], last: usize, below: &BitTable) -> bool
    requires arcs { AreArcs (length parts.now) arcs.now }
    requires parts { AreNumberedParts last parts.now }
    requires size { below.now.size ≡ below.now.rows }
    requires last { last ≡ below.now.rows + 2 }
    ensures { (lower : ℕ → ℕ → Bool) → TellsChains lower below.now.rows (bit_in below.now) →
        IsTrue result ↔ MayAllLead arcs.now parts.now below.now.rows lower (length arcs.now) }
{
    for arc in arcs {
        if !may_lead(below, last, parts[arc.0], parts[arc.1]) {
            return false;
        }
    }
    true
}

/// Whether starts stand in part 1 and ends in part `last`, and each arc leads where it may: from the last part, to the
/// first one, within a part, or from a block to one below it, which `below` tells. Block k has the part k + 2.
pub fn arcs_are_down(
    arcs: &[(usize, usize)],
    starts: &[bool],
    ends: &[bool],
    parts: &[usize],
    last: usize,
    below: &BitTable,
) -> bool
    requires arcs { AreArcs (length parts.now) arcs.now }
    requires starts { length starts.now ≡ length parts.now }
    requires ends { length ends.now ≡ length parts.now }
    requires parts { AreNumberedParts last parts.now }
    requires size { below.now.size ≡ below.now.rows }
    requires last { last ≡ below.now.rows + 2 }
    ensures { (lower : ℕ → ℕ → Bool) → TellsChains lower below.now.rows (bit_in below.now) →
        IsTrue result ↔ ArcsAreDown (arc_in arcs.now) (length parts.now) (marked starts.now) (marked ends.now)
        (slice_index parts.now) below.now.rows lower }
{
    if !have_part(starts, parts, 1) || !have_part(ends, parts, last) {
        return false;
    }
    may_all_lead(arcs, parts, last, below)
}
