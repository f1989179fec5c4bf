//! Rising lists of numbers.

ghost use Rattle.std.specs.Prelude.{◌≡◌, ℕ, ◌<◌, ◌≤◌, ◌↔◌, true, false, length, IfNone, IfOk, IfSome};
ghost use Rattle.std.specs.List.Sorted.{IsStrictlyIncreasing};
ghost use Rattle.residue_theory.specs.Ranges.{HasNone, IsLeast};
ghost use Rattle.residue_theory.specs.Sets.{has};
ghost use Rattle.exchange_graph.specs.Marks.{members_of};
ghost use Rattle.sparse_t.specs.Lists.{AreAllBelow};
ghost use Rattle.equation_choice.specs.Lists.{AreMarkedBelow};

use out_of_memory::NoMemory;
use std::alloc::Global;

/// The first number of a rising list that is not below `from`.
pub fn first_from(list: &[u32], from: usize) -> Option<usize>
    requires { IsStrictlyIncreasing list.now }
    ensures none { IfNone result ((n : ℕ) → HasNone (has list.now) from n) }
    ensures least { IfSome result (λ y. (n : ℕ) → AreAllBelow n list.now → IsLeast (has list.now) from n y) }
{
    let place = list.partition_point(|number| (*number as usize) < from);
    if place < list.len() {
        Some(list[place] as usize)
    } else {
        None
    }
}

/// The numbers below n that are marked, rising.
pub fn marked_numbers(alloc: Global, marks: &[bool], n: usize) -> Result<Vec<usize>, NoMemory>
    requires { n ≤ length marks.now }
    ensures { IfOk result (λ list. AreMarkedBelow (members_of marks.now) n list.items) }
{
    let mut list = Vec::new(alloc);
    for number in 0..n {
        if marks[number] {
            list.push(number)?;
        }
    }
    Ok(list)
}

/// So many places, none of them marked.
pub fn no_marks(alloc: Global, n: usize) -> Result<Vec<bool>, NoMemory>
    ensures count { IfOk result (λ marks. length marks.items ≡ n) }
    ensures unmarked { IfOk result (λ marks. (x : ℕ) → members_of marks.items x ≡ false) }
{
    Ok(vec![in alloc; false; n]?)
}

/// Marks one number, and no other.
pub fn mark_only(marks: &mut [bool], number: usize)
    requires { number < length marks.old }
    ensures count { length marks.new ≡ length marks.old }
    ensures marks { (x : ℕ) → (members_of marks.new x ≡ true) ↔ (x ≡ number) }
{
    for x in 0..marks.len() {
        marks[x] = x == number;
    }
}
