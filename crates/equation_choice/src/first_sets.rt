//! For each equation the first set that holds it.

ghost use Rattle.std.specs.Prelude.{◌≡◌, ℕ, ◌<◌, cond, None, Some, length, map, IfOk};
ghost use Rattle.std.specs.List.{All};
ghost use Rattle.residue_theory.specs.Sets.{has};
ghost use Rattle.equation_choice.specs.ConflictLists.{AreListsBelow, TellsFirst};
ghost use Rattle.equation_choice.specs.Places.{place_at};

use crate::places::no_places;
use out_of_memory::NoMemory;
use std::alloc::Global;

/// For each equation below n the number of the first set that holds it, if one does.
pub fn first_sets(
    alloc: Global,
    sets: &[Vec<usize>],
    n: usize,
) -> Result<Vec<Option<usize>>, NoMemory>
    requires { AreListsBelow n (map (λ set. set.items) sets.now) }
    ensures { IfOk result (λ first. TellsFirst (map (λ set. set.items) sets.now) first.items) }
{
    let mut first = no_places(alloc, n)?;
    put_sets(&mut first, sets);
    Ok(first)
}

// The same, where no equation has one yet. A set that comes before takes the place of those behind it.
fn put_sets(first: &mut [Option<usize>], sets: &[Vec<usize>])
    requires below { AreListsBelow (length first.old) (map (λ set. set.items) sets.now) }
    requires none { (e : ℕ) → place_at first.old e ≡ None }
    ensures { TellsFirst (map (λ set. set.items) sets.now) first.new }
{
    for k in (0..sets.len()).rev() {
        put_set(first, &sets[k], k);
    }
}

// Puts the number of a set at each equation that the set holds.
fn put_set(first: &mut [Option<usize>], set: &[usize], k: usize)
    requires { All (λ equation. equation < length first.old) set.now }
    ensures count { length first.new ≡ length first.old }
    ensures first { (e : ℕ) → place_at first.new e ≡ cond (has set.now e) (Some k) (place_at first.old e) }
{
    for equation in set {
        first[*equation] = Some(k);
    }
}
