//! The first places of blocks, and whether blocks are listed by them.

ghost use Rattle.std.specs.Prelude.{◌≡◌, ◌↔◌, ℕ, ◌+◌, ◌<◌, ◌≤◌, length, vec_len, IfOk, IsTrue, slice_index};
ghost use Rattle.part_rules.specs.Listed.{arc_in};
ghost use Rattle.part_rules.specs.Tests.{AreFirstPlaces, IsLeastFirst};
ghost use Rattle.part_orders.specs.Orders.{AreLowerItems, AreReadyFrom};

use out_of_memory::NoMemory;
use std::alloc::Global;

/// The first place of each block. A place of block k stands in part k + 2. `NoMemory` where there is too little for a
/// number for each block.
pub fn first_places(alloc: Global, parts: &[usize], blocks: usize) -> Result<Vec<usize>, NoMemory>
    requires { (k : ℕ) → k < blocks → (x : ℕ) × (x < length parts.now) × (slice_index parts.now x ≡ k + 2) }
    ensures count { IfOk result (λ heads. vec_len heads ≡ blocks) }
    ensures places { IfOk result (λ heads. AreFirstPlaces (length parts.now) (slice_index parts.now) blocks
        (slice_index heads.items)) }
{
    let mut heads = vec![in alloc; 0usize; blocks]?;
    let mut place = parts.len();
    while place > 0 {
        place -= 1;
        let part = parts[place];
        if part >= 2 && part - 2 < blocks {
            heads[part - 2] = place;
        }
    }
    Ok(heads)
}

// For each block the least number behind all blocks of its list.
fn ready_from(
    alloc: Global,
    lower: &[(usize, usize)],
    blocks: usize,
) -> Result<Vec<usize>, NoMemory>
    requires { AreLowerItems blocks lower.now }
    ensures count { IfOk result (λ ready. vec_len ready ≡ blocks) }
    ensures ready { IfOk result (λ ready. AreReadyFrom blocks (arc_in lower.now) (slice_index ready.items)) }
{
    let mut ready = vec![in alloc; 0usize; blocks]?;
    for i in 0..lower.len() {
        let (block, below) = lower[i];
        if ready[block] <= below {
            ready[block] = below + 1;
        }
    }
    Ok(ready)
}

// Whether each block from `from` on and before `block` has a lesser first place than that.
fn is_first_from(heads: &[usize], from: usize, block: usize) -> bool
    requires { block < length heads.now }
    ensures { IsTrue result ↔ ((k : ℕ) → from ≤ k → k < block → slice_index heads.now k < slice_index heads.now block) }
{
    for k in from..block {
        if heads[k] >= heads[block] {
            return false;
        }
    }
    true
}

/// Whether each block that stands before another one, and behind all of that one's list, has the lesser first place. An
/// item (l, k) says that block k is in the list of block l. `NoMemory` where there is too little for a number for each
/// block.
pub fn is_least_first(
    alloc: Global,
    lower: &[(usize, usize)],
    heads: &[usize],
) -> Result<bool, NoMemory>
    requires { AreLowerItems (length heads.now) lower.now }
    ensures { IfOk result (λ answer. IsTrue answer ↔ IsLeastFirst (length heads.now) (arc_in lower.now)
        (slice_index heads.now)) }
{
    let ready = ready_from(alloc, lower, heads.len())?;
    for block in 0..heads.len() {
        if !is_first_from(heads, ready[block], block) {
            return Ok(false);
        }
    }
    Ok(true)
}
