//! Whether the lists hold what is right below each block.

ghost use Rattle.std.specs.Prelude.{◌≡◌, ◌⊎◌, ◌↔◌, ℕ, ◌+◌, ◌<◌, true, length, IfOk, IfSome, IfNone, IsTrue, slice_index};
ghost use Rattle.bit_table.specs.Bits.{bit_in};
ghost use Rattle.part_rules.specs.Listed.{arc_in, AreArcs};
ghost use Rattle.part_rules.specs.Tests.{TellsChains, AreCovers};
ghost use Rattle.part_orders.specs.Orders.{AreLowerItems, TellsArcs, TellsDeep, AreOnlyDirect};

use bit_table::BitTable;
use out_of_memory::NoMemory;
use std::alloc::Global;

// The block of a part, where it is one of so many blocks.
fn block_of(part: usize, blocks: usize) -> Option<usize>
    ensures some { IfSome result (λ k. (k < blocks) × (part ≡ k + 2)) }
    ensures none { IfNone result ((k : ℕ) → k < blocks → part ≡ k + 2 → ⊥) }
{
    if part >= 2 && part - 2 < blocks {
        Some(part - 2)
    } else {
        None
    }
}

// Sets the bit of two parts, where both are blocks.
fn put_arc(table: &mut BitTable, blocks: usize, from: usize, to: usize)
    requires rows { table.old.rows ≡ blocks }
    requires size { table.old.size ≡ blocks }
    ensures put { (l k : ℕ) → l < blocks → k < blocks → (bit_in table.new l k ≡ true)
        ↔ ((bit_in table.old l k ≡ true) ⊎ ((from ≡ l + 2) × (to ≡ k + 2))) }
    ensures rows { table.new.rows ≡ blocks }
    ensures size { table.new.size ≡ blocks }
{
    if let Some(l) = block_of(from, blocks) {
        if let Some(k) = block_of(to, blocks) {
            table.set(l, k);
        }
    }
}

// For each block those to which an arc leads from it.
fn direct_arcs(
    alloc: Global,
    arcs: &[(usize, usize)],
    parts: &[usize],
    blocks: usize,
) -> Result<BitTable, NoMemory>
    requires { AreArcs (length parts.now) arcs.now }
    ensures rows { IfOk result (λ t. t.rows ≡ blocks) }
    ensures size { IfOk result (λ t. t.size ≡ blocks) }
    ensures direct { IfOk result (λ t. TellsArcs (arc_in arcs.now) (length parts.now) (slice_index parts.now) blocks
        (bit_in t)) }
{
    let mut table = BitTable::open(alloc, blocks, blocks)?;
    for i in 0..arcs.len() {
        let (x, y) = arcs[i];
        let (from, to) = (parts[x], parts[y]);
        put_arc(&mut table, blocks, from, to);
    }
    Ok(table)
}

// For each block those that stand below a block of its list.
fn deep_chains(
    alloc: Global,
    lower: &[(usize, usize)],
    blocks: usize,
    below: &BitTable,
) -> Result<BitTable, NoMemory>
    requires lower { AreLowerItems blocks lower.now }
    requires rows { below.now.rows ≡ blocks }
    requires size { below.now.size ≡ blocks }
    ensures rows { IfOk result (λ t. t.rows ≡ blocks) }
    ensures size { IfOk result (λ t. t.size ≡ blocks) }
    ensures deep { IfOk result (λ t. TellsDeep (arc_in lower.now) blocks (bit_in below.now) (bit_in t)) }
{
    let mut table = BitTable::open(alloc, blocks, blocks)?;
    for i in 0..lower.len() {
        let (block, middle) = lower[i];
        table.join_other(block, below, middle);
    }
    Ok(table)
}

// Whether each item is told by the first table and not by the second one.
fn are_only_direct(
    lower: &[(usize, usize)],
    blocks: usize,
    direct: &BitTable,
    deep: &BitTable,
) -> bool
    requires lower { AreLowerItems blocks lower.now }
    requires direct_rows { direct.now.rows ≡ blocks }
    requires direct_size { direct.now.size ≡ blocks }
    requires deep_rows { deep.now.rows ≡ blocks }
    requires deep_size { deep.now.size ≡ blocks }
    ensures { IsTrue result ↔ AreOnlyDirect (arc_in lower.now) (bit_in direct.now) (bit_in deep.now) }
{
    for i in 0..lower.len() {
        let (block, below) = lower[i];
        if !direct.get(block, below) || deep.get(block, below) {
            return false;
        }
    }
    true
}

/// Whether an arc leads from each block to each one of its list, and a chain leads from no other one of the list to it.
/// A place of block k stands in part k + 2; an item (l, k) says that block k is in the list of block l; and `below` has
/// for each block the blocks to which chains of the lists lead from it. `NoMemory` where there is too little for two
/// more tables of that size.
pub fn are_covers(
    alloc: Global,
    arcs: &[(usize, usize)],
    parts: &[usize],
    blocks: usize,
    lower: &[(usize, usize)],
    below: &BitTable,
) -> Result<bool, NoMemory>
    requires arcs { AreArcs (length parts.now) arcs.now }
    requires lower { AreLowerItems blocks lower.now }
    requires rows { below.now.rows ≡ blocks }
    requires size { below.now.size ≡ blocks }
    requires chains { TellsChains (arc_in lower.now) blocks (bit_in below.now) }
    ensures { IfOk result (λ answer. IsTrue answer ↔ AreCovers (arc_in arcs.now) (length parts.now)
        (slice_index parts.now) blocks (arc_in lower.now)) }
{
    let direct = direct_arcs(alloc, arcs, parts, blocks)?;
    let deep = deep_chains(alloc, lower, blocks, below)?;
    Ok(are_only_direct(lower, blocks, &direct, &deep))
}
