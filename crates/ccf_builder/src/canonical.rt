//! The canonical parts of a layered matrix as lists.

ghost use Rattle.std.specs.Prelude.{◌≡◌, ◌<◌, ℕ, IfOk, length, vec_len, slice_index_or};
ghost use Rattle.minimiser_lattice.specs.Views.{parts_in};
ghost use Rattle.ccf_builder.specs.declared.canonical.Block.{Block};
ghost use Rattle.ccf_builder.specs.Placings.{IsColumnBlock, ListsColumns, ListsLower};

use crate::part_lists::{PartLists, take_at};
use cert_text::Items;
use minimiser_lattice::{Lattice, Part};
use out_of_memory::NoMemory;
use std::alloc::Global;

/// A block of the canonical parts: its columns, and the blocks right below it, which are those below it with no third block
/// between. Both are counted from 0, and rise.
#[derive(Drop)]
pub struct Block {
    pub columns: Items<usize>,
    pub lower: Items<usize>,
}

/// The canonical parts of a layered matrix: the columns that are in every minimiser, the blocks of those that the minimisers
/// hold together, and the columns that are in none. Columns are counted from 0, and each list rises. (Murota, chapters 2
/// and 4.)
#[derive(Drop)]
pub struct Parts {
    pub first: Items<usize>,
    pub blocks: Vec<Block>,
    pub last: Items<usize>,
}

impl Parts {
    // The columns that stand in each part, and the blocks that each block covers.
    pub(crate) fn of(alloc: Global, lattice: &Lattice, columns: &[Part]) -> Result<Parts, NoMemory>
        ensures { IfOk result (ListsColumns (parts_in lattice.now) columns.now) }
    {
        let lists = PartLists::of(alloc, columns, lattice.blocks())?;
        Ok(Parts {
            first: Items::from_vec(lists.first),
            blocks: blocks_of(alloc, lattice, lists.blocks)?,
            last: Items::from_vec(lists.last),
        })
    }
}

// The blocks, in their order: their columns are taken out of these lists.
fn blocks_of(
    alloc: Global,
    lattice: &Lattice,
    mut columns: Vec<Vec<usize>>,
) -> Result<Vec<Block>, NoMemory>
    requires columns { vec_len columns ≡ (parts_in lattice.now).blocks }
    ensures count { IfOk result (λ blocks. length blocks.items ≡ (parts_in lattice.now).blocks) }
    ensures blocks { IfOk result (λ blocks. (k : ℕ) (d : Block) → k < length blocks.items →
        IsColumnBlock (parts_in lattice.now) columns.items k (slice_index_or blocks.items k d)) }
{
    let mut blocks = Vec::with_capacity(alloc, lattice.blocks())?;
    for k in 0..lattice.blocks() {
        let listed = take_at(alloc, &mut columns, k);
        let lower = lower_blocks(alloc, lattice, k)?;
        blocks.push(Block {
            columns: listed,
            lower,
        })?;
    }
    Ok(blocks)
}

// The blocks that block k covers, which stand before it.
fn lower_blocks(alloc: Global, lattice: &Lattice, k: usize) -> Result<Items<usize>, NoMemory>
    requires { k < (parts_in lattice.now).blocks }
    ensures { IfOk result (ListsLower (parts_in lattice.now) k) }
{
    let mut lower = Vec::new(alloc);
    let mut from = 0;
    while let Some(j) = lattice.next_cover(k, from) {
        lower.push(j)?;
        from = j + 1;
    }
    Ok(Items::from_vec(lower))
}
