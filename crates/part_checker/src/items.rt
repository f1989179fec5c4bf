//! The lower lists of blocks, item by item.

ghost use Rattle.std.specs.Prelude.{◌≡◌, ◌<◌, ◌≤◌, ◌++◌, ℕ, IfOk, OnOk, length, slice_index_or};
ghost use Rattle.cert_text.specs.Ranges.{AreRising};
ghost use Rattle.cert_text.specs.declared.part.CcfBlock.{CcfBlock};
ghost use Rattle.part_checker.specs.Items.{AreItems, items_of};

use cert_text::CcfBlock;
use out_of_memory::NoMemory;
use std::alloc::Global;

// Puts the items of the list of a block at the end.
fn put_list(items: &mut Vec<(usize, usize)>, block: usize, list: &[usize]) -> Result<(), NoMemory>
    ensures { OnOk result (items.new.items ≡ items.old.items ++ items_of block list.now) }
{
    for lower in list {
        items.push((block, *lower))?;
    }
    Ok(())
}

/// The items of all lower lists, a block and one of its list, by rising block.
pub fn lower_items(alloc: Global, blocks: &[CcfBlock]) -> Result<Vec<(usize, usize)>, NoMemory>
    requires { (k : ℕ) (d : CcfBlock) → k < length blocks.now → AreRising k (slice_index_or blocks.now k d).lower }
    ensures { IfOk result (λ items. AreItems blocks.now (length blocks.now) items.items) }
{
    let mut items = Vec::new(alloc);
    for block in 0..blocks.len() {
        put_list(&mut items, block, blocks[block].lower.as_slice())?;
    }
    Ok(items)
}
