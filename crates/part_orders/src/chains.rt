//! The chains of the lists.

ghost use Rattle.std.specs.Prelude.{◌≡◌, IfOk};
ghost use Rattle.bit_table.specs.Bits.{bit_in};
ghost use Rattle.part_rules.specs.Listed.{arc_in};
ghost use Rattle.part_rules.specs.Tests.{TellsChains};
ghost use Rattle.part_orders.specs.Orders.{AreLowerItems};

use bit_table::BitTable;
use out_of_memory::NoMemory;
use std::alloc::Global;

/// For each block the blocks to which chains of the lists lead from it. An item (l, k) says that block k is in the list
/// of block l. `NoMemory` where there is too little for a bit for each two blocks.
pub fn chains_of(
    alloc: Global,
    lower: &[(usize, usize)],
    blocks: usize,
) -> Result<BitTable, NoMemory>
    requires { AreLowerItems blocks lower.now }
    ensures rows { IfOk result (λ t. t.rows ≡ blocks) }
    ensures size { IfOk result (λ t. t.size ≡ blocks) }
    ensures chains { IfOk result (λ t. TellsChains (arc_in lower.now) blocks (bit_in t)) }
{
    let mut table = BitTable::open(alloc, blocks, blocks)?;
    for i in 0..lower.len() {
        let (block, below) = lower[i];
        table.join(block, below);
        table.set(block, below);
    }
    Ok(table)
}
