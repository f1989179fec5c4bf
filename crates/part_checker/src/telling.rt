//! What the rules of the parts are tried on.

ghost use Rattle.std.specs.Prelude.{◌≡◌, ℕ, IfOk, length};
ghost use Rattle.cert_text.specs.Readings.{ColumnsDiffer};
ghost use Rattle.part_checker.specs.Told.{AreTold, TellsParts};

use crate::items::lower_items;
use bit_table::BitTable;
use cert_text::Ccf;
use out_of_memory::NoMemory;
use part_arcs::{FormArcs, arcs_of};
use part_orders::{chains_of, first_places};
use residue_field::Field;
use std::alloc::Global;

/// What the rules of the parts of a form are tried on: its arcs, the items of its lower lists, for each block the blocks to
/// which chains of these lists lead, and the first column of each block.
#[derive(Drop)]
pub struct PartsTold {
    pub arcs: FormArcs,
    pub lower: Vec<(usize, usize)>,
    pub below: BitTable,
    pub heads: Vec<usize>,
}

/// What the rules of the parts of a form are tried on, where `parts` tells in which part each column stands: 1 is the first
/// tail, k + 2 is block k, and the last tail comes after the blocks.
pub fn told_of<F: Field>(
    alloc: Global,
    form: &Ccf<F>,
    parts: &[usize],
) -> Result<PartsTold, NoMemory>
    requires differ { ColumnsDiffer form.now.base form.now.mates }
    requires parts { TellsParts form.now parts.now }
    ensures { IfOk result (λ told. AreTold F.modulus form.now parts.now told) }
{
    let blocks = form.blocks().as_slice();
    let arcs = arcs_of(alloc, form)?;
    let lower = lower_items(alloc, blocks)?;
    let below = chains_of(alloc, &lower, blocks.len())?;
    let heads = first_places(alloc, parts, blocks.len())?;
    Ok(PartsTold {
        arcs,
        lower,
        below,
        heads,
    })
}
