//! The printed parts.

ghost use Rattle.std.specs.Prelude.{◌≡◌, ◌≢◌, ◌<◌, ℕ, IfOk, length, vec_len, slice_index_or};
ghost use Rattle.minimiser_lattice.specs.Views.{parts_in};
ghost use Rattle.cert_text.specs.declared.part.CcfBlock.{CcfBlock};
ghost use Rattle.ccf_builder.specs.declared.canonical.Block.{Block};
ghost use Rattle.ccf_builder.specs.Pairs.{AreWithin};
ghost use Rattle.ccf_builder.specs.Placings.{IsBlockOf, PrintsParts};

use crate::canonical::{Block, Parts};
use crate::pairs::PairLists;
use crate::part_lists::{PartLists, take_at};
use crate::placing::{column_parts, row_parts};
use cert_text::{CcfBlock, CcfPart, Items};
use minimiser_lattice::Lattice;
use out_of_memory::NoMemory;
use std::alloc::Global;
use std::mem;

// The blocks with their rows, in their order: blocks and rows are taken out of these lists.
fn blocks_of(
    alloc: Global,
    mut blocks: Vec<Block>,
    mut q_rows: Vec<Vec<usize>>,
    mut t_rows: Vec<Vec<usize>>,
) -> Result<Items<CcfBlock>, NoMemory>
    requires q_rows { vec_len q_rows ≡ vec_len blocks }
    requires t_rows { vec_len t_rows ≡ vec_len blocks }
    ensures count { IfOk result (λ printed. length printed ≡ length blocks.items) }
    ensures blocks { IfOk result (λ printed. (k : ℕ) (d : CcfBlock) → k < length printed →
        IsBlockOf blocks.items q_rows.items t_rows.items k (slice_index_or printed k d)) }
{
    let mut printed = Vec::with_capacity(alloc, blocks.len())?;
    for k in 0..blocks.len() {
        let Block { columns, lower } = take_block(alloc, &mut blocks, k);
        let part = CcfPart {
            columns,
            q_rows: take_at(alloc, &mut q_rows, k),
            t_rows: take_at(alloc, &mut t_rows, k),
        };
        printed.push(CcfBlock { part, lower })?;
    }
    Ok(Items::from_vec(printed))
}

// Takes block k out, and leaves an empty one.
fn take_block(alloc: Global, blocks: &mut [Block], k: usize) -> Block
    requires { k < length blocks.old }
    ensures block { (d : Block) → result ≡ slice_index_or blocks.old k d }
    ensures count { length blocks.new ≡ length blocks.old }
    ensures others { (j : ℕ) (d : Block) → j ≢ k → slice_index_or blocks.new j d ≡ slice_index_or blocks.old j d }
{
    let empty = Block {
        columns: Items::from_vec(Vec::new(alloc)),
        lower: Items::from_vec(Vec::new(alloc)),
    };
    mem::replace(&mut blocks[k], empty)
}

// The part with these columns and rows.
fn part_with(columns: Items<usize>, q_rows: Vec<usize>, t_rows: Vec<usize>) -> CcfPart
    ensures { result ≡ record { columns = columns; q_rows = q_rows.items; t_rows = t_rows.items } }
{
    CcfPart {
        columns,
        q_rows: Items::from_vec(q_rows),
        t_rows: Items::from_vec(t_rows),
    }
}

/// The printed parts: the two tails, and the blocks in their order.
#[derive(Drop)]
pub struct PrintedParts {
    pub first: CcfPart,
    pub blocks: Items<CcfBlock>,
    pub last: CcfPart,
}

/// The parts of so many columns, Q rows and T rows: each column in its own part, and each row in that of its column, or
/// in the last one where it has none.
pub fn parts_of(
    alloc: Global,
    lattice: &Lattice,
    columns: usize,
    q_rows: usize,
    t_rows: usize,
    pair: &PairLists,
) -> Result<PrintedParts, NoMemory>
    requires columns { columns ≡ lattice.now.places }
    requires base { AreWithin q_rows columns pair.now.base.items }
    requires mates { AreWithin t_rows columns pair.now.mates.items }
    ensures { IfOk result (λ parts.
        PrintsParts (parts_in lattice.now) q_rows t_rows pair.now.base.items pair.now.mates.items
        parts.first parts.blocks parts.last) }
{
    let column_places = column_parts(alloc, lattice, columns)?;
    let q_places = row_parts(alloc, q_rows, &pair.base, &column_places)?;
    let t_places = row_parts(alloc, t_rows, &pair.mates, &column_places)?;
    let blocks = lattice.blocks();
    let parts = Parts::of(alloc, lattice, &column_places)?;
    let q_lists = PartLists::of(alloc, &q_places, blocks)?;
    let t_lists = PartLists::of(alloc, &t_places, blocks)?;
    Ok(PrintedParts {
        first: part_with(parts.first, q_lists.first, t_lists.first),
        blocks: blocks_of(alloc, parts.blocks, q_lists.blocks, t_lists.blocks)?,
        last: part_with(parts.last, q_lists.last, t_lists.last),
    })
}
