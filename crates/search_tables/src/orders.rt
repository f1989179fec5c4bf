//! Tests of the tables of blocks.

ghost use Rattle.std.specs.Prelude.{◌<◌, ◌≡◌, ℕ, ◌+◌, length, IsTrue, slice_index};
ghost use Rattle.part_rules.specs.Listed.{AreArcs};
ghost use Rattle.part_orders.specs.Orders.{AreLowerItems};

use bit_table::BitTable;
use part_orders::{are_covers, chains_of, first_places, is_least_first};
use std::alloc::Global;
use std::process::Abort;
use std::test::Fail;

// Whether the pairs are items of the lists of so many blocks.
fn are_items(lower: &[(usize, usize)], blocks: usize) -> bool
    ensures { IsTrue result → AreLowerItems blocks lower.now }
{
    let mut last = 0;
    for i in 0..lower.len() {
        let (block, below) = lower[i];
        if block >= blocks || below >= block || block < last {
            return false;
        }
        last = block;
    }
    true
}

// Whether the pairs are of so many places.
fn are_arcs(arcs: &[(usize, usize)], places: usize) -> bool
    ensures { IsTrue result → AreArcs places arcs.now }
{
    for i in 0..arcs.len() {
        let (x, y) = arcs[i];
        if x >= places || y >= places {
            return false;
        }
    }
    true
}

// Whether a place stands in the block.
fn has_place(parts: &[usize], block: usize) -> bool
    ensures { IsTrue result → ((x : ℕ) × (x < length parts.now) × (slice_index parts.now x ≡ block + 2)) }
{
    for x in 0..parts.len() {
        if parts[x] >= 2 && parts[x] - 2 == block {
            return true;
        }
    }
    false
}

// Whether each block has a place.
fn have_places(parts: &[usize], blocks: usize) -> bool
    ensures { IsTrue result → ((k : ℕ) → k < blocks → (x : ℕ) × (x < length parts.now)
        × (slice_index parts.now x ≡ k + 2)) }
{
    for k in 0..blocks {
        if !has_place(parts, k) {
            return false;
        }
    }
    true
}

fn pairs_of(alloc: Global, table: &BitTable, blocks: usize) -> Result<Vec<(usize, usize)>, Fail>
    requires rows { table.now.rows ≡ blocks }
    requires size { table.now.size ≡ blocks }
{
    let mut pairs = Vec::new(alloc);
    for l in 0..blocks {
        for k in 0..blocks {
            if table.get(l, k) {
                pairs.push((l, k))?;
            }
        }
    }
    Ok(pairs)
}

// Blocks with their places and lists, and what is to be told of them.
#[derive(Drop)]
struct Case<'a> {
    blocks: usize,
    parts: &'a [usize],
    arcs: &'a [(usize, usize)],
    lower: &'a [(usize, usize)],
    chains: &'a [(usize, usize)],
    covers: bool,
    heads: &'a [usize],
    least: bool,
}

fn check(alloc: Global, rt: &impl Abort, case: &Case) -> Result<(), Fail> {
    let blocks = case.blocks;
    let (parts, arcs, lower) = (case.parts, case.arcs, case.lower);
    assert!(rt; are_items(lower, blocks));
    assert!(rt; are_arcs(arcs, parts.len()));
    assert!(rt; have_places(parts, blocks));
    let chains = chains_of(alloc, lower, blocks)?;
    assert_eq!(rt; pairs_of(alloc, &chains, blocks)?.as_slice(), case.chains);
    let covers = are_covers(alloc, arcs, parts, blocks, lower, &chains)?;
    assert_eq!(rt; covers, case.covers);
    let heads = first_places(alloc, parts, blocks)?;
    assert_eq!(rt; heads.as_slice(), case.heads);
    assert_eq!(rt; is_least_first(alloc, lower, &heads)?, case.least);
    Ok(())
}

// No blocks; a square of four; and a list that holds a block below another one of it.
#[test]
fn tells_chains(rt: HostRuntime) -> Result<(), Fail> {
    let none = Case {
        blocks: 0,
        parts: &[1, 2],
        arcs: &[(1, 0)],
        lower: &[],
        chains: &[],
        covers: true,
        heads: &[],
        least: true,
    };
    let square = Case {
        blocks: 4,
        parts: &[2, 3, 4, 5],
        arcs: &[(3, 2), (3, 1), (2, 0), (1, 0)],
        lower: &[(1, 0), (2, 0), (3, 1), (3, 2)],
        chains: &[(1, 0), (2, 0), (3, 0), (3, 1), (3, 2)],
        covers: true,
        heads: &[0, 1, 2, 3],
        least: true,
    };
    let triangle = Case {
        blocks: 3,
        parts: &[2, 3, 4],
        arcs: &[(1, 0), (2, 0), (2, 1)],
        lower: &[(1, 0), (2, 0), (2, 1)],
        chains: &[(1, 0), (2, 0), (2, 1)],
        covers: false,
        heads: &[0, 1, 2],
        least: true,
    };
    check(rt.alloc(), &rt, &none)?;
    check(rt.alloc(), &rt, &square)?;
    check(rt.alloc(), &rt, &triangle)
}

// Block 1 stands at place 0, block 0 at places 2 and 4, and a place of the first part and one of the last between.
#[test]
fn looks_for_arcs_and_first_places(rt: HostRuntime) -> Result<(), Fail> {
    let cases: [(&[(usize, usize)], &[(usize, usize)], bool, bool); 4] = [
        (&[(0, 4)], &[(1, 0)], true, true),
        (&[(4, 0), (0, 1), (3, 2)], &[(1, 0)], false, true),
        (&[], &[(1, 0)], false, true),
        (&[(0, 4)], &[], true, false),
    ];
    for (arcs, lower, covers, least) in cases {
        let case = Case {
            blocks: 2,
            parts: &[3, 1, 2, 4, 2],
            arcs,
            lower,
            chains: lower,
            covers,
            heads: &[2, 0],
            least,
        };
        check(rt.alloc(), &rt, &case)?;
    }
    Ok(())
}
