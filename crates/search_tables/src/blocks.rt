//! Tests of the parts of directed graphs.

ghost use Rattle.std.specs.Prelude.{◌≡◌, ◌^◌, ◌/◌, ◌&&◌, nat_eq, nat_lt, bit_and, vec_len, slice_index, IfOk};

use crate::shapes::{ByNumber, Complete, Path, Shape};
use minimiser_lattice::Part::{Block, First, Last};
use minimiser_lattice::{Lattice, Part};
use std::alloc::Global;
use std::process::Abort;
use std::test::Fail;

// Fewer than 64 places: x leads to y where bit y of row x is set.
#[derive(Drop)]
struct Listed {
    rows: Vec<u64>,
}

impl Shape for Listed {
    ghost count = { λ s. vec_len s.rows };

    ghost leads_to = { λ s x y. nat_lt y 64 && nat_eq (bit_and (slice_index s.rows.items x / 2 ^ y) 1) 1 };

    fn places(&self) -> usize {
        self.rows.len()
    }

    fn leads(&self, x: usize, y: usize) -> bool {
        y < 64 && (self.rows[x] >> y) & 1 == 1
    }
}

impl Listed {
    fn new(alloc: Global, places: usize, arcs: &[(usize, usize)]) -> Result<Self, Fail>
        ensures { IfOk result (λ s. vec_len s.rows ≡ places) }
    {
        let mut rows = vec![in alloc; 0u64; places]?;
        for (x, y) in arcs {
            if *x < places && *y < 64 {
                rows[*x] |= 1 << *y;
            }
        }
        Ok(Listed { rows })
    }
}

fn marks(alloc: Global, places: usize, marked: &[usize]) -> Result<Vec<bool>, Fail>
    ensures { IfOk result (λ v. vec_len v ≡ places) }
{
    let mut marks = Vec::new(alloc);
    for place in 0..places {
        marks.push(marked.contains(&place))?;
    }
    Ok(marks)
}

// The pairs of blocks k and l with k below l and none between.
fn covers(alloc: Global, lattice: &Lattice) -> Result<Vec<(usize, usize)>, Fail> {
    let mut pairs = Vec::new(alloc);
    for l in 0..lattice.blocks() {
        for k in 0..lattice.blocks() {
            if lattice.covers(k, l) {
                pairs.push((k, l))?;
            }
        }
    }
    Ok(pairs)
}

// How many pairs of blocks k and l there are with k below l.
fn pairs_below(lattice: &Lattice) -> usize {
    let mut pairs: usize = 0;
    for l in 0..lattice.blocks() {
        for k in 0..lattice.blocks() {
            pairs = pairs.saturating_add(usize::from(lattice.below(k, l)));
        }
    }
    pairs
}

// Arcs, starts and ends, and what is to be told of them.
#[derive(Drop)]
struct Case<'a> {
    arcs: &'a [(usize, usize)],
    starts: &'a [usize],
    ends: &'a [usize],
    parts: &'a [Part],
    covers: &'a [(usize, usize)],
    below: usize,
}

fn fill(alloc: Global, lattice: &mut Lattice, places: usize, case: &Case) -> Result<(), Fail>
    requires { lattice.old.places ≡ places }
    ensures { lattice.new.places ≡ places }
{
    let listed = Listed::new(alloc, places, case.arcs)?;
    let starts = marks(alloc, places, case.starts)?;
    let ends = marks(alloc, places, case.ends)?;
    lattice.fill(&ByNumber::new(&listed), &starts, &ends);
    Ok(())
}

// The part of each place.
fn parts(alloc: Global, lattice: &Lattice, places: usize) -> Result<Vec<Part>, Fail>
    requires { lattice.now.places ≡ places }
{
    let mut parts = Vec::new(alloc);
    for place in 0..places {
        parts.push(lattice.part_of(place))?;
    }
    Ok(parts)
}

impl<'a> Case<'a> {
    // With no starts and no ends.
    fn of(
        arcs: &'a [(usize, usize)],
        blocks: &'a [Part],
        covers: &'a [(usize, usize)],
        below: usize,
    ) -> Self {
        Case {
            arcs,
            starts: &[],
            ends: &[],
            parts: blocks,
            covers,
            below,
        }
    }

    // With no block below another.
    fn apart(
        arcs: &'a [(usize, usize)],
        starts: &'a [usize],
        ends: &'a [usize],
        parts: &'a [Part],
    ) -> Self {
        Case {
            arcs,
            starts,
            ends,
            parts,
            covers: &[],
            below: 0,
        }
    }
}

// A lattice that is filled tells what is to be told.
fn assert_told(
    alloc: Global,
    rt: &impl Abort,
    lattice: &Lattice,
    places: usize,
    case: &Case,
) -> Result<(), Fail>
    requires { lattice.now.places ≡ places }
{
    assert_eq!(rt; parts(alloc, lattice, places)?.as_slice(), case.parts);
    assert_eq!(rt; covers(alloc, lattice)?.as_slice(), case.covers);
    assert_eq!(rt; pairs_below(lattice), case.below);
    Ok(())
}

// One lattice is filled with all cases, one after the other.
fn check(alloc: Global, rt: &impl Abort, places: usize, cases: &[Case]) -> Result<(), Fail> {
    let mut lattice = Lattice::open(alloc, places)?;
    for case in cases {
        fill(alloc, &mut lattice, places, case)?;
        assert_told(alloc, rt, &lattice, places, case)?;
    }
    Ok(())
}

// `eq a x=?`, `eq b x=?`: the column is an end. `eq a x=1`, `eq b x=1`: it is a block.
#[test]
fn one_place(rt: HostRuntime) -> Result<(), Fail> {
    let cases = [
        Case::apart(&[(0, 0)], &[], &[0], &[Last]),
        Case::apart(&[(0, 0)], &[], &[], &[Block(0)]),
        Case::apart(&[], &[0], &[], &[First]),
    ];
    check(rt.alloc(), &rt, 1, &cases)
}

// `eq a x=? y=?`, `eq b x=?`; `eq a x=? `, `eq b y=?`; `eq a x=1+?`.
#[test]
fn two_places(rt: HostRuntime) -> Result<(), Fail> {
    let cases = [
        Case::of(&[(0, 0), (0, 1)], &[Block(1), Block(0)], &[(0, 1)], 1),
        Case::of(&[(0, 0), (1, 1)], &[Block(0), Block(1)], &[], 0),
        Case::of(&[(0, 1), (1, 0)], &[Block(0), Block(0)], &[], 0),
        Case::apart(&[(0, 1)], &[0], &[1], &[First, First]),
        Case::apart(&[(0, 1)], &[], &[1], &[Last, Last]),
        Case::apart(&[(0, 1)], &[1], &[], &[Block(0), First]),
        Case::apart(&[(0, 1)], &[], &[0], &[Last, Block(0)]),
    ];
    check(rt.alloc(), &rt, 2, &cases)
}

// `eq a x=1 y=1`, `eq b x=1 y=?` is the first; then chains, of which one has an arc past the middle, and none.
#[test]
fn three_places(rt: HostRuntime) -> Result<(), Fail> {
    let falling = [Block(2), Block(1), Block(0)];
    let rising = [Block(0), Block(1), Block(2)];
    let cases = [
        Case::of(
            &[(2, 0), (2, 1), (1, 2)],
            &[Block(0), Block(1), Block(1)],
            &[(0, 1)],
            1,
        ),
        Case::of(&[(0, 1), (1, 2)], &falling, &[(0, 1), (1, 2)], 3),
        Case::of(&[(0, 1), (1, 2), (0, 2)], &falling, &[(0, 1), (1, 2)], 3),
        Case::of(&[(2, 1), (1, 0)], &rising, &[(0, 1), (1, 2)], 3),
        Case::of(&[(1, 0), (2, 0)], &rising, &[(0, 1), (0, 2)], 2),
        Case::of(&[], &rising, &[], 0),
    ];
    check(rt.alloc(), &rt, 3, &cases)
}

// Of those that are ready the block with the least place is next, though another has waited longer.
#[test]
fn four_places(rt: HostRuntime) -> Result<(), Fail> {
    let cases = [
        Case::of(
            &[(0, 1), (1, 2), (2, 3), (3, 0)],
            &[Block(0), Block(0), Block(0), Block(0)],
            &[],
            0,
        ),
        Case::of(
            &[(0, 1)],
            &[Block(1), Block(0), Block(2), Block(3)],
            &[(0, 1)],
            1,
        ),
        Case::of(
            &[(0, 3)],
            &[Block(3), Block(0), Block(1), Block(2)],
            &[(2, 3)],
            1,
        ),
        Case::of(
            &[(0, 3), (3, 0)],
            &[Block(0), Block(1), Block(2), Block(0)],
            &[],
            0,
        ),
        Case::of(
            &[(0, 3), (3, 0), (0, 2)],
            &[Block(2), Block(0), Block(1), Block(2)],
            &[(1, 2)],
            1,
        ),
        Case::apart(&[(0, 1), (2, 3)], &[0], &[3], &[First, First, Last, Last]),
        Case::apart(
            &[(2, 0), (1, 3)],
            &[0],
            &[3],
            &[First, Last, Block(0), Last],
        ),
    ];
    check(rt.alloc(), &rt, 4, &cases)
}

// Two rows of three places, each of which leads to the right and down; then three rings of two, each leading to the
// next.
#[test]
fn six_places(rt: HostRuntime) -> Result<(), Fail> {
    let grid = [(0, 1), (1, 2), (3, 4), (4, 5), (0, 3), (1, 4), (2, 5)];
    let rings = [
        (0, 3),
        (3, 0),
        (0, 1),
        (1, 4),
        (4, 1),
        (4, 2),
        (2, 5),
        (5, 2),
        (3, 5),
    ];
    let cases = [
        Case::of(
            &grid,
            &[Block(5), Block(3), Block(1), Block(4), Block(2), Block(0)],
            &[(0, 1), (0, 2), (1, 3), (2, 3), (2, 4), (3, 5), (4, 5)],
            12,
        ),
        Case::of(
            &rings,
            &[Block(2), Block(1), Block(0), Block(2), Block(1), Block(0)],
            &[(0, 1), (1, 2)],
            3,
        ),
    ];
    check(rt.alloc(), &rt, 6, &cases)
}

// The lattice of a chain of 130 places.
fn long_chain(alloc: Global) -> Result<Lattice, Fail>
    ensures { IfOk result (λ lattice. lattice.places ≡ 130) }
{
    let path = Path { places: 130 };
    let none = marks(alloc, 130, &[])?;
    let mut lattice = Lattice::open(alloc, 130)?;
    lattice.fill(&ByNumber::new(&path), &none, &none);
    Ok(lattice)
}

// Each place of a chain is a block, below all before it; words of bits end within it.
fn assert_chain(alloc: Global, rt: &impl Abort, lattice: &Lattice) -> Result<(), Fail>
    requires { lattice.now.places ≡ 130 }
{
    assert_eq!(rt;
        (lattice.part_of(129), lattice.part_of(0)),
        (Block(0), Block(129))
    );
    assert_eq!(rt; pairs_below(lattice), 8_385);
    assert_eq!(rt; covers(alloc, lattice)?.len(), 129);
    Ok(())
}

#[test]
fn a_long_chain(rt: HostRuntime) -> Result<(), Fail> {
    let lattice = long_chain(rt.alloc())?;
    assert_chain(rt.alloc(), &rt, &lattice)
}

// Each arc is asked for twice, and once more where it leads to a place that was not seen.
#[test]
fn asks_for_each_arc_twice(rt: HostRuntime) -> Result<(), Fail> {
    let complete = Complete { places: 100 };
    let arcs = ByNumber::new(&complete);
    let none = marks(rt.alloc(), 100, &[])?;
    let mut lattice = Lattice::open(rt.alloc(), 100)?;
    lattice.fill(&arcs, &none, &none);
    assert_eq!(rt; (lattice.blocks(), lattice.part_of(99)), (1, Block(0)));
    assert_eq!(rt; arcs.asks(), 20_099);
    Ok(())
}
