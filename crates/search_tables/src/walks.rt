//! Tests of searches.

ghost use Rattle.std.specs.Prelude.{◌≡◌, ◌<◌, ◌+◌, ◌%◌, nat_eq, vec_len, IfOk};

use crate::shapes::{ByNumber, Complete, Path, Shape};
use exchange_graph::{Arcs, Search, Steps};
use std::alloc::Global;
use std::marker::Brand;
use std::sync::ledger::{Blank, Ledger};
use std::test::Fail;

// Each place leads to the next one, and the last to the first.
#[derive(Drop)]
struct Ring {
    places: usize,
}

impl Shape for Ring {
    ghost count = { λ s. s.places };

    ghost leads_to = { λ s x y. nat_eq y ((x + 1) % s.places) };

    fn places(&self) -> usize {
        self.places
    }

    fn leads(&self, x: usize, y: usize) -> bool {
        let places = self.places;
        y == (x + 1) % places
    }
}

#[derive(PartialEq, Eq, Debug, Drop)]
struct Outcome {
    arcs: Option<usize>,
    reached: usize,
    looks: usize,
    asks: usize,
}

impl Outcome {
    fn new(arcs: Option<usize>, reached: usize, looks: usize, asks: usize) -> Self {
        Outcome {
            arcs,
            reached,
            looks,
            asks,
        }
    }
}

fn marks(alloc: Global, places: usize, marked: &[usize]) -> Result<Vec<bool>, Fail>
    ensures { IfOk result (λ v. vec_len v ≡ places) }
{
    let mut marks = Vec::new(alloc);
    for place in 0..places {
        marks.push(marked.contains(&place))?;
    }
    Ok(marks)
}

// Searches once. The count of the reached places is 0 where a walk was found.
fn search<S: Shape, L: Ledger>(
    alloc: Global,
    shape: &S,
    starts: &[usize],
    ends: &[usize],
    blank: Blank,
) -> Result<Outcome, Fail>
    requires name { blank.name ≡ L.name }
    requires parts { blank.parts ≡ L.parts }
    requires some { 0 < blank.parts }
{
    let arcs = ByNumber::new(shape);
    let places = shape.places();
    let mut search = Search::open(alloc, places)?;
    let mut steps = Steps::<L>::new(blank);
    let starts = marks(alloc, places, starts)?;
    let ends = marks(alloc, places, ends)?;
    let last = search.shortest(&arcs, &starts, &ends, &mut steps);
    let mut reached = 0;
    if last.is_none() {
        reached = (0..places).filter(|x| search.reached(*x)).count();
    }
    Ok(Outcome {
        arcs: last,
        reached,
        looks: arcs.looks(),
        asks: arcs.asks(),
    })
}

// Looks and asks are counted by hand: a look asks once for the arc to each of the 1,000 places.
#[test]
fn goes_round_a_ring(rt: HostRuntime) -> Result<(), Fail> {
    let ring = Ring { places: 1_000 };
    let rows: [(&[usize], &[usize], Outcome); 3] = [
        (&[0], &[999], Outcome::new(Some(999), 0, 999, 999_000)),
        (&[10], &[10], Outcome::new(Some(0), 0, 0, 0)),
        (&[0], &[], Outcome::new(None, 1_000, 1_000, 1_000_000)),
    ];
    for (starts, ends, want) in &rows {
        let found = search::<Ring, Brand>(rt.alloc(), &ring, starts, ends, Blank::new(1))?;
        assert_eq!(rt; found, *want);
    }
    Ok(())
}

#[test]
fn goes_through_a_complete_digraph(rt: HostRuntime) -> Result<(), Fail> {
    let complete = Complete { places: 1_000 };
    let rows: [(&[usize], &[usize], Outcome); 3] = [
        (&[0], &[999], Outcome::new(Some(1), 0, 999, 999_000)),
        (&[7], &[], Outcome::new(None, 1_000, 1_000, 1_000_000)),
        (&[], &[999], Outcome::new(None, 0, 0, 0)),
    ];
    for (starts, ends, want) in &rows {
        let found = search::<Complete, Brand>(rt.alloc(), &complete, starts, ends, Blank::new(1))?;
        assert_eq!(rt; found, *want);
    }
    Ok(())
}

#[test]
fn goes_along_a_path(rt: HostRuntime) -> Result<(), Fail> {
    let path = Path { places: 1_000 };
    let rows: [(&[usize], &[usize], Outcome); 2] = [
        (&[500], &[0], Outcome::new(None, 500, 500, 500_000)),
        (&[0, 700], &[999], Outcome::new(Some(299), 0, 599, 599_000)),
    ];
    for (starts, ends, want) in &rows {
        let found = search::<Path, Brand>(rt.alloc(), &path, starts, ends, Blank::new(1))?;
        assert_eq!(rt; found, *want);
    }
    Ok(())
}

// The walk of one search along a path of ten places, then what is reached in the next one.
fn walk_then_reached<L: Ledger>(alloc: Global, blank: Blank) -> Result<Vec<usize>, Fail>
    requires name { blank.name ≡ L.name }
    requires parts { blank.parts ≡ L.parts }
    requires some { 0 < blank.parts }
{
    let path = Path { places: 10 };
    let arcs = ByNumber::new(&path);
    let mut search = Search::open(alloc, 10)?;
    let mut steps = Steps::<L>::new(blank);
    let mut told = Vec::new(alloc);
    let starts = marks(alloc, 10, &[0, 6])?;
    let ends = marks(alloc, 10, &[8, 9])?;
    if let Some(last) = search.shortest(&arcs, &starts, &ends, &mut steps) {
        for k in 0..=last {
            told.push(search.step(k))?;
        }
    }
    search.reach(&arcs, &ends);
    for x in 0..10 {
        if search.reached(x) {
            told.push(x)?;
        }
    }
    Ok(told)
}

#[test]
fn tells_walks_and_sets(rt: HostRuntime) -> Result<(), Fail> {
    let told = walk_then_reached::<Brand>(rt.alloc(), Blank::new(1))?;
    assert_eq!(rt; told.as_slice(), [6, 7, 8, 8, 9].as_slice());
    Ok(())
}

// How many places were looked at before a search along a path of ten places, in each of four that follow, and in all of
// these and when what is reached from one place was asked for as well.
fn looks_in_turn<L: Ledger>(alloc: Global, blank: Blank) -> Result<(Vec<usize>, u64), Fail>
    requires name { blank.name ≡ L.name }
    requires parts { blank.parts ≡ L.parts }
    requires some { 0 < blank.parts }
{
    let path = Path { places: 10 };
    let arcs = ByNumber::new(&path);
    let mut search = Search::open(alloc, 10)?;
    let mut steps = Steps::<L>::new(blank);
    let mut looks = Vec::new(alloc);
    looks.push(search.looks())?;
    let rows: [(&[usize], &[usize]); 4] = [
        (&[0], &[9]),
        (&[7], &[]),
        (&[3, 8], &[5]),
        (&[3], &[3]),
    ];
    for (starts, ends) in &rows {
        let starts = marks(alloc, 10, starts)?;
        let ends = marks(alloc, 10, ends)?;
        search.shortest(&arcs, &starts, &ends, &mut steps);
        looks.push(search.looks())?;
    }
    let starts = marks(alloc, 10, &[8])?;
    search.reach(&arcs, &starts);
    Ok((looks, search.all_looks()))
}

#[test]
fn tells_the_looks_of_each_search(rt: HostRuntime) -> Result<(), Fail> {
    let (looks, all_looks) = looks_in_turn::<Brand>(rt.alloc(), Blank::new(1))?;
    assert_eq!(rt; looks.as_slice(), [0, 9, 3, 4, 0].as_slice());
    assert_eq!(rt; all_looks, 18);
    Ok(())
}

#[test]
fn asks_for_each_arc_in_turn(rt: HostRuntime) -> Result<(), Fail> {
    let ring = Ring { places: 10 };
    let arcs = ByNumber::new(&ring);
    for (x, from, want) in [
        (3, 0, Some((4, 5))),
        (3, 4, Some((4, 5))),
        (3, 5, None),
        (3, 10, None),
        (9, 0, Some((0, 1))),
        (9, 1, None),
        (9, 12, None),
    ] {
        assert_eq!(rt; arcs.next_arc(x, from), want, "{x} from {from}");
    }
    Ok(())
}
