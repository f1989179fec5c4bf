//! Tests of searches within parts.

ghost use Rattle.std.specs.Prelude.{◌≡◌, length, vec_len, IfOk, IsTrue};
ghost use Rattle.part_rules.specs.Listed.{AreArcs};

use part_search::{reached_within, reaching_within};
use std::alloc::Global;
use std::test::Fail;

// Whether each arc leads from a place to a place.
fn are_arcs(arcs: &[(usize, usize)], places: usize) -> bool
    ensures { IsTrue result → AreArcs places arcs.now }
{
    for (from, to) in arcs {
        if *from >= places || *to >= places {
            return false;
        }
    }
    true
}

// Marks at the listed places.
fn marks_at(alloc: Global, places: usize, listed: &[usize]) -> Result<Vec<bool>, Fail>
    ensures { IfOk result (λ marks. vec_len marks ≡ places) }
{
    let mut marks = Vec::new(alloc);
    for place in 0..places {
        marks.push(listed.contains(&place))?;
    }
    Ok(marks)
}

// The places that are marked.
fn places_of(alloc: Global, marks: &[bool]) -> Result<Vec<usize>, Fail> {
    let mut places = Vec::new(alloc);
    for (place, is_marked) in marks.iter().enumerate() {
        if *is_marked {
            places.push(place)?;
        }
    }
    Ok(places)
}

// The places that are reached, and those that reach, from what is listed and to it.
fn search(
    alloc: Global,
    arcs: &[(usize, usize)],
    parts: &[usize],
    listed: &[usize],
) -> Result<(Vec<usize>, Vec<usize>), Fail>
    requires { AreArcs (length parts.now) arcs.now }
{
    let marks = marks_at(alloc, parts.len(), listed)?;
    let forth = reached_within(alloc, arcs, parts, &marks)?;
    let back = reaching_within(alloc, arcs, parts, &marks)?;
    Ok((places_of(alloc, &forth)?, places_of(alloc, &back)?))
}

// Each row has the arcs, the part of each place, some places, what is reached from them, and what reaches them.
#[test]
fn stays_within_parts(rt: HostRuntime) -> Result<(), Fail> {
    let rows: [(&[(usize, usize)], &[usize], &[usize], &[usize], &[usize]); 7] = [
        (&[], &[], &[], &[], &[]),
        (&[], &[1, 1], &[1], &[1], &[1]),
        (&[(0, 1)], &[1, 1], &[], &[], &[]),
        (
            &[(3, 2), (2, 1), (1, 0)],
            &[0, 0, 0, 0],
            &[2],
            &[0, 1, 2],
            &[2, 3],
        ),
        (
            &[(0, 1), (1, 2), (2, 3)],
            &[1, 2, 1, 1],
            &[0, 3],
            &[0, 3],
            &[0, 2, 3],
        ),
        (
            &[(0, 1), (0, 1), (1, 1), (1, 2), (2, 0), (2, 3), (3, 0)],
            &[5, 5, 5, 7],
            &[1],
            &[0, 1, 2],
            &[0, 1, 2],
        ),
        (
            &[(0, 1), (0, 2), (1, 3), (2, 3), (3, 4)],
            &[1, 1, 2, 1, 1],
            &[0, 2],
            &[0, 1, 2, 3, 4],
            &[0, 2],
        ),
    ];
    for (arcs, parts, listed, reached, reaching) in rows {
        assert!(rt; are_arcs(arcs, parts.len()), "arcs {arcs:?}");
        let (forth, back) = search(rt.alloc(), arcs, parts, listed)?;
        assert_eq!(rt; forth.as_slice(), reached, "from {listed:?} along {arcs:?}");
        assert_eq!(rt; back.as_slice(), reaching, "to {listed:?} along {arcs:?}");
    }
    Ok(())
}

// Each of 200,000 places leads to the next one: a search that went over all arcs at each place would not end in time.
#[test]
fn looks_at_each_arc_once(rt: HostRuntime) -> Result<(), Fail> {
    let mut path = Vec::new(rt.alloc());
    for place in 1..200_000 {
        path.push((place - 1, place))?;
    }
    let parts = vec![in rt.alloc(); 3; 200_000]?;
    let arcs = path.as_slice();
    let parts = parts.as_slice();
    assert!(rt; are_arcs(arcs, parts.len()));
    let (forth, back) = search(rt.alloc(), arcs, parts, &[1])?;
    assert_eq!(rt; forth.len(), 199_999);
    assert_eq!(rt; back.len(), 2);
    Ok(())
}
