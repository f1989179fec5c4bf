//! The canonical parts that a held model tells, of two small models.

use ccf_builder::Parts;
use edit_desk::Held;
use matrix_reader::read;
use residue_field::Res;
use sparse_tableau::SparseTableau;
use std::alloc::Global;
use std::process::Abort;
use std::test::Fail;

// The columns of the first tail, the columns and the lower blocks of each block, and the columns of the last tail.
type Told = (
    &'static [usize],
    &'static [(&'static [usize], &'static [usize])],
    &'static [usize],
);

// Equation lists, their ranks and their parts.
const CASES: [(&str, usize, Told); 3] = [
    (
        "eq a x=? y=?\neq b x=?\n",
        2,
        (&[], &[(&[1], &[]), (&[0], &[0])], &[]),
    ),
    (
        "eq a x=? y=?\neq b x=? y=?\n",
        2,
        (&[], &[(&[0, 1], &[])], &[]),
    ),
    ("eq a x=? y=?\neq b\n", 1, (&[0, 1], &[], &[])),
];

fn assert_parts(rt: &impl Abort, parts: &Parts, told: Told) {
    let (first, blocks, last) = told;
    assert_eq!(rt; parts.first.as_slice(), first);
    assert_eq!(rt; parts.last.as_slice(), last);
    assert_eq!(rt; parts.blocks.len(), blocks.len());
    for (block, (columns, lower)) in parts.blocks.iter().zip(blocks) {
        assert_eq!(rt; block.columns.as_slice(), *columns);
        assert_eq!(rt; block.lower.as_slice(), *lower);
    }
}

fn held_of(
    rt: &impl Abort,
    alloc: Global,
    text: &str,
) -> Result<Held<Res, SparseTableau<Res>>, Fail> {
    assert!(rt; text.len() < 999);
    Ok(Held::open(alloc, read(alloc, text.as_bytes())?)?)
}

fn assert_told(
    rt: &impl Abort,
    held: &Held<Res, SparseTableau<Res>>,
    rank: usize,
    told: Told,
) -> Result<(), Fail> {
    assert_eq!(rt; held.rank(), rank);
    let parts = held.parts()?;
    assert_parts(rt, &parts, told);
    Ok(())
}

// That a list has this rank and these parts.
fn tells(rt: &impl Abort, alloc: Global, text: &str, rank: usize, told: Told) -> Result<(), Fail> {
    assert_told(rt, &held_of(rt, alloc, text)?, rank, told)
}

#[test]
fn parts_are_told(rt: HostRuntime) -> Result<(), Fail> {
    for (text, rank, told) in CASES {
        tells(&rt, rt.alloc(), text, rank, told)?;
    }
    Ok(())
}
