//! Fills a lattice with arcs of a named shape, and tells how many blocks there are, and how many pairs of which one
//! covers the other: `bench_lattice SHAPE PLACES`. It serves to measure what the lattice takes.
#![tactic(auto)]

ghost use Rattle.std.specs.Prelude.{◌<◌};
ghost use Rattle.minimiser_lattice.specs.Views.{parts_in};

mod shape;

use minimiser_lattice::Lattice;
use shape::{Kind, Shape};
use std::alloc::Global;
use std::{env, io};

fn main(rt: HostRuntime) -> io::Result<()> {
    let words: Vec<String> = env::args(&rt)?.collect(rt.alloc())?;
    let (Some(name), Some(number)) = (words.get(1), words.get(2)) else {
        return Err(io::Error::from(io::ErrorKind::InvalidInput));
    };
    let (Some(kind), Ok(places)) = (Kind::named(name), number.parse::<usize>()) else {
        return Err(io::Error::from(io::ErrorKind::InvalidInput));
    };
    let (blocks, covers) = measure(rt.alloc(), &Shape { kind, places })?;
    println!(rt; "{name} {places}: {blocks} blocks, {covers} covers")
}

// How many blocks and covers the arcs have.
fn measure(alloc: Global, shape: &Shape) -> io::Result<(usize, usize)> {
    let Ok(mut lattice) = Lattice::open(alloc, shape.places) else {
        return Err(io::Error::from(io::ErrorKind::OutOfMemory));
    };
    let none = vec![in alloc; false; shape.places]?;
    lattice.fill(shape, &none, &none);
    let mut covers: usize = 0;
    for high in 0..lattice.blocks() {
        covers = covers.saturating_add(covered_by(&lattice, high));
    }
    Ok((lattice.blocks(), covers))
}

// How many blocks a block covers.
fn covered_by(lattice: &Lattice, high: usize) -> usize
    requires { high < (parts_in lattice.now).blocks }
{
    let mut count: usize = 0;
    let mut from = 0;
    while let Some(low) = lattice.next_cover(high, from) {
        count = count.saturating_add(1);
        from = low + 1;
    }
    count
}
