//! Puts rows into a tableau or a matching, one after another before all others: `bench_edits KIND ROOM ROWS`. KIND is
//! `sparse`, `dense` or `matching`; room for ROOM rows is taken first, and then for each row. It tells how many rows there are
//! then. It serves to count what memory is asked for, and what is copied.
#![tactic(auto)]

mod matchings;
mod tableaus;

use residue_field::Res;
use row_transform::{DenseTableau, NoMemory};
use sparse_tableau::SparseTableau;
use std::alloc::Global;
use std::{env, io};

fn main(rt: HostRuntime) -> io::Result<()> {
    let words: Vec<String> = env::args(&rt)?.collect(rt.alloc())?;
    let (Some(kind), Some(room), Some(rows)) = (words.get(1), words.get(2), words.get(3)) else {
        return Err(io::Error::from(io::ErrorKind::InvalidInput));
    };
    let (Ok(room), Ok(rows)) = (room.parse::<usize>(), rows.parse::<usize>()) else {
        return Err(io::Error::from(io::ErrorKind::InvalidInput));
    };
    let Ok(found) = edited(rt.alloc(), kind, room, rows) else {
        return Err(io::Error::from(io::ErrorKind::OutOfMemory));
    };
    println!(rt; "{kind} {room} {rows}: {found} rows")
}

// How many rows there are after the edits; none for another kind.
fn edited(alloc: Global, kind: &str, room: usize, rows: usize) -> Result<usize, NoMemory> {
    match kind {
        "sparse" => tableaus::edited::<SparseTableau<Res>>(alloc, room, rows),
        "dense" => tableaus::edited::<DenseTableau<Res>>(alloc, room, rows),
        "matching" => matchings::edited(alloc, room, rows),
        _ => Ok(0),
    }
}
