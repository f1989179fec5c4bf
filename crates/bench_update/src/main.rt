//! Reads a model from standard input, analyses it, edits one equation, and tells the rank and what the engine did after the
//! edit: `bench_update TABLEAU KIND EDIT`. TABLEAU is `sparse` or `dense`, KIND `matrix` or `netlist`, and EDIT `nothing`,
//! `added`, `removed` or `changed`, in the middle. It serves to measure what an edit takes.
#![tactic(auto)]

mod edits;

use cert_text::Kind;
use edits::{Edit, Told, tell};
use input_kinds::read_input;
use mixed_model::Mixed;
use port_io::StdSource;
use refusals::Fault;
use residue_field::Res;
use row_transform::DenseTableau;
use sparse_tableau::SparseTableau;
use std::alloc::Global;
use std::{env, io};

fn main(rt: HostRuntime) -> io::Result<()> {
    let words: Vec<String> = env::args(&rt)?.collect(rt.alloc())?;
    let (Some(tableau), Some(kind), Some(edit)) = (words.get(1), words.get(2), words.get(3)) else {
        return Err(io::Error::from(io::ErrorKind::InvalidInput));
    };
    let (Some(kind), Some(edit)) = (kind_named(kind), Edit::named(edit)) else {
        return Err(io::Error::from(io::ErrorKind::InvalidInput));
    };
    let mut source = StdSource::new(rt.stdin());
    let Ok(model) = read_input::<Res, _>(rt.alloc(), kind, &mut source) else {
        return Err(io::Error::from(io::ErrorKind::InvalidData));
    };
    let Ok(told) = edited(rt.alloc(), tableau, model, edit) else {
        return Err(io::Error::from(io::ErrorKind::OutOfMemory));
    };
    println!(rt;
        "rank {}; {} searches, {} looks, {} pivots",
        told.rank, told.searches, told.looks, told.pivots
    )
}

fn kind_named(name: &str) -> Option<Kind> {
    match name {
        "matrix" => Some(Kind::Matrix),
        "netlist" => Some(Kind::Netlist),
        _ => None,
    }
}

// The edit over the tableau of this name; over a sparse one for any other name.
fn edited(alloc: Global, tableau: &str, model: Mixed<Res>, edit: Edit) -> Result<Told, Fault> {
    match tableau {
        "dense" => tell::<DenseTableau<Res>>(alloc, model, edit),
        _ => tell::<SparseTableau<Res>>(alloc, model, edit),
    }
}
