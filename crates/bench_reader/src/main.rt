//! Reads an equation list from standard input, and prints how many equations and unknowns it gives: the work that
//! bench/reading.sh measures.
#![tactic(auto)]

use limits::INPUT_LIMIT;
use matrix_reader::read;
use port_io::{StdSource, read_all};
use residue_field::Res;
use std::process::ExitCode;

fn main(rt: HostRuntime) -> ExitCode {
    let mut source = StdSource::new(rt.stdin());
    let Ok(input) = read_all(rt.alloc(), &mut source, INPUT_LIMIT as u64) else {
        return ExitCode::FAILURE;
    };
    let Ok(model) = read::<Res>(rt.alloc(), &input) else {
        return ExitCode::FAILURE;
    };
    match println!(rt;
        "equations {} unknowns {}",
        model.equations(),
        model.unknowns()
    ) {
        Ok(()) => ExitCode::SUCCESS,
        Err(_) => ExitCode::FAILURE,
    }
}
