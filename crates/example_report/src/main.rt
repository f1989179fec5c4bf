//! Reads an equation list from standard input, and prints its rank, its surplus equations and its open unknowns: an example
//! of a program on the crates (docs/as-a-library.md).
#![tactic(auto)]

ghost use Rattle.std.specs.Prelude.{◌<◌, IfOk, length};
ghost use Rattle.std.specs.List.{All};
ghost use Rattle.mixed_model.specs.Models.{mixed_matrix_of};
ghost use Rattle.solve_plan.specs.Reports.{IsReportOf};

use ccf_builder::build;
use limits::INPUT_LIMIT;
use matrix_reader::read;
use mixed_layering::layer;
use mixed_model::Mixed;
use out_of_memory::NoMemory;
use port_io::{Source, StdSink, StdSource, read_all};
use residue_field::Res;
use run_ends::{Status, tell};
use solve_plan::{Report, report};
use std::alloc::Global;
use std::io;
use std::process::ExitCode;

fn main(rt: HostRuntime) -> ExitCode {
    let mut source = StdSource::new(rt.stdin());
    let status = match work(&rt, rt.alloc(), &mut source) {
        Ok(()) => Status::Done,
        Err(status) => status,
    };
    tell(&mut StdSink::new(rt.stderr()), status);
    ExitCode::from(status.number())
}

// Reads the list, and prints what is told of it.
fn work<S: Source>(rt: &impl Print, alloc: Global, source: &mut S) -> Result<(), Status> {
    let text = read_all(alloc, source, INPUT_LIMIT as u64)?;
    let model = read::<Res>(alloc, &text)?;
    let told = told_of(alloc, &model)?;
    match print(rt, &model, &told) {
        Ok(()) => Ok(()),
        Err(_) => Err(Status::WriteFault),
    }
}

// The report on a model.
fn told_of(alloc: Global, model: &Mixed<Res>) -> Result<Report, NoMemory>
    ensures { IfOk result (IsReportOf 65521 (mixed_matrix_of model.now)) }
{
    model.is_model();
    let layered = layer(alloc, model)?;
    let form = build(alloc, &layered)?;
    report(alloc, &layered, &form)
}

// Prints a report on a model: the rank, and a line for each equation and each unknown that it names.
fn print(rt: &impl Print, model: &Mixed<Res>, told: &Report) -> io::Result<()>
    requires { IsReportOf 65521 (mixed_matrix_of model.now) told.now }
{
    println!(rt; "rank {}", told.rank)?;
    print_equations(rt, model, told.surplus.as_slice())?;
    print_unknowns(rt, model, told.undetermined.as_slice())
}

fn print_equations(rt: &impl Print, model: &Mixed<Res>, surplus: &[usize]) -> io::Result<()>
    requires { All (λ equation. equation < length model.now.equations) surplus.now }
{
    for equation in surplus {
        println!(rt; "surplus {}", model.equation_name(*equation))?;
    }
    Ok(())
}

fn print_unknowns(rt: &impl Print, model: &Mixed<Res>, undetermined: &[usize]) -> io::Result<()>
    requires { All (λ unknown. unknown < length model.now.unknowns) undetermined.now }
{
    for unknown in undetermined {
        println!(rt; "open {}", model.unknown_name(*unknown))?;
    }
    Ok(())
}
