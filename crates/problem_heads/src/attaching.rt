//! The problem that a head says of a model.

ghost use Rattle.std.specs.Prelude.{◌≡◌, None, IfErr, IfOk, MatchResult};
ghost use Rattle.problem_heads.specs.Misfits.{IsUndeclared, IsWhyNoProblem};
ghost use Rattle.problem_heads.specs.Problems.{IsProblemBy, first_undeclared};

use crate::costs::count_different;
use crate::form::Form;
use crate::head::{Given, Head};
use crate::lines::HeadLines;
use crate::problem::Problem;
use crate::repair_lines::RepairLines;
use crate::solve_lines::SolveLines;
use crate::values::values_of;
use mixed_model::Mixed;
use refusals::{Place, ReadModel, Refused, Why};
use residue_field::Field;
use std::alloc::Global;

// How many costs may differ.
const MOST_LEVELS: usize = 16;

/// The problem that a head says of a model: for the form `Solve` the value of each symbol, and the right side of each
/// equation, 0 where none is given; for the form `Repair` the cost of each equation, 1 where none is given.
///
/// The refusals in order: `Undeclared` at the first line whose equation the model has not, or between whose equation
/// and unknown no symbol stands; then, at the document, `Missing` where a symbol has no value, or `TooMany` where more
/// than 16 costs differ.
pub fn attach<F: Field>(
    alloc: Global,
    head: &Head<F>,
    model: &Mixed<F>,
) -> Result<Problem<F>, ReadModel>
    ensures problem { IfOk result (IsProblemBy F.number head.now.form head.now.numbers model.now) }
    ensures refused { IfErr result (IsWhyNoProblem head.now.form head.now.numbers model.now) }
{
    match &head.given {
        Given::Solve(lines) => attach_values(alloc, lines, model),
        Given::Repair(lines) => attach_costs(alloc, lines, model),
    }
}

// The values of the symbols, and the right sides.
fn attach_values<F: Field>(
    alloc: Global,
    head: &SolveLines<F>,
    model: &Mixed<F>,
) -> Result<Problem<F>, ReadModel>
    ensures problem { IfOk result (IsProblemBy F.number Form.Solve head.now.numbers model.now) }
    ensures refused { IfErr result (IsWhyNoProblem Form.Solve head.now.numbers model.now) }
{
    let lines = &head.lines;
    test_names(lines, model)?;
    let values = values_of(alloc, lines, model)?;
    let right = lines.sides(alloc, model, F::zero())?;
    Ok(Problem::Solve { values, right })
}

// The costs of the equations.
fn attach_costs<F: Field>(
    alloc: Global,
    head: &RepairLines,
    model: &Mixed<F>,
) -> Result<Problem<F>, ReadModel>
    ensures problem { IfOk result (IsProblemBy F.number Form.Repair head.now.numbers model.now) }
    ensures refused { IfErr result (IsWhyNoProblem Form.Repair head.now.numbers model.now) }
{
    let lines = &head.lines;
    test_names(lines, model)?;
    let costs = lines.sides(alloc, model, 1)?;
    if count_different(alloc, &costs)? > MOST_LEVELS {
        return Err(ReadModel::Refused(Refused {
            place: Place::Document,
            why: Why::TooMany,
        }));
    }
    Ok(Problem::Repair { costs })
}

// Whether a model has all that a head names, or the first line that names what it has not.
fn test_names<F: Field, N: Copy + Drop>(
    lines: &HeadLines<N>,
    model: &Mixed<F>,
) -> Result<(), Refused>
    ensures { MatchResult result
        (λ _. first_undeclared model.now lines.now.numbers ≡ None)
        (IsUndeclared lines.now.numbers model.now) }
{
    match lines.first_undeclared(model) {
        None => Ok(()),
        Some(line) => Err(Refused {
            place: Place::Line(line),
            why: Why::Undeclared,
        }),
    }
}
