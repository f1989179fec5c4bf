//! Small problems.

use cert_text::Kind;
use input_problems::read_problem;
use problem_heads::{Form, Problem};
use refusals::ReadModel;
use residue_field::{Field, Res};
use std::alloc::Global;
use std::test::Fail;

// Heads of values and right sides, the model behind them, and the numbers of the problem.
const SOLVED: [(&str, &[u32], &[u32]); 6] = [
    ("model\n", &[], &[]),
    (
        "value a x 2\nvalue a y 3\nvalue b x 5\nright a 7\nright b 10\nmodel\neq a x=? y=?\neq b x=?\n",
        &[2, 3, 5],
        &[7, 10],
    ),
    (
        "value b x 5\n\n# any\nright b 1/2\nvalue a y -3\nvalue a x 0\r\n model \r\neq a x=? y=?\neq b x=?",
        &[0, 65518, 5],
        &[0, 32761],
    ),
    (
        "value b y 2\nright a 3\nright b 4\nmodel\neq a x=1 y=1\neq b x=1 y=1+?",
        &[2],
        &[3, 4],
    ),
    ("model\neq a x=1\neq b x=2", &[], &[0, 0]),
    (
        "value a model 1\nmodel\neq a model=?\nunknown z",
        &[1],
        &[0],
    ),
];

// Heads of costs, the model behind them, and the costs.
const REPAIRED: [(&str, &[u64]); 4] = [
    ("model", &[]),
    ("cost a 3\ncost b 2\nmodel\neq a x=1\neq b x=1", &[3, 2]),
    (
        "cost b 000000000\nmodel\neq a x=1\neq b x=1\neq c",
        &[1, 0, 1],
    ),
    ("cost a 999999999\nmodel\neq a x=?", &[999_999_999]),
];

// The problem of an equation list, if its text is short.
fn problem_of(alloc: Global, form: Form, text: &str) -> Result<Problem<Res>, ReadModel> {
    if text.len() > 8_388_608 {
        return Err(ReadModel::NoMemory);
    }
    let (_model, problem) = read_problem(alloc, Kind::Matrix, form, text.as_bytes())?;
    Ok(problem)
}

// Whether values are these numbers.
fn are_numbers(values: &[Res], numbers: &[u32]) -> bool {
    values.len() == numbers.len()
        && values
            .iter()
            .zip(numbers)
            .all(|(value, number)| value.value() == *number)
}

fn is_solved(problem: &Problem<Res>, values_want: &[u32], right_want: &[u32]) -> bool {
    match problem {
        Problem::Solve { values, right } => {
            are_numbers(values, values_want) && are_numbers(right, right_want)
        }
        Problem::Repair { .. } => false,
    }
}

fn is_repaired(problem: &Problem<Res>, costs_want: &[u64]) -> bool {
    match problem {
        Problem::Solve { .. } => false,
        Problem::Repair { costs } => costs.as_slice() == costs_want,
    }
}

#[test]
fn values_and_right_sides_are_those_of_the_head(rt: HostRuntime) -> Result<(), Fail> {
    for (text, values, right) in SOLVED {
        let problem = problem_of(rt.alloc(), Form::Solve, text)?;
        assert!(rt; is_solved(&problem, values, right), "{text}");
    }
    Ok(())
}

#[test]
fn costs_are_those_of_the_head(rt: HostRuntime) -> Result<(), Fail> {
    for (text, costs) in REPAIRED {
        let problem = problem_of(rt.alloc(), Form::Repair, text)?;
        assert!(rt; is_repaired(&problem, costs), "{text}");
    }
    Ok(())
}
