//! A model with a number for each symbol, solved block by block.

ghost use Rattle.std.specs.Prelude.{◌≡◌, ◌≤◌, IfOk, length, map, slice_index};
ghost use Rattle.value_list_laws.specs.ListedValues.{symbol_count, values_of};
ghost use Rattle.mixed_model.specs.Models.{mixed_matrix_of};
ghost use Rattle.block_solver.specs.Outcomes.{AreUnknownsOf, IsOutcomeFor};
ghost use Rattle.block_solver.specs.Solving.{IsRightFormFor, IsSolvingOf};

use crate::answer::{Answer, Outcome};
use crate::blocks::solve_blocks;
use crate::numbers::{q_sides, symbol_rows, t_sides};
use crate::rows::row_sums;
use cert_text::{Ccf, Items};
use mixed_model::{Layered, Mixed};
use out_of_memory::NoMemory;
use residue_field::Field;
use std::alloc::Global;

// What the blocks of the form give, where no tail has a column or a row.
fn outcome<F: Field>(
    alloc: Global,
    model: &Mixed<F>,
    layered: &Layered<F>,
    form: &Ccf<F>,
    values: &[F],
    right: &[F],
) -> Result<Outcome<F>, NoMemory>
    requires form { IsRightFormFor F.modulus model.now layered.now form.now }
    requires values { length values.now ≡ symbol_count (mixed_matrix_of model.now) }
    requires right { length right.now ≡ length model.now.equations }
    requires equations { length model.now.equations ≤ form.now.rank }
    requires unknowns { length model.now.unknowns ≤ form.now.rank }
    ensures { IfOk result (IsOutcomeFor F.number F.modulus (mixed_matrix_of model.now) layered.now form.now
        (values_of (mixed_matrix_of model.now) (map F.number values.now)) (slice_index (map F.number right.now))) }
{
    // each row has its origin
    layered.are_layers();
    let t = symbol_rows(alloc, form.t().as_slice(), model.unknowns(), values)?;
    let p_right = row_sums(alloc, form.s().as_slice(), &q_sides(alloc, layered, right)?)?;
    let t_right = t_sides(alloc, layered, right)?;
    solve_blocks(
        alloc,
        form.shape().columns,
        form.p().as_slice(),
        &t,
        &p_right,
        &t_right,
        form.blocks().as_slice(),
    )
}

// The first n numbers.
fn first_numbers<F: Field>(alloc: Global, x: &[F], n: usize) -> Result<Vec<F>, NoMemory>
    requires { n ≤ length x.now }
    ensures { IfOk result (λ numbers. AreUnknownsOf n (map F.number x.now) (map F.number numbers.items)) }
{
    let mut numbers = Vec::with_capacity(alloc, n)?;
    for column in 0..n {
        numbers.push(x[column])?;
    }
    Ok(numbers)
}

/// Solves a model with a number for each of its symbols, `values` by rising equation and then unknown, and a right side
/// for each equation, by its layered matrix and a canonical form that is right for it: block by block, from the last to
/// the first. `Open` exactly where the structural rank is below the number of equations or of unknowns. Else the last block
/// whose rank is below its size, if there is one, and the matrix of the model is singular; or the solution, with a number
/// for each unknown, and it is regular. (Murota, chapters 2 and 4.)
pub fn solve<F: Field>(
    alloc: Global,
    model: &Mixed<F>,
    layered: &Layered<F>,
    form: &Ccf<F>,
    values: &[F],
    right: &[F],
) -> Result<Answer<F>, NoMemory>
    requires form { IsRightFormFor F.modulus model.now layered.now form.now }
    requires values { length values.now ≡ symbol_count (mixed_matrix_of model.now) }
    requires right { length right.now ≡ length model.now.equations }
    ensures { IfOk result (IsSolvingOf F.number F.modulus (mixed_matrix_of model.now) layered.now form.now
        (values_of (mixed_matrix_of model.now) (map F.number values.now)) (slice_index (map F.number right.now))) }
{
    let unknowns = model.unknowns();
    if form.rank() < model.equations() || form.rank() < unknowns {
        return Ok(Answer::Open);
    }
    match outcome(alloc, model, layered, form, values, right)? {
        Outcome::Dependent(k) => Ok(Answer::Singular(k)),
        Outcome::Solved(x) => {
            let numbers = first_numbers(alloc, x.as_slice(), unknowns)?;
            Ok(Answer::Solution(Items::from_vec(numbers)))
        }
    }
}
