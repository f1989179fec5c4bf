//! How a model with values for its symbols is solved.

ghost use Rattle.std.specs.Prelude.{◌≡◌, ◌≤◌, ◌<◌, IfOk, length, map};
ghost use Rattle.std.specs.List.{All};
ghost use Rattle.mixed_layering.specs.Layers.{AreLayersOf};
ghost use Rattle.mixed_model.specs.Models.{mixed_matrix_of};
ghost use Rattle.value_list_laws.specs.ListedValues.{symbol_count};
ghost use Rattle.block_solver.specs.Solving.{IsRightFormFor};
ghost use Rattle.study_answers.specs.Solvings.{AreColumnsOfBlock, IsSolvingBy};

use block_solver::{Answer, solve};
use ccf_builder::build;
use cert_text::{Ccf, Items};
use mixed_model::{Layered, Mixed};
use out_of_memory::NoMemory;
use residue_field::Field;
use std::alloc::Global;
use study_answers::Solving;

/// How a model is solved, block by block of a form of its layered matrix, with one value for each symbol, by rising
/// equation and then unknown, and one right side for each equation.
pub fn solve_with_values<F: Field>(
    alloc: Global,
    model: &Mixed<F>,
    layered: &Layered<F>,
    values: &[F],
    right: &[F],
) -> Result<Solving<F>, NoMemory>
    requires layers { AreLayersOf model.now layered.now }
    requires values { length values.now ≡ symbol_count (mixed_matrix_of model.now) }
    requires right { length right.now ≡ length model.now.equations }
    ensures { IfOk result (IsSolvingBy F.number F.modulus model.now layered.now (map F.number values.now)
        (map F.number right.now)) }
{
    model.is_model();
    let form = build(alloc, layered)?;
    solving_by(alloc, model, layered, &form, values, right)
}

// The same by a right form.
fn solving_by<F: Field>(
    alloc: Global,
    model: &Mixed<F>,
    layered: &Layered<F>,
    form: &Ccf<F>,
    values: &[F],
    right: &[F],
) -> Result<Solving<F>, NoMemory>
    requires form { IsRightFormFor F.modulus model.now layered.now form.now }
    requires values { length values.now ≡ symbol_count (mixed_matrix_of model.now) }
    requires right { length right.now ≡ length model.now.equations }
    ensures { IfOk result (IsSolvingBy F.number F.modulus model.now layered.now (map F.number values.now)
        (map F.number right.now)) }
{
    form.is_in_form();
    match solve(alloc, model, layered, form, values, right)? {
        Answer::Open => Ok(Solving::Open(form.rank())),
        Answer::Singular(block) => Ok(Solving::Singular(block, block_columns(alloc, form, block)?)),
        Answer::Solution(numbers) => {
            are_residues(numbers.as_slice());
            Ok(Solving::Solution(numbers))
        }
    }
}

// Tells a proof that the numbers of values are below the modulus.
fn are_residues<F: Field>(values: &[F])
    ensures { All (λ residue. residue < F.modulus) (map F.number values.now) }
{
    for value in values {
        value.in_field();
    }
}

// The columns of a block of the form, counted from 1.
fn block_columns<F: Field>(
    alloc: Global,
    form: &Ccf<F>,
    block: usize,
) -> Result<Items<usize>, NoMemory>
    requires some { 1 ≤ block }
    requires within { block ≤ length form.now.blocks }
    ensures { IfOk result (AreColumnsOfBlock form.now block) }
{
    let columns = form.blocks().as_slice()[block - 1].part.columns.as_slice();
    let columns = Vec::from_slice(alloc, columns)?;
    Ok(Items::from_vec(columns))
}
