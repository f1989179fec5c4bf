//! The constants of a layered matrix.

ghost use Rattle.std.specs.Prelude.{◌≡◌, ◌<◌, ◌≤◌, ◌+◌, ◌-◌, ℕ, length, IfOk, OnOk, slice_index, unwrap_or};
ghost use Rattle.std.specs.List.Sorted.{IsStrictlyIncreasing};
ghost use Rattle.dense_q.specs.Tables.{IsTableOf, IsMatrix, height, entry};
ghost use Rattle.mixed_model.specs.Models.{IsModel, mixed_matrix_of, constant_at};
ghost use Rattle.mixed_layering.specs.Members.{AreEquations, AreSplit};
ghost use Rattle.mixed_layering.specs.Places.{constant_place, FillsRow};

use crate::columns::place_of;
use mixed_model::Mixed;
use out_of_memory::NoMemory;
use residue_field::Field;
use row_entries::EntryMat;
use std::alloc::Global;

/// The rows of constants of these equations: a column for each unknown, then one for each split equation.
pub fn constants_of<F: Field>(
    alloc: Global,
    model: &Mixed<F>,
    equations: &[usize],
    split: &[usize],
) -> Result<EntryMat<F>, NoMemory>
    requires equations { AreEquations (length model.now.equations) equations.now }
    requires split { AreSplit (length model.now.equations) split.now }
    ensures { IfOk result (IsTableOf (length equations.now) (length model.now.unknowns + length split.now)
        (λ i j. constant_place (mixed_matrix_of model.now) split.now (slice_index equations.now i) j)) }
{
    let mut q = EntryMat::empty(alloc, model.unknowns() + split.len());
    for equation in equations {
        q.add_row()?;
        fill_row(&mut q, model, *equation, split)?;
    }
    Ok(q)
}

// Fills the last row, which is zero, with the constants of an equation, and 1 at its auxiliary column.
fn fill_row<F: Field>(
    q: &mut EntryMat<F>,
    model: &Mixed<F>,
    equation: usize,
    split: &[usize],
) -> Result<(), NoMemory>
    requires some { 0 < height q.old }
    requires width { q.old.width ≡ length model.now.unknowns + length split.now }
    requires equation { equation < length model.now.equations }
    requires split { AreSplit (length model.now.equations) split.now }
    requires zero { (j : ℕ) → j < q.old.width → entry q.old (height q.old - 1) j ≡ 0 }
    ensures { OnOk result (FillsRow q.old q.new (height q.old - 1)
        (constant_place (mixed_matrix_of model.now) split.now equation)) }
{
    let first_auxiliary = q.cols() - split.len();
    put_constants(q, model, equation)?;
    if let Some(place) = place_of(split, equation) {
        q.put(first_auxiliary + place, F::one())?;
    }
    Ok(())
}

// Fills the last row, which is zero, with the constants of an equation.
fn put_constants<F: Field>(
    q: &mut EntryMat<F>,
    model: &Mixed<F>,
    equation: usize,
) -> Result<(), NoMemory>
    requires some { 0 < height q.old }
    requires matrix { IsMatrix q.old }
    requires width { length model.now.unknowns ≤ q.old.width }
    requires equation { equation < length model.now.equations }
    requires zero { (j : ℕ) → j < q.old.width → entry q.old (height q.old - 1) j ≡ 0 }
    ensures fills { OnOk result (FillsRow q.old q.new (height q.old - 1) (constant_at model.now equation)) }
    ensures model { IsModel F.modulus model.now }
{
    for entry in model.entries(equation) {
        if let Some(constant) = entry.constant {
            q.put(entry.column, constant)?;
        }
    }
    Ok(())
}
