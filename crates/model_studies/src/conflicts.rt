//! The surplus equations of a model, each with its conflict set.

ghost use Rattle.std.specs.Prelude.{◌≡◌, ℕ, IfOk, OnOk};
ghost use Rattle.mixed_matrices.specs.Models.{MixedMatrix};
ghost use Rattle.mixed_model.specs.Models.{mixed_matrix_of};
ghost use Rattle.equation_choice.specs.ConflictLists.{AreConflictLists};
ghost use Rattle.study_answers.specs.Conflicts.{AreConflictsOf};
ghost use Rattle.model_studies.specs.Listing.{AddsConflict};

use cert_text::Items;
use equation_choice::{Conflicts, conflict_sets};
use mixed_model::Mixed;
use out_of_memory::NoMemory;
use residue_field::Field;
use std::alloc::Global;
use study_answers::Conflict;

/// The surplus equations of a model, rising and counted from 0, each with its conflict set.
pub fn conflicts_of<F: Field>(alloc: Global, model: &Mixed<F>) -> Result<Vec<Conflict>, NoMemory>
    ensures { IfOk result (λ conflicts. AreConflictsOf F.modulus (mixed_matrix_of model.now) conflicts.items) }
{
    let sets = conflict_sets(alloc, model)?;
    listed(alloc, &sets, model.equations())
}

// The equations below `equations` that are in a set, each with the first set that holds it.
fn listed(alloc: Global, sets: &Conflicts, equations: usize) -> Result<Vec<Conflict>, NoMemory>
    ensures { IfOk result (λ conflicts. (p : ℕ) (M : MixedMatrix) → M.rows ≡ equations →
        AreConflictLists p M sets.now → AreConflictsOf p M conflicts.items) }
{
    let mut conflicts = Vec::new(alloc);
    for equation in 0..equations {
        add_conflict(alloc, &mut conflicts, sets, equation)?;
    }
    Ok(conflicts)
}

// Puts an equation last that is in a set, with the first set that holds it.
fn add_conflict(
    alloc: Global,
    conflicts: &mut Vec<Conflict>,
    sets: &Conflicts,
    equation: usize,
) -> Result<(), NoMemory>
    ensures { OnOk result (AddsConflict sets.now equation conflicts.old.items conflicts.new.items) }
{
    match sets.set_of(equation) {
        None => Ok(()),
        Some(set) => {
            let set = Vec::from_slice(alloc, set)?;
            conflicts.push(Conflict {
                equation,
                set: Items::from_vec(set),
            })?;
            Ok(())
        }
    }
}
