//! The structural rank of a model, and of one that is edited.

ghost use Rattle.std.specs.Prelude.{◌≡◌, ◌<◌, ◌↔◌, IfOk, IsTrue, OnOk};
ghost use Rattle.mixed_edit_laws.specs.Changes.{IsChanged};
ghost use Rattle.mixed_matrices.specs.StructuralRanks.{IsStructuralRank};
ghost use Rattle.mixed_model.specs.Models.{mixed_matrix_of};

use edit_desk::Held;
use exchange_graph::Steps;
use independent_matching::Change;
use mixed_model::Mixed;
use out_of_memory::NoMemory;
use residue_field::Field;
use row_transform::Tableau;
use sparse_tableau::SparseTableau;
use std::alloc::Global;
use std::marker::Brand;
use std::sync::ledger::{Blank, Ledger};

/// The structural rank of a model.
pub fn rank_of<F: Field>(alloc: Global, model: Mixed<F>) -> Result<usize, NoMemory>
    ensures { IfOk result (IsStructuralRank F.modulus (mixed_matrix_of model)) }
{
    let held = Held::<F, SparseTableau<F>>::open(alloc, model)?;
    Ok(held.rank())
}

/// The structural rank of a model, which stays.
pub fn structural_rank<F: Field>(alloc: Global, model: &Mixed<F>) -> Result<usize, NoMemory>
    ensures { IfOk result (IsStructuralRank F.modulus (mixed_matrix_of model.now)) }
{
    let rank = rank_of(alloc, model.copy()?)?;
    Ok(rank)
}

/// Puts a model with another equation `i` in the place of the one that is held, and tells whether it has this rank.
pub fn has_rank<F: Field, T: Tableau<F>>(
    held: &mut Held<F, T>,
    model: Mixed<F>,
    i: usize,
    rank: usize,
) -> Result<bool, NoMemory>
    requires { IsChanged (mixed_matrix_of held.old.model) (mixed_matrix_of model) i }
    ensures model { OnOk result (held.new.model ≡ model) }
    ensures rank { IfOk result (λ has. IsTrue has ↔ IsStructuralRank F.modulus (mixed_matrix_of model) rank) }
{
    follow(held, model, i)?;
    Ok(held.rank() == rank)
}

/// Puts a model with another equation `i` in the place of the one that is held.
pub fn follow<F: Field, T: Tableau<F>>(
    held: &mut Held<F, T>,
    model: Mixed<F>,
    i: usize,
) -> Result<(), NoMemory>
    requires { IsChanged (mixed_matrix_of held.old.model) (mixed_matrix_of model) i }
    ensures { OnOk result (held.new.model ≡ model) }
{
    follow_counting::<F, T, Brand, Brand>(held, model, i, Blank::new(1), Blank::new(1))
}

// The same, with its searches and steps counted in ledgers.
fn follow_counting<F: Field, T: Tableau<F>, L: Ledger, M: Ledger>(
    held: &mut Held<F, T>,
    model: Mixed<F>,
    i: usize,
    searches: Blank,
    steps: Blank,
) -> Result<(), NoMemory>
    requires change { IsChanged (mixed_matrix_of held.old.model) (mixed_matrix_of model) i }
    requires searches { (searches.name ≡ L.name) × (searches.parts ≡ L.parts) × (0 < searches.parts) }
    requires steps { (steps.name ≡ M.name) × (steps.parts ≡ M.parts) × (0 < steps.parts) }
    ensures { OnOk result (held.new.model ≡ model) }
{
    let mut searches = Steps::<L>::new(searches);
    let mut steps = Steps::<M>::new(steps);
    held.follow(model, Change::Changed(i), &mut searches, &mut steps)
}
