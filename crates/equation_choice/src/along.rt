//! Equations that are kept along an order.

ghost use Rattle.std.specs.Prelude.{◌≡◌, ℕ, ◌<◌, Bool, length, IfOk};
ghost use Rattle.std.specs.List.{All};
ghost use Rattle.residue_theory.specs.Sets.{everything};
ghost use Rattle.exchange_graph.specs.Marks.{members_of};
ghost use Rattle.mixed_model.specs.Models.{mixed_matrix_of};
ghost use Rattle.equation_matroid_laws.specs.GreedyChoices.{IsGreedyChoice};
ghost use Rattle.equation_choice.specs.Choices.{HasKeptAlong, IsAlong};

use crate::chooser::Chooser;
use crate::list::no_marks;
use crate::places::EquationPlaces;
use mixed_layering::layer;
use mixed_model::{Layered, Mixed};
use out_of_memory::NoMemory;
use residue_field::Field;
use row_transform::Tableau;
use sparse_tableau::SparseTableau;
use std::alloc::Global;

/// A mark for each equation of the model, from 0, set where it is kept along the order: where the structural rank of
/// those before it rises with it. This is the greedy choice, whatever line of all equations the order goes along.
/// (Murota 2000, chapter 2: the greedy algorithm.)
pub fn kept<F: Field>(
    alloc: Global,
    model: &Mixed<F>,
    order: &[usize],
) -> Result<Vec<bool>, NoMemory>
    requires { All (λ equation. equation < length model.now.equations) order.now }
    ensures count { IfOk result (λ marks. length marks.items ≡ length model.now.equations) }
    ensures kept { IfOk result (λ marks. (before : ℕ → ℕ → Bool) →
        IsAlong (length model.now.equations) before order.now → IsGreedyChoice F.modulus
        (mixed_matrix_of model.now) before everything (members_of marks.items)) }
{
    let layered = layer(alloc, model)?;
    kept_over::<F, SparseTableau<F>>(alloc, &layered, model.equations(), order)
}

// The same, of n equations of which this is the layered matrix.
fn kept_over<F: Field, T: Tableau<F>>(
    alloc: Global,
    layered: &Layered<F>,
    n: usize,
    order: &[usize],
) -> Result<Vec<bool>, NoMemory>
    requires { All (λ equation. equation < n) order.now }
    ensures count { IfOk result (λ marks. length marks.items ≡ n) }
    ensures kept { IfOk result (λ marks. HasKeptAlong F.modulus layered.now n order.now marks.items) }
{
    let mut chooser = Chooser::<F, T>::open(alloc, layered)?;
    let places = EquationPlaces::open(alloc, layered, n)?;
    let mut kept = no_marks(alloc, n)?;
    for equation in order {
        if chooser.join(layered, *equation, places.of(layered, *equation)) {
            kept[*equation] = true;
        }
    }
    Ok(kept)
}
