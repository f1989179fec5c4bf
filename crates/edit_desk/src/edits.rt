//! A held model that is edited or asked.

ghost use Rattle.std.specs.Prelude.{◌≡◌, ◌≤◌, ◌+◌, ◌*◌, max, Some, IfOk, IfErr, OnOk, OnErr};
ghost use Rattle.independent_matching.specs.Changes.{IsAfter};
ghost use Rattle.mixed_model.specs.Layers.{layered_matrix_of};
ghost use Rattle.mixed_model.specs.Models.{MixedModel, mixed_matrix_of};
ghost use Rattle.mixed_layering.specs.Layers.{AreLayersOf};
ghost use Rattle.model_edits.specs.Commands.{edit_rule};
ghost use Rattle.model_edits.specs.Orders.{IsChangeOf, edit_word, model_of, words_behind};
ghost use Rattle.refusals.specs.Faults.{OnBroken};
ghost use Rattle.edit_desk.specs.Desks.{IsEditedTo, TellsOfModel};

use crate::held::Held;
use crate::reply::Reply;
use exchange_graph::Steps;
use independent_matching::Change;
use mixed_model::Mixed;
use model_edits::{Edit, Edited, make_edit};
use out_of_memory::NoMemory;
use refusals::Fault;
use residue_field::Field;
use row_transform::Tableau;
use std::sync::ledger::Ledger;

/// Edits a held model, and gives its rank then.
pub(crate) fn follow_edit<F: Field, T: Tableau<F>, L: Ledger, M: Ledger>(
    held: &mut Held<F, T>,
    edit: Edit<'_>,
    searches: &mut Steps<L>,
    steps: &mut Steps<M>,
) -> Result<usize, Fault>
    ensures edited { IfOk result
        (IsEditedTo F.modulus (edit_word edit.entry) (words_behind edit.entry) held.old.model held.new.model) }
    ensures refused { IfErr result (λ fault. OnBroken fault (λ why.
        edit_rule F.modulus (edit_word edit.entry) held.old.model (words_behind edit.entry) ≡ Some why)) }
    ensures kept { OnErr result (held.new.model ≡ held.old.model) }
    ensures searches { searches.new ≤ searches.old + 7 }
    ensures steps { OnOk result (steps.new ≤ steps.old + 14 * max (layered_matrix_of held.old.layers).columns
        (layered_matrix_of held.new.layers).columns) }
    ensures layers { OnOk result (AreLayersOf held.old.model held.old.layers
        × AreLayersOf held.new.model held.new.layers) }
    ensures still { IfErr result (λ fault. OnBroken fault (λ why.
        (searches.new ≡ searches.old) × (steps.new ≡ steps.old))) }
{
    held.is_held();
    let (model, change) = change_of(make_edit(held.model(), edit)?);
    held.follow(model, change, searches, steps)?;
    held.is_held();
    Ok(held.rank())
}

// An edited model, and how it was changed.
fn change_of<F: Field>(edited: Edited<F>) -> (Mixed<F>, Change)
    ensures model { result.0 ≡ model_of edited }
    ensures change { (old : MixedModel) → IsChangeOf old edited
        → IsAfter result.1 (mixed_matrix_of old) (mixed_matrix_of result.0) }
{
    match edited {
        Edited::Added(model) => (model, Change::Added),
        Edited::Removed(model, i) => (model, Change::Removed(i)),
        Edited::Changed(model, i) => (model, Change::Changed(i)),
    }
}

/// The rank of a held model, and the canonical parts of its layered matrix.
pub(crate) fn tell<F: Field, T: Tableau<F>>(held: &Held<F, T>) -> Result<Reply, NoMemory>
    ensures { IfOk result (TellsOfModel F.modulus held.now.model) }
{
    held.is_held();
    let rank = held.rank();
    let parts = held.parts()?;
    Ok(Reply::Parts { rank, parts })
}
