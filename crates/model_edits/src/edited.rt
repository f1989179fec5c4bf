//! A model after an edit.

ghost use Rattle.std.specs.Prelude.{◌≡◌, None, Some, IfOk, MatchResult};
ghost use Rattle.refusals.specs.Faults.{OnBroken};
ghost use Rattle.model_edits.specs.Commands.{edit_rule};
ghost use Rattle.model_edits.specs.Edits.{IsEditOf};
ghost use Rattle.model_edits.specs.Orders.{IsChangeOf, edit_word, model_of, words_behind};

use crate::changes::{with_empty_place, with_equation, with_item, without_equation};
use crate::order::Edit;
use mixed_model::Mixed;
use refusals::Fault;
use residue_field::Field;

/// A model after an edit: an equation was added after the others, or one of this number, from 0, was removed or changed.
#[derive(Drop)]
pub enum Edited<F: Field> {
    Added(Mixed<F>),
    Removed(Mixed<F>, usize),
    Changed(Mixed<F>, usize),
}

/// The model after an edit, which is a copy.
///
/// The refusals in order: `BadName` where the equation is no name; where one is added `Twice` where it is there, and
/// `TooMany` where 4,096 others are; else `Undeclared` where it is not there. Then the items from the left, each by the rules
/// of an item (`BadShape`, `BadName`, `BadNumber`, `Vanish`), `Twice` where its unknown stands earlier in the line, and
/// `TooMany` where it is new and there are 4,096; or, for a place that is to be empty, its unknown, `BadName` and `Undeclared`.
pub fn make_edit<F: Field>(model: &Mixed<F>, edit: Edit<'_>) -> Result<Edited<F>, Fault>
    ensures edited { MatchResult result
        (λ edited. (edit_rule F.modulus (edit_word edit.entry) model.now (words_behind edit.entry) ≡ None)
        × IsEditOf F.modulus (edit_word edit.entry) (words_behind edit.entry) model.now (model_of edited))
        (λ fault. OnBroken fault
        (λ why. edit_rule F.modulus (edit_word edit.entry) model.now (words_behind edit.entry) ≡ Some why)) }
    ensures change { IfOk result (IsChangeOf model.now) }
{
    match edit {
        Edit::Add(equation, items) => {
            let more = with_equation(model, equation, items)?;
            Ok(Edited::Added(more))
        }
        Edit::Remove(equation) => {
            let (less, i) = without_equation(model, equation)?;
            Ok(Edited::Removed(less, i))
        }
        Edit::Set(equation, item) => {
            let (other, i) = with_item(model, equation, item)?;
            Ok(Edited::Changed(other, i))
        }
        Edit::Clear(equation, unknown) => {
            let (other, i) = with_empty_place(model, equation, unknown)?;
            Ok(Edited::Changed(other, i))
        }
    }
}
