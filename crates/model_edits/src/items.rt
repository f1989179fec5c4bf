//! The items of an equation that is added.

ghost use Rattle.std.specs.Prelude.{◌≡◌, ◌<◌, ◌++◌, ◌∷◌, ℕ, [], false, true, List, Ok, IfErr, IfOk, IsTrue, OnOk};
ghost use Rattle.std.specs.Prelude.{length, map, slice_index_or, slice_set};
ghost use Rattle.limits.specs.Limits.{equation_limit};
ghost use Rattle.refusals.specs.Faults.{OnBroken};
ghost use Rattle.line_reader.specs.Answers.{AnswersRule};
ghost use Rattle.mixed_model.specs.Models.{IsModel, MixedModel, row_of, with_seen_unknown};
ghost use Rattle.mixed_model.specs.Names.{is_label, seeing};
ghost use Rattle.model_edits.specs.Commands.{added_item_rule, items_rule};
ghost use Rattle.model_edits.specs.Marks.{IsUnmarked, MarksItems, SaysItems};

use limits::EQUATION_LIMIT;
use line_lexer::Tokens;
use matrix_reader::item;
use mixed_model::Mixed;
use refusals::{Fault, Why};
use residue_field::Field;

/// Puts what some items say into equation `i`, which is empty. Unknowns that are not there are added behind the others.
///
/// The refusals, for the items from the left: those of an item by itself (`BadShape`, `BadName`, `BadNumber`,
/// `Vanish`), `Twice` where its unknown stands in an earlier one, and `TooMany` where it is new and there are 4,096. What
/// earlier items say may have been put then.
pub(crate) fn put_items<F: Field>(
    model: &mut Mixed<F>,
    i: usize,
    items: Tokens<'_>,
) -> Result<(), Fault>
    requires equation { i < length model.old.equations }
    requires empty { row_of model.old i ≡ [] }
    ensures { AnswersRule (items_rule F.modulus model.old (map (λ item. item.1) items.entry))
        (SaysItems F.modulus model.old model.new i (map (λ item. item.1) items.entry)) result }
{
    // on the stack, since a model has few columns and no allocator is at hand
    let mut marks = [false; EQUATION_LIMIT];
    put_each(model, i, items, &mut marks)
}

// The same, where no column is marked.
fn put_each<F: Field>(
    model: &mut Mixed<F>,
    i: usize,
    items: Tokens<'_>,
    marks: &mut [bool],
) -> Result<(), Fault>
    requires equation { i < length model.old.equations }
    requires empty { row_of model.old i ≡ [] }
    requires columns { length marks.old ≡ equation_limit }
    requires unmarked { (j : ℕ) → slice_index_or marks.old j false ≡ false }
    ensures { AnswersRule (items_rule F.modulus model.old (map (λ item. item.1) items.entry))
        (SaysItems F.modulus model.old model.new i (map (λ item. item.1) items.entry)) result }
{
    for item in items {
        put_item(model, i, item.text, marks)?;
    }
    Ok(())
}

// Puts what an item says into equation `i`, and marks its unknown, which may not be marked.
#[tactic(auto, using(term_model::proofs::Labels::name_is_label))]
fn put_item<F: Field>(
    model: &mut Mixed<F>,
    i: usize,
    token: &str,
    marks: &mut [bool],
) -> Result<(), Fault>
    requires equation { i < length model.old.equations }
    requires columns { length marks.old ≡ equation_limit }
    ensures equations { OnOk result (model.new.equations ≡ model.old.equations) }
    ensures columns { OnOk result (length marks.new ≡ equation_limit) }
    ensures put { (start : MixedModel) (earlier : List (List ℕ)) → SaysItems F.modulus start model.old i earlier
        → MarksItems marks.old model.old.unknowns earlier
        → AnswersRule (added_item_rule F.modulus start earlier token.now)
        (SaysItems F.modulus start model.new i (earlier ++ token.now ∷ [])
        × MarksItems marks.new model.new.unknowns (earlier ++ token.now ∷ [])) result }
{
    let said = match item::<F>(token) {
        Ok(said) => said,
        Err(why) => return Err(Fault::Broken(why)),
    };
    let j = mark(model, said.unknown, marks)?;
    model.set_place(i, j, said.constant, said.symbol)?;
    Ok(())
}

// The column of an unknown, which is added where it is not there, and is marked. It may not be marked before.
fn mark<F: Field>(model: &mut Mixed<F>, unknown: &str, marks: &mut [bool]) -> Result<usize, Fault>
    requires label { IsTrue (is_label unknown.now) }
    requires columns { length marks.old ≡ equation_limit }
    ensures found { IfOk result (λ j. seeing model.old.unknowns unknown.now ≡ Ok j) }
    ensures within { IfOk result (λ j. j < length model.new.unknowns) }
    ensures seen { OnOk result (model.new ≡ with_seen_unknown model.old unknown.now) }
    ensures fresh { IfOk result (λ j. slice_index_or marks.old j false ≡ false) }
    ensures marked { IfOk result (λ j. marks.new ≡ slice_set marks.old j true) }
    ensures unmarked { IfErr result (λ fault. OnBroken fault
        (IsUnmarked (seeing model.old.unknowns unknown.now) marks.old)) }
    ensures model { OnOk result (IsModel F.modulus model.new) }
{
    let j = model.find_or_add_unknown(unknown)?;
    if marks[j] {
        return Err(Fault::Broken(Why::Twice));
    }
    marks[j] = true;
    Ok(j)
}
