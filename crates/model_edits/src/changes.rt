//! Copies of a model that differ by one edit.

ghost use Rattle.std.specs.Prelude.{◌≡◌, ◌<◌, ◌∷◌, [], None, Some, IfOk, MatchResult, codes, length, map, position};
ghost use Rattle.std.specs.Option.{option_or};
ghost use Rattle.std.specs.Str.{bytes_eq};
ghost use Rattle.refusals.specs.Faults.{OnBroken};
ghost use Rattle.mixed_edit_laws.specs.Changes.{IsAdded, IsChanged, IsRemoved};
ghost use Rattle.matrix_reader.specs.Rules.{name_rule, new_equation_rule};
ghost use Rattle.mixed_model.specs.Models.{IsModel, mixed_matrix_of, with_equation};
ghost use Rattle.model_edits.specs.Commands.{edit_rule, there_rule};
ghost use Rattle.model_edits.specs.Edits.{HasEquationMore, ClearsPlaceOf, DropsEquation, SetsPlaceOf};

use crate::items::put_items;
use crate::setting::set_item;
use line_lexer::{Tokens, name};
use matrix_reader::item;
use mixed_model::Mixed;
use refusals::{Fault, Why};
use residue_field::Field;

/// A copy with an equation of this name after the others, and what some items say in it.
pub(crate) fn with_equation<F: Field>(
    model: &Mixed<F>,
    equation: &str,
    items: Tokens<'_>,
) -> Result<Mixed<F>, Fault>
    ensures edited { MatchResult result
        (λ more. (edit_rule F.modulus (codes "add") model.now (equation.now ∷ map (λ item. item.1) items.entry) ≡ None)
        × HasEquationMore F.modulus model.now more equation.now (map (λ item. item.1) items.entry))
        (λ fault. OnBroken fault (λ why. edit_rule F.modulus (codes "add") model.now
        (equation.now ∷ map (λ item. item.1) items.entry) ≡ Some why)) }
    ensures change { IfOk result (λ more. IsAdded (mixed_matrix_of model.now) (mixed_matrix_of more)) }
{
    let (mut more, i) = with_bare_equation(model, equation)?;
    put_items(&mut more, i, items)?;
    Ok(more)
}

/// A copy without the equation of this name, and its number.
pub(crate) fn without_equation<F: Field>(
    model: &Mixed<F>,
    equation: &str,
) -> Result<(Mixed<F>, usize), Fault>
    ensures edited { MatchResult result
        (λ less. (edit_rule F.modulus (codes "drop") model.now (equation.now ∷ []) ≡ None)
        × DropsEquation model.now less.0 equation.now)
        (λ fault. OnBroken fault
        (λ why. edit_rule F.modulus (codes "drop") model.now (equation.now ∷ []) ≡ Some why)) }
    ensures change { IfOk result (λ less. IsRemoved (mixed_matrix_of model.now) (mixed_matrix_of less.0) less.1) }
{
    let i = find_equation(model, equation)?;
    let mut less = model.copy()?;
    less.remove_equation(i);
    Ok((less, i))
}

/// A copy in which the place of an item in the equation of this name holds just what the item says, and the equation's
/// number.
#[tactic(auto, using(term_model::proofs::Labels::name_is_label))]
pub(crate) fn with_item<F: Field>(
    model: &Mixed<F>,
    equation: &str,
    token: &str,
) -> Result<(Mixed<F>, usize), Fault>
    ensures edited { MatchResult result
        (λ other. (edit_rule F.modulus (codes "set") model.now (equation.now ∷ token.now ∷ []) ≡ None)
        × SetsPlaceOf F.modulus model.now other.0 equation.now token.now)
        (λ fault. OnBroken fault
        (λ why. edit_rule F.modulus (codes "set") model.now (equation.now ∷ token.now ∷ []) ≡ Some why)) }
    ensures change { IfOk result (λ other.
        IsChanged (mixed_matrix_of model.now) (mixed_matrix_of other.0) other.1) }
{
    let i = find_equation(model, equation)?;
    let said = match item::<F>(token) {
        Ok(said) => said,
        Err(why) => return Err(Fault::Broken(why)),
    };
    let mut other = model.copy()?;
    set_item(&mut other, i, said.unknown, said.constant, said.symbol)?;
    Ok((other, i))
}

/// A copy in which the place of an equation and an unknown of these names is empty, and the equation's number.
pub(crate) fn with_empty_place<F: Field>(
    model: &Mixed<F>,
    equation: &str,
    unknown: &str,
) -> Result<(Mixed<F>, usize), Fault>
    ensures edited { MatchResult result
        (λ other. (edit_rule F.modulus (codes "clear") model.now (equation.now ∷ unknown.now ∷ []) ≡ None)
        × ClearsPlaceOf model.now other.0 equation.now unknown.now)
        (λ fault. OnBroken fault
        (λ why. edit_rule F.modulus (codes "clear") model.now (equation.now ∷ unknown.now ∷ []) ≡ Some why)) }
    ensures change { IfOk result (λ other.
        IsChanged (mixed_matrix_of model.now) (mixed_matrix_of other.0) other.1) }
{
    let i = find_equation(model, equation)?;
    let j = find_unknown(model, unknown)?;
    let mut other = model.copy()?;
    other.set_place(i, j, None, false)?;
    Ok((other, i))
}

// A copy with an equation of this name after the others, with nothing at its places, and its number.
#[tactic(auto, using(term_model::proofs::Labels::name_is_label))]
fn with_bare_equation<F: Field>(
    model: &Mixed<F>,
    equation: &str,
) -> Result<(Mixed<F>, usize), Fault>
    ensures rule { MatchResult result
        (λ _. option_or (name_rule equation.now) (new_equation_rule model.now.equations equation.now) ≡ None)
        (λ fault. OnBroken fault
        (λ why. option_or (name_rule equation.now) (new_equation_rule model.now.equations equation.now) ≡ Some why)) }
    ensures added { IfOk result (λ more. more.0 ≡ with_equation model.now equation.now) }
    ensures last { IfOk result (λ more. more.1 ≡ length model.now.equations) }
    ensures model { IfOk result (λ _. IsModel F.modulus model.now) }
{
    name(equation)?;
    let mut more = model.copy()?;
    let i = more.add_equation(equation)?;
    Ok((more, i))
}

// The number of the equation of this name.
fn find_equation<F: Field>(model: &Mixed<F>, equation: &str) -> Result<usize, Why>
    ensures rule { MatchResult result
        (λ _. there_rule model.now.equations equation.now ≡ None)
        (λ why. there_rule model.now.equations equation.now ≡ Some why) }
    ensures found { IfOk result (λ i. position (bytes_eq equation.now) model.now.equations ≡ Some i) }
    ensures within { IfOk result (λ i. i < length model.now.equations) }
{
    name(equation)?;
    match model.find_equation(equation) {
        Some(i) => Ok(i),
        None => Err(Why::Undeclared),
    }
}

// The number of the unknown of this name.
fn find_unknown<F: Field>(model: &Mixed<F>, unknown: &str) -> Result<usize, Why>
    ensures rule { MatchResult result
        (λ _. there_rule model.now.unknowns unknown.now ≡ None)
        (λ why. there_rule model.now.unknowns unknown.now ≡ Some why) }
    ensures found { IfOk result (λ j. position (bytes_eq unknown.now) model.now.unknowns ≡ Some j) }
    ensures within { IfOk result (λ j. j < length model.now.unknowns) }
{
    name(unknown)?;
    match model.find_unknown(unknown) {
        Some(j) => Ok(j),
        None => Err(Why::Undeclared),
    }
}
