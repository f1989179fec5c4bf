//! Values put into a model, by the names of their places or by their numbers.

ghost use Rattle.std.specs.Prelude.{◌≡◌, ◌<◌, ◌∷◌, [], true, length, slice_index_or, OnOk, IfErr};
ghost use Rattle.mixed_model.specs.Models.{IsModel};
ghost use Rattle.mixed_model.specs.Names.{has_name, name_at};
ghost use Rattle.term_model.specs.Putting.{IsPlaceOf, IsPlaced, CountsAsTerm, LacksRoom, PutsTerms, term_of_value};

use crate::value::Value;
use mixed_model::{AddError, Mixed};
use residue_field::Field;

/// Puts a value, a symbol or a constant other than 0, into an equation at an unknown, by their names. Where nothing
/// stands there memory alone may be wanting.
pub fn put_value<F: Field>(
    model: &mut Mixed<F>,
    equation: &str,
    unknown: &str,
    value: Value<F>,
) -> Result<(), AddError>
    requires placed { IsPlaced model.old.equations model.old.unknowns
        (term_of_value F.number equation.now unknown.now value) }
    requires constant { CountsAsTerm (term_of_value F.number equation.now unknown.now value) }
    ensures equations { model.new.equations ≡ model.old.equations }
    ensures unknowns { model.new.unknowns ≡ model.old.unknowns }
    ensures says { OnOk result (PutsTerms F.modulus model.old model.new
        (term_of_value F.number equation.now unknown.now value ∷ [])) }
    ensures refused { IfErr result (LacksRoom F.modulus model.old
        (term_of_value F.number equation.now unknown.now value ∷ [])) }
{
    let (i, j) = place_of(model, equation, unknown);
    put_value_at(model, i, j, value)
}

/// Puts a value, a symbol or a constant other than 0, into equation `i` at unknown `j`. Where nothing stands there memory
/// alone may be wanting.
pub fn put_value_at<F: Field>(
    model: &mut Mixed<F>,
    i: usize,
    j: usize,
    value: Value<F>,
) -> Result<(), AddError>
    requires equation { i < length model.old.equations }
    requires unknown { j < length model.old.unknowns }
    requires constant { CountsAsTerm (term_of_value F.number (name_at model.old.equations i)
        (name_at model.old.unknowns j) value) }
    ensures equations { model.new.equations ≡ model.old.equations }
    ensures unknowns { model.new.unknowns ≡ model.old.unknowns }
    ensures says { OnOk result (PutsTerms F.modulus model.old model.new
        (term_of_value F.number (name_at model.old.equations i) (name_at model.old.unknowns j) value ∷ [])) }
    ensures refused { IfErr result (LacksRoom F.modulus model.old
        (term_of_value F.number (name_at model.old.equations i) (name_at model.old.unknowns j) value ∷ [])) }
{
    model.is_model();
    match value {
        Value::Constant(constant) => {
            constant.in_field();
            model.put_constant(i, j, constant)
        }
        Value::Symbol => model.put_symbol(i, j),
    }
}

// The numbers of an equation and of an unknown.
fn place_of<F: Field>(model: &Mixed<F>, equation: &str, unknown: &str) -> (usize, usize)
    requires equation { has_name model.now.equations equation.now ≡ true }
    requires unknown { has_name model.now.unknowns unknown.now ≡ true }
    ensures place { IsPlaceOf model.now equation.now unknown.now result.0 result.1 }
    ensures model { IsModel F.modulus model.now }
{
    model.is_model();
    let i = equation_of(model, equation);
    let j = unknown_of(model, unknown);
    (i, j)
}

// The number of the equation of this name.
fn equation_of<F: Field>(model: &Mixed<F>, name: &str) -> usize
    requires { has_name model.now.equations name.now ≡ true }
    ensures within { result < length model.now.equations }
    ensures name { slice_index_or model.now.equations result [] ≡ name.now }
{
    model.find_equation(name).unwrap()
}

// The number of the unknown of this name.
fn unknown_of<F: Field>(model: &Mixed<F>, name: &str) -> usize
    requires { has_name model.now.unknowns name.now ≡ true }
    ensures within { result < length model.now.unknowns }
    ensures name { slice_index_or model.now.unknowns result [] ≡ name.now }
{
    model.find_unknown(name).unwrap()
}
