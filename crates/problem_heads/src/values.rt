//! The values of a model's symbols.

ghost use Rattle.std.specs.Prelude.{◌≡◌, ◌<◌, Some, None, length, IfErr, IfOk};
ghost use Rattle.problem_heads.specs.HeadNumbers.{number_for};
ghost use Rattle.problem_heads.specs.Misfits.{IsMissing, LacksValue};
ghost use Rattle.problem_heads.specs.Problems.{AreGivenValues, place_names};

use crate::lines::HeadLines;
use mixed_model::Mixed;
use refusals::{Place, ReadModel, Refused, Why};
use residue_field::Field;
use std::alloc::Global;
use symbol_places::symbol_places;

/// The values that a head gives for the symbols of a model, by rising equation and then unknown. A symbol that has none
/// is `Missing`.
pub(crate) fn values_of<F: Field>(
    alloc: Global,
    lines: &HeadLines<F>,
    model: &Mixed<F>,
) -> Result<Vec<F>, ReadModel>
    ensures values { IfOk result (λ values. AreGivenValues lines.now.numbers model.now values.items) }
    ensures missing { IfErr result (IsMissing (LacksValue lines.now.numbers model.now)) }
{
    let places = symbol_places(alloc, model)?;
    let mut values = Vec::new(alloc);
    for place in &places {
        let value = value_at(lines, model, place.equation, place.unknown)?;
        values.push(value)?;
    }
    Ok(values)
}

// The value of the symbol of equation `i` at unknown `j`.
fn value_at<F: Field>(
    lines: &HeadLines<F>,
    model: &Mixed<F>,
    i: usize,
    j: usize,
) -> Result<F, ReadModel>
    requires equation { i < length model.now.equations }
    requires unknown { j < length model.now.unknowns }
    ensures value { IfOk result (λ value. number_for lines.now.numbers (place_names model.now i j) ≡ Some value) }
    ensures missing { IfErr result
        (IsMissing (number_for lines.now.numbers (place_names model.now i j) ≡ None)) }
{
    match lines.for_place(model.equation_name(i), model.unknown_name(j))? {
        Some(value) => Ok(value),
        None => Err(ReadModel::Refused(Refused {
            place: Place::Document,
            why: Why::Missing,
        })),
    }
}
