//! Values that reach the rank, each at its place.

ghost use Rattle.std.specs.Prelude.{◌≡◌, IfOk, length, map};
ghost use Rattle.mixed_model.specs.Models.{mixed_matrix_of};
ghost use Rattle.study_answers.specs.Values.{AreValuesOf, numbers_at};

use cert_text::Items;
use mixed_model::Mixed;
use out_of_memory::NoMemory;
use residue_field::Field;
use std::alloc::Global;
use study_answers::{ValueAt, Values};
use symbol_places::{SymbolPlace, symbol_places};
use value_lists::rank_and_values;

/// The structural rank of a model, and the first list of ones and twos for its symbols with which its matrix reaches it.
pub fn first_values<F: Field>(alloc: Global, model: &Mixed<F>) -> Result<Values<F>, NoMemory>
    ensures { IfOk result (AreValuesOf F.number F.modulus (mixed_matrix_of model.now)) }
{
    let places = symbol_places(alloc, model)?;
    let (rank, values) = rank_and_values(alloc, model)?;
    let values = placed(alloc, &places, &values)?;
    Ok(Values {
        rank,
        values: Items::from_vec(values),
    })
}

// The values at their places.
fn placed<F: Field>(
    alloc: Global,
    places: &[SymbolPlace],
    values: &[F],
) -> Result<Vec<ValueAt<F>>, NoMemory>
    requires { length values.now ≡ length places.now }
    ensures places { IfOk result (λ placed. map (λ at. at.place) placed.items ≡ places.now) }
    ensures values { IfOk result (λ placed. numbers_at F.number placed.items ≡ map F.number values.now) }
{
    let mut placed = Vec::with_capacity(alloc, places.len())?;
    for (index, place) in places.iter().enumerate() {
        placed.push(ValueAt {
            place: *place,
            value: values[index],
        })?;
    }
    Ok(placed)
}
