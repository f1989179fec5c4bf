//! Where the symbols of a model stand.

ghost use Rattle.std.specs.Prelude.{◌<◌, ◌+◌, length, IfOk, OnOk};
ghost use Rattle.mixed_model.specs.Models.{mixed_matrix_of};
ghost use Rattle.symbol_places.specs.Places.{AreSymbolPlaces};
ghost use Rattle.symbol_places.specs.PlacesBefore.{AreSymbolPlacesBefore};

use mixed_model::Mixed;
use out_of_memory::NoMemory;
use residue_field::Field;
use std::alloc::Global;

/// Where a symbol stands: its equation and its unknown, both counted from 0.
#[derive(Clone, Copy, Debug, PartialEq, Eq)]
pub struct SymbolPlace {
    pub equation: usize,
    pub unknown: usize,
}

/// The places of a model's symbols, by rising equation and then unknown.
pub fn symbol_places<F: Field>(
    alloc: Global,
    model: &Mixed<F>,
) -> Result<Vec<SymbolPlace>, NoMemory>
    ensures { IfOk result (λ places. AreSymbolPlaces (mixed_matrix_of model.now) places.items) }
{
    let mut places = Vec::new(alloc);
    for equation in 0..model.equations() {
        push_row(&mut places, model, equation)?;
    }
    Ok(places)
}

// Puts the places of the symbols of an equation last.
fn push_row<F: Field>(
    places: &mut Vec<SymbolPlace>,
    model: &Mixed<F>,
    equation: usize,
) -> Result<(), NoMemory>
    requires { equation < length model.now.equations }
    ensures { OnOk result (AreSymbolPlacesBefore (mixed_matrix_of model.now) equation 0 places.old.items
        → AreSymbolPlacesBefore (mixed_matrix_of model.now) (equation + 1) 0 places.new.items) }
{
    for entry in model.entries(equation) {
        if entry.symbol {
            places.push(SymbolPlace {
                equation,
                unknown: entry.column,
            })?;
        }
    }
    Ok(())
}
