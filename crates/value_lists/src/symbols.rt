//! The symbols of an equation.

ghost use Rattle.std.specs.Prelude.{◌<◌, IfOk, length};
ghost use Rattle.mixed_model.specs.Models.{symbol_of};
ghost use Rattle.mixed_layering.specs.Places.{AreTouched};

use mixed_model::Mixed;
use out_of_memory::NoMemory;
use residue_field::Field;
use std::alloc::Global;

/// The columns of the symbols of an equation, rising.
pub fn symbol_columns<F: Field>(
    alloc: Global,
    model: &Mixed<F>,
    equation: usize,
) -> Result<Vec<usize>, NoMemory>
    requires equation { equation < length model.now.equations }
    ensures { IfOk result (λ list. AreTouched (length model.now.unknowns) (symbol_of model.now equation) list.items) }
{
    let mut columns = Vec::new(alloc);
    for entry in model.entries(equation) {
        if entry.symbol {
            columns.push(entry.column)?;
        }
    }
    Ok(columns)
}
