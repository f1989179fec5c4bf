//! The model of a size.

ghost use Rattle.std.specs.Prelude.{◌<◌, IfOk};
ghost use Rattle.made_models.specs.MadeModels.{IsMade, IsSize};
ghost use Rattle.mixed_model.specs.Models.{IsModel};

use crate::draws::Draws;
use crate::names::named;
use crate::tries::try_entries;
use mixed_model::Mixed;
use out_of_memory::NoMemory;
use residue_field::Field;
use std::alloc::Global;

/// How many equations a made model has at most.
pub const SIZE_LIMIT: usize = 400;

/// The model of so many equations and as many unknowns, from 1 to 400, over a field of more than 65,520 elements: for each
/// equation three entries are drawn, of which those at a place that is taken are left out.
pub fn made_model<F: Field>(alloc: Global, size: usize) -> Result<Mixed<F>, NoMemory>
    requires size { IsSize size }
    requires constants { 65520 < F.modulus }
    ensures made { IfOk result (IsMade size) }
    ensures model { IfOk result (IsModel F.modulus) }
{
    let mut model = named(alloc, size)?;
    let mut draws = Draws::new(size);
    for i in 0..size {
        try_entries(&mut model, &mut draws, size, i)?;
    }
    model.is_model();
    Ok(model)
}
