//! The layered matrix of a model.

ghost use Rattle.std.specs.Prelude.{IfOk};
ghost use Rattle.mixed_layering.specs.Layers.{AreLayersOf};

use crate::columns::column_origins;
use crate::constants::constants_of;
use crate::members::rows_of;
use crate::symbols::symbols_of;
use mixed_model::{Layered, Mixed};
use out_of_memory::NoMemory;
use residue_field::Field;
use std::alloc::Global;

/// The layered matrix of a model. Its columns are the unknowns in order, then an auxiliary column for each equation
/// with constants and symbols. An equation with constants alone, or with nothing, gives a Q row; one with symbols
/// alone a T row; one with both gives one of each, with 1 and a symbol at its auxiliary column. Rows stand in the
/// order of their equations. (Murota, chapter 4, splits every equation.)
pub fn layer<F: Field>(alloc: Global, model: &Mixed<F>) -> Result<Layered<F>, NoMemory>
    ensures { IfOk result (AreLayersOf model.now) }
{
    let rows = rows_of(alloc, model)?;
    let q = constants_of(alloc, model, &rows.constants, &rows.split)?;
    let t = symbols_of(alloc, model, &rows.symbols, &rows.split)?;
    let columns = column_origins(alloc, model.unknowns(), &rows.split)?;
    Ok(Layered::new(q, t, rows.constants, rows.symbols, columns))
}
