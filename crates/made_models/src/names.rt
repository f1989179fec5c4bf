//! The names of a made model.

ghost use Rattle.std.specs.Prelude.{◌≡◌, [], IfOk, OnOk};
ghost use Rattle.mixed_model.specs.Models.{empty_model};
ghost use Rattle.made_models.specs.MadeModels.{IsSize, numbered_names};
ghost use Rattle.made_models.specs.Tries.{IsWithoutEntries, IsTried};

use mixed_model::{AddError, Mixed};
use out_of_memory::NoMemory;
use residue_field::Field;
use std::alloc::Global;

// The model of a size before anything stands in it.
pub(crate) fn named<F: Field>(alloc: Global, size: usize) -> Result<Mixed<F>, NoMemory>
    requires { IsSize size }
    ensures { IfOk result (IsTried size 0) }
{
    let mut model = Mixed::new(alloc)?;
    add_equations(alloc, &mut model, size)?;
    add_unknowns(alloc, &mut model, size)?;
    Ok(model)
}

// Adds the equations e1, e2, .., in which nothing stands.
fn add_equations<F: Field>(alloc: Global, model: &mut Mixed<F>, size: usize) -> Result<(), NoMemory>
    requires size { IsSize size }
    requires empty { model.old ≡ empty_model }
    ensures equations { OnOk result (model.new.equations ≡ numbered_names 101 size) }
    ensures unknowns { OnOk result (model.new.unknowns ≡ []) }
    ensures blank { OnOk result (IsWithoutEntries model.new) }
{
    for place in 0..size {
        let name = format!(in alloc; "e{}", place + 1)?;
        if let Err(error) = model.add_equation(&name) {
            return Err(want_of_memory(error));
        }
    }
    Ok(())
}

// Adds the unknowns x1, x2, ..
fn add_unknowns<F: Field>(alloc: Global, model: &mut Mixed<F>, size: usize) -> Result<(), NoMemory>
    requires size { IsSize size }
    requires empty { model.old.unknowns ≡ [] }
    ensures unknowns { OnOk result (model.new.unknowns ≡ numbered_names 120 size) }
    ensures equations { OnOk result (model.new.equations ≡ model.old.equations) }
    ensures rows { OnOk result (model.new.rows ≡ model.old.rows) }
{
    for place in 0..size {
        let name = format!(in alloc; "x{}", place + 1)?;
        if let Err(error) = model.add_unknown(&name) {
            return Err(want_of_memory(error));
        }
    }
    Ok(())
}

// The one refusal that is left where names are new and nothing stands at a place.
pub(crate) fn want_of_memory(_error: AddError) -> NoMemory
    requires { _error ≡ AddError.NoMemory }
{
    NoMemory
}
