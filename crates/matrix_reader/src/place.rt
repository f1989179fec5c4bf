//! What an item says of a place, and a value that is put there.

ghost use Rattle.std.specs.Prelude.{◌≡◌, ◌≢◌, ◌<◌, true, false, Some, None, length, unwrap_or, OnOk, IfErr};
ghost use Rattle.std.specs.Option.{option_map};
ghost use Rattle.mixed_model.specs.Models.{constant_of, symbol_of};
ghost use Rattle.mixed_model.specs.declared.errors.AddError.TheVariants.{NoMemory};
ghost use Rattle.matrix_reader.specs.ReaderStates.{PutsValue};

use mixed_model::{AddError, Mixed};
use residue_field::Field;

/// What an item says: an unknown, and what stands at its place, which is a constant other than 0, a symbol, both, or
/// nothing.
#[derive(Clone, Copy)]
pub struct Item<'a, F: Field> {
    pub unknown: &'a str,
    pub constant: Option<F>,
    pub symbol: bool,
}

/// Puts a constant other than 0 and a symbol, where they are there, at the place of equation `i` and unknown `j`. Where
/// nothing stands there memory alone may be wanting.
pub(crate) fn put_value<F: Field>(
    model: &mut Mixed<F>,
    i: usize,
    j: usize,
    constant: Option<F>,
    symbol: bool,
) -> Result<(), AddError>
    requires equation { i < length model.old.equations }
    requires unknown { j < length model.old.unknowns }
    requires constant { option_map F.number constant ≢ Some 0 }
    ensures put { OnOk result
        (PutsValue F.modulus model.old model.new i j (unwrap_or (option_map F.number constant) 0) symbol) }
    ensures refused { IfErr result (λ error.
        constant_of model.old i j ≡ None → symbol_of model.old i j ≡ false → error ≡ NoMemory) }
{
    put_constant(model, i, j, constant)?;
    if symbol {
        return put_symbol(model, i, j);
    }
    Ok(())
}

// Puts a constant there, if there is one.
fn put_constant<F: Field>(
    model: &mut Mixed<F>,
    i: usize,
    j: usize,
    constant: Option<F>,
) -> Result<(), AddError>
    requires equation { i < length model.old.equations }
    requires unknown { j < length model.old.unknowns }
    requires constant { option_map F.number constant ≢ Some 0 }
    ensures put { OnOk result
        (PutsValue F.modulus model.old model.new i j (unwrap_or (option_map F.number constant) 0) false) }
    ensures refused { IfErr result (λ error. constant_of model.old i j ≡ None → error ≡ NoMemory) }
{
    match constant {
        Some(constant) => model.put_constant(i, j, constant),
        None => Ok(()),
    }
}

// Puts a symbol there.
fn put_symbol<F: Field>(model: &mut Mixed<F>, i: usize, j: usize) -> Result<(), AddError>
    requires equation { i < length model.old.equations }
    requires unknown { j < length model.old.unknowns }
    ensures put { OnOk result (PutsValue F.modulus model.old model.new i j 0 true) }
    ensures refused { IfErr result (λ error. symbol_of model.old i j ≡ false → error ≡ NoMemory) }
{
    model.put_symbol(i, j)
}
