//! An item that is set in an equation.

ghost use Rattle.std.specs.Prelude.{◌≡◌, ◌≢◌, ◌<◌, ◌⊎◌, Some, Err, IsTrue, IfErr, OnOk, length};
ghost use Rattle.std.specs.Option.{option_map};
ghost use Rattle.mixed_model.specs.Models.{IsModel};
ghost use Rattle.mixed_model.specs.Names.{is_label, seeing};
ghost use Rattle.mixed_model.specs.declared.errors.AddError.TheVariants.{NoMemory};
ghost use Rattle.model_edit_laws.specs.Edits.{IsEditedAt};
ghost use Rattle.model_edits.specs.Edits.{SetsItem};

use mixed_model::{AddError, Mixed};
use residue_field::Field;

/// Leaves just this constant, which is not 0, and this symbol at the place of equation `i` and an unknown, which is added
/// where it is not there. `TooMany` comes where it is not there and 4,096 others are. Where memory runs out, the unknown may
/// have been added.
pub fn set_item<F: Field>(
    model: &mut Mixed<F>,
    i: usize,
    unknown: &str,
    constant: Option<F>,
    symbol: bool,
) -> Result<(), AddError>
    requires equation { i < length model.old.equations }
    requires unknown { IsTrue (is_label unknown.now) }
    requires constant { option_map F.number constant ≢ Some 0 }
    ensures set { OnOk result
        (SetsItem model.old model.new i unknown.now (option_map F.number constant) symbol) }
    ensures refused { IfErr result (λ error.
        (error ≡ NoMemory) ⊎ (seeing model.old.unknowns unknown.now ≡ Err error)) }
    ensures edited { OnOk result (IsEditedAt model.old model.new i) }
    ensures equations { model.new.equations ≡ model.old.equations }
    ensures model { IsModel F.modulus model.new }
{
    let j = model.find_or_add_unknown(unknown)?;
    match model.set_place(i, j, constant, symbol) {
        Ok(()) => Ok(()),
        Err(_) => Err(AddError::NoMemory),
    }
}
