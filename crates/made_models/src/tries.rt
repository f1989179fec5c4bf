//! The entries of a made model, try by try.

ghost use Rattle.std.specs.Prelude.{◌≡◌, ◌+◌, ◌*◌, ◌%◌, ◌<◌, false, length, IfErr, OnOk};
ghost use Rattle.made_models.specs.Draws.{next};
ghost use Rattle.made_models.specs.MadeModels.{IsSize};
ghost use Rattle.made_models.specs.Tries.{IsTried, TriesEntry, is_taken, last_after};

use crate::draws::Draws;
use crate::names::want_of_memory;
use mixed_model::{AddError, Mixed};
use out_of_memory::NoMemory;
use residue_field::Field;

// How many entries are tried at each equation.
const TRIES: usize = 3;

// How many constants there are, from 1 on.
const CONSTANTS: u64 = 65_520;

// The three tries at equation `i`, after those at the equations before it.
pub(crate) fn try_entries<F: Field>(
    model: &mut Mixed<F>,
    draws: &mut Draws,
    size: usize,
    i: usize,
) -> Result<(), NoMemory>
    requires size { IsSize size }
    requires constants { 65520 < F.modulus }
    requires equation { i < size }
    requires tried { IsTried size (3 * i) model.old }
    requires draws { draws.old ≡ last_after size (6 * i) }
    ensures tried { OnOk result (IsTried size (3 * (i + 1)) model.new) }
    ensures draws { OnOk result (draws.new ≡ last_after size (6 * (i + 1))) }
{
    for _trial in 0..TRIES {
        try_entry(model, draws, size, i)?;
    }
    Ok(())
}

// One try at equation `i`: a column and a number are drawn, and where the place is taken that is all.
fn try_entry<F: Field>(
    model: &mut Mixed<F>,
    draws: &mut Draws,
    size: usize,
    i: usize,
) -> Result<(), NoMemory>
    requires size { IsSize size }
    requires constants { 65520 < F.modulus }
    requires equation { i < length model.old.equations }
    requires unknowns { length model.old.unknowns ≡ size }
    ensures draws { draws.new ≡ next (next draws.old) }
    ensures entry { OnOk result (TriesEntry i (next draws.old % size) draws.new model.old model.new) }
{
    let column = draws.draw() as usize % size;
    let number = draws.draw();
    if is_taken(model, i, column) {
        return Ok(());
    }
    if let Err(error) = put_entry(model, i, column, number) {
        return Err(want_of_memory(error));
    }
    Ok(())
}

// Whether anything stands at a place.
fn is_taken<F: Field>(model: &Mixed<F>, i: usize, j: usize) -> bool
    requires equation { i < length model.now.equations }
    requires unknown { j < length model.now.unknowns }
    ensures { result ≡ is_taken model.now i j }
{
    model.constant(i, j).is_some() || model.symbol(i, j)
}

// Puts the entry of a number at a place where nothing stands: memory alone may be wanting.
fn put_entry<F: Field>(
    model: &mut Mixed<F>,
    i: usize,
    j: usize,
    number: u64,
) -> Result<(), AddError>
    requires constants { 65520 < F.modulus }
    requires equation { i < length model.old.equations }
    requires unknown { j < length model.old.unknowns }
    requires free { is_taken model.old i j ≡ false }
    ensures entry { OnOk result (TriesEntry i j number model.old model.new) }
    ensures refused { IfErr result (λ error. error ≡ AddError.NoMemory) }
{
    if number % 4 > 1 {
        model.put_symbol(i, j)
    } else {
        model.put_constant(i, j, F::of(number / 4 % CONSTANTS + 1))
    }
}
