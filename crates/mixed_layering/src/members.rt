//! Which equations give Q rows, T rows and auxiliary columns.

ghost use Rattle.std.specs.Prelude.{◌≡◌, ◌<◌, ◌+◌, ℕ, Bool, length, IfOk, OnOk};
ghost use Rattle.mixed_model.specs.Models.{IsModel, mixed_matrix_of};
ghost use Rattle.mixed_layering.specs.Members.{AreListed, AreRows};

use mixed_model::Mixed;
use out_of_memory::NoMemory;
use residue_field::Field;
use std::alloc::Global;

/// The equations that give Q rows, those that give T rows, and those that give both, each by rising number.
#[derive(Drop)]
pub struct Rows {
    pub constants: Vec<usize>,
    pub symbols: Vec<usize>,
    pub split: Vec<usize>,
}

/// The rows that the equations of a model give.
pub fn rows_of<F: Field>(alloc: Global, model: &Mixed<F>) -> Result<Rows, NoMemory>
    ensures model { IfOk result (λ rows. IsModel F.modulus model.now) }
    ensures rows { IfOk result (λ rows. AreRows (mixed_matrix_of model.now) (length model.now.equations)
        rows.constants.items rows.symbols.items rows.split.items) }
{
    let mut rows = Rows {
        constants: Vec::new(alloc),
        symbols: Vec::new(alloc),
        split: Vec::new(alloc),
    };
    for equation in 0..model.equations() {
        let constant = model.has_constant(equation);
        let symbol = model.has_symbol(equation);
        enter(&mut rows.constants, equation, constant || !symbol)?;
        enter(&mut rows.symbols, equation, symbol)?;
        enter(&mut rows.split, equation, constant && symbol)?;
    }
    Ok(rows)
}

// Puts a number at the end of the list of the members before it, where it is a member itself.
fn enter(list: &mut Vec<usize>, number: usize, member: bool) -> Result<(), NoMemory>
    ensures { OnOk result ((A : ℕ → Bool) → AreListed A number list.old.items → A number ≡ member
        → AreListed A (number + 1) list.new.items) }
{
    if member {
        list.push(number)?;
    }
    Ok(())
}
