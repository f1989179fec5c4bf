//! Symbols that are replaced by numbers.

ghost use Rattle.std.specs.Prelude.{◌≡◌, ◌<◌, ◌≢◌, IfOk, OnOk, Some, length, option_map};
ghost use Rattle.std.specs.List.{All};
ghost use Rattle.mixed_model.specs.Models.{mixed_matrix_of};
ghost use Rattle.value_lists.specs.Fixing.{FixesAt, FixesOnes, IsFixedTo, IsSumAt};

use crate::symbols::symbol_columns;
use mixed_model::Mixed;
use out_of_memory::NoMemory;
use residue_field::Field;
use std::alloc::Global;

// The constant at a place with a number added, where the sum is not 0.
fn sum_at<F: Field>(model: &Mixed<F>, i: usize, j: usize, number: F) -> Option<F>
    requires equation { i < length model.now.equations }
    requires unknown { j < length model.now.unknowns }
    ensures sum { IsSumAt F.modulus model.now i j (F.number number) (option_map F.number result) }
    ensures some { option_map F.number result ≢ Some 0 }
{
    let sum = match model.constant(i, j) {
        Some(constant) => constant.add(number),
        None => number,
    };
    if sum.is_zero() { None } else { Some(sum) }
}

/// Puts a number in the place of the symbol of equation `i` at unknown `j`.
pub fn fix<F: Field>(model: &mut Mixed<F>, i: usize, j: usize, number: F) -> Result<(), NoMemory>
    requires equation { i < length model.old.equations }
    requires unknown { j < length model.old.unknowns }
    ensures { OnOk result (FixesAt F.modulus model.old model.new i j (F.number number)) }
{
    let sum = sum_at(model, i, j, number);
    model.set_place(i, j, sum, false)?;
    Ok(())
}

/// Puts a 1 in the place of each symbol of equation `i`, which stand at these unknowns.
pub fn fix_ones<F: Field>(model: &mut Mixed<F>, i: usize, columns: &[usize]) -> Result<(), NoMemory>
    requires equation { i < length model.old.equations }
    requires columns { All (λ column. column < length model.old.unknowns) columns.now }
    ensures { OnOk result (FixesOnes F.modulus model.old model.new i columns.now) }
{
    for column in columns {
        fix(model, i, *column, F::one())?;
    }
    Ok(())
}

/// The model with a 1 in the place of each symbol.
pub fn with_ones<F: Field>(alloc: Global, model: &Mixed<F>) -> Result<Mixed<F>, NoMemory>
    ensures { IfOk result (λ ones. IsFixedTo F.modulus (mixed_matrix_of model.now) (λ _ _. 1)
        (length model.now.equations) 0 (mixed_matrix_of ones)) }
{
    let mut ones = model.copy()?;
    for i in 0..model.equations() {
        let columns = symbol_columns(alloc, model, i)?;
        fix_ones(&mut ones, i, &columns)?;
    }
    Ok(ones)
}
