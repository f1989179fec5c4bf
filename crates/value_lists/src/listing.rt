//! The values of one equation after another.

ghost use Rattle.std.specs.Prelude.{◌≡◌, ◌+◌, ◌<◌, IfOk, OnOk, length, map};
ghost use Rattle.std.specs.List.{All};
ghost use Rattle.mixed_matrices.specs.Models.{MixedMatrix};
ghost use Rattle.mixed_matrices.specs.StructuralRanks.{IsStructuralRank};
ghost use Rattle.mixed_model.specs.Models.{mixed_matrix_of};
ghost use Rattle.value_list_laws.specs.FixedSymbols.{IsSymbolPlace};
ghost use Rattle.value_lists.specs.Fixing.{AreSymbolColumns, IsSameBut};
ghost use Rattle.value_lists.specs.Listing.{GoesOn, ListsOnes};

use crate::fixing::{fix, fix_ones};
use crate::ranks::{follow, has_rank};
use crate::symbols::symbol_columns;
use edit_desk::Held;
use mixed_model::Mixed;
use out_of_memory::NoMemory;
use residue_field::Field;
use row_transform::Tableau;
use std::alloc::Global;

/// Lists a 1 for each symbol of an equation, which stand at these unknowns.
pub fn list_ones<F: Field>(values: &mut Vec<F>, columns: &[usize]) -> Result<(), NoMemory>
    ensures { OnOk result (ListsOnes columns.now (map F.number values.old.items) (map F.number values.new.items)) }
{
    for _ in columns {
        values.push(F::one())?;
    }
    Ok(())
}

// Lists the value of the symbol at a place, all earlier ones being fixed in the held model, and fixes it there. The rank is
// that of the model in which none is fixed.
fn list_place<F: Field, T: Tableau<F>>(
    held: &mut Held<F, T>,
    rank: usize,
    i: usize,
    j: usize,
    values: &mut Vec<F>,
) -> Result<(), NoMemory>
    requires equation { i < length held.old.model.equations }
    requires unknown { j < length held.old.model.unknowns }
    ensures same { OnOk result (IsSameBut held.old.model held.new.model i) }
    ensures listed { OnOk result ((M : MixedMatrix) → IsStructuralRank F.modulus M rank → IsSymbolPlace M i j →
        GoesOn F.modulus M i j i (j + 1) held.old.model held.new.model (map F.number values.old.items)
        (map F.number values.new.items)) }
{
    let mut two = held.model().copy()?;
    let mut one = held.model().copy()?;
    fix(&mut one, i, j, F::one())?;
    if has_rank(held, one, i, rank)? {
        values.push(F::one())?;
        return Ok(());
    }
    let number = F::one().add(F::one());
    fix(&mut two, i, j, number)?;
    // tells a proof that it is a model
    held.model().is_model();
    follow(held, two, i)?;
    values.push(number)?;
    Ok(())
}

// Lists the values of the symbols of an equation one after another.
fn list_places<F: Field, T: Tableau<F>>(
    held: &mut Held<F, T>,
    rank: usize,
    i: usize,
    columns: &[usize],
    values: &mut Vec<F>,
) -> Result<(), NoMemory>
    requires equation { i < length held.old.model.equations }
    requires columns { All (λ column. column < length held.old.model.unknowns) columns.now }
    ensures same { OnOk result (IsSameBut held.old.model held.new.model i) }
    ensures listed { OnOk result ((M : MixedMatrix) → IsStructuralRank F.modulus M rank → i < M.rows →
        AreSymbolColumns M i columns.now →
        GoesOn F.modulus M i 0 (i + 1) 0 held.old.model held.new.model (map F.number values.old.items)
        (map F.number values.new.items)) }
{
    for column in columns {
        list_place(held, rank, i, *column, values)?;
    }
    Ok(())
}

// The same: at first all of them are tried to be ones.
fn list_columns<F: Field, T: Tableau<F>>(
    held: &mut Held<F, T>,
    rank: usize,
    i: usize,
    columns: &[usize],
    values: &mut Vec<F>,
) -> Result<(), NoMemory>
    requires equation { i < length held.old.model.equations }
    requires columns { All (λ column. column < length held.old.model.unknowns) columns.now }
    ensures same { OnOk result (IsSameBut held.old.model held.new.model i) }
    ensures listed { OnOk result ((M : MixedMatrix) → IsStructuralRank F.modulus M rank → i < M.rows →
        AreSymbolColumns M i columns.now →
        GoesOn F.modulus M i 0 (i + 1) 0 held.old.model held.new.model (map F.number values.old.items)
        (map F.number values.new.items)) }
{
    let start = held.model().copy()?;
    let mut ones = held.model().copy()?;
    fix_ones(&mut ones, i, columns)?;
    if has_rank(held, ones, i, rank)? {
        list_ones(values, columns)?;
        return Ok(());
    }
    // tells a proof that it is a model
    held.model().is_model();
    follow(held, start, i)?;
    list_places(held, rank, i, columns, values)?;
    Ok(())
}

/// Lists the values of the symbols of equation `i` of a model, all earlier ones being fixed in the held model, and fixes them
/// there. The rank is that of the model.
pub fn list_equation<F: Field, T: Tableau<F>>(
    alloc: Global,
    held: &mut Held<F, T>,
    model: &Mixed<F>,
    rank: usize,
    i: usize,
    values: &mut Vec<F>,
) -> Result<(), NoMemory>
    requires equations { held.old.model.equations ≡ model.now.equations }
    requires unknowns { held.old.model.unknowns ≡ model.now.unknowns }
    requires equation { i < length model.now.equations }
    requires rank { IsStructuralRank F.modulus (mixed_matrix_of model.now) rank }
    ensures equations { OnOk result (held.new.model.equations ≡ held.old.model.equations) }
    ensures unknowns { OnOk result (held.new.model.unknowns ≡ held.old.model.unknowns) }
    ensures listed { OnOk result (GoesOn F.modulus (mixed_matrix_of model.now) i 0 (i + 1) 0 held.old.model
        held.new.model (map F.number values.old.items) (map F.number values.new.items)) }
{
    let columns = symbol_columns(alloc, model, i)?;
    if columns.is_empty() {
        return Ok(());
    }
    list_columns(held, rank, i, &columns, values)?;
    Ok(())
}
