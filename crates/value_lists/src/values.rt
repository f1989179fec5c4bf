//! The first list of ones and twos that reaches the structural rank.

ghost use Rattle.std.specs.Prelude.{◌≡◌, IfOk, map};
ghost use Rattle.mixed_matrices.specs.StructuralRanks.{IsStructuralRank};
ghost use Rattle.mixed_model.specs.Models.{mixed_matrix_of};
ghost use Rattle.value_list_laws.specs.ListedValues.{IsFirstReachingList};
ghost use Rattle.value_lists.specs.Listing.{IsListOfOnes};

use crate::fixing::with_ones;
use crate::listing::{list_equation, list_ones};
use crate::ranks::{rank_of, structural_rank};
use crate::symbols::symbol_columns;
use edit_desk::Held;
use mixed_model::Mixed;
use out_of_memory::NoMemory;
use residue_field::Field;
use row_transform::Tableau;
use sparse_tableau::SparseTableau;
use std::alloc::Global;

/// One value for each symbol of a model, by rising equation and then unknown: a list of ones and twos with which the matrix
/// of the model has its structural rank, and the first of all these, compared from the first place. (A minor is of degree at
/// most one in each symbol, so that a symbol that must not be 1 may be 2; Murota, chapter 4.)
pub fn nonzero_values<F: Field>(alloc: Global, model: &Mixed<F>) -> Result<Vec<F>, NoMemory>
    ensures { IfOk result (λ values.
        IsFirstReachingList F.modulus (mixed_matrix_of model.now) (map F.number values.items)) }
{
    let rank = structural_rank(alloc, model)?;
    reaching_values(alloc, model, rank)
}

/// The structural rank of a model, and the same list of values.
pub fn rank_and_values<F: Field>(
    alloc: Global,
    model: &Mixed<F>,
) -> Result<(usize, Vec<F>), NoMemory>
    ensures rank { IfOk result (λ both. IsStructuralRank F.modulus (mixed_matrix_of model.now) both.0) }
    ensures values { IfOk result (λ both.
        IsFirstReachingList F.modulus (mixed_matrix_of model.now) (map F.number both.1.items)) }
{
    let rank = structural_rank(alloc, model)?;
    let values = reaching_values(alloc, model, rank)?;
    Ok((rank, values))
}

// The list of a model of this rank: all ones where they reach it.
fn reaching_values<F: Field>(
    alloc: Global,
    model: &Mixed<F>,
    rank: usize,
) -> Result<Vec<F>, NoMemory>
    requires { IsStructuralRank F.modulus (mixed_matrix_of model.now) rank }
    ensures { IfOk result (λ values.
        IsFirstReachingList F.modulus (mixed_matrix_of model.now) (map F.number values.items)) }
{
    let rank_of_ones = rank_of(alloc, with_ones(alloc, model)?)?;
    if rank_of_ones == rank {
        let ones = all_ones(alloc, model)?;
        return Ok(ones);
    }
    listed(alloc, model, rank)
}

// A 1 for each symbol.
fn all_ones<F: Field>(alloc: Global, model: &Mixed<F>) -> Result<Vec<F>, NoMemory>
    ensures { IfOk result (λ values. IsListOfOnes (mixed_matrix_of model.now) (map F.number values.items)) }
{
    let mut values = Vec::new(alloc);
    for i in 0..model.equations() {
        let columns = symbol_columns(alloc, model, i)?;
        list_ones(&mut values, &columns)?;
    }
    Ok(values)
}

// The list, found by an edit for each equation, and for each symbol of one that has a 2. The rank is that of the model.
fn listed<F: Field>(alloc: Global, model: &Mixed<F>, rank: usize) -> Result<Vec<F>, NoMemory>
    requires { IsStructuralRank F.modulus (mixed_matrix_of model.now) rank }
    ensures { IfOk result (λ values.
        IsFirstReachingList F.modulus (mixed_matrix_of model.now) (map F.number values.items)) }
{
    let mut held = Held::<F, SparseTableau<F>>::open(alloc, model.copy()?)?;
    list_rows(alloc, &mut held, model, rank)
}

// The list, found in a held copy of the model.
fn list_rows<F: Field, T: Tableau<F>>(
    alloc: Global,
    held: &mut Held<F, T>,
    model: &Mixed<F>,
    rank: usize,
) -> Result<Vec<F>, NoMemory>
    requires same { held.old.model ≡ model.now }
    requires rank { IsStructuralRank F.modulus (mixed_matrix_of model.now) rank }
    ensures { IfOk result (λ values.
        IsFirstReachingList F.modulus (mixed_matrix_of model.now) (map F.number values.items)) }
{
    let mut values = Vec::new(alloc);
    for i in 0..model.equations() {
        list_equation(alloc, held, model, rank, i, &mut values)?;
    }
    Ok(values)
}
