//! Equations that are kept by falling cost.

ghost use Rattle.std.specs.Prelude.{◌≡◌, ℕ, ◌-◌, ◌^◌, ◌<◌, length, map, slice_index, IfOk, OnOk};
ghost use Rattle.std.specs.List.{All};
ghost use Rattle.std.specs.List.Sorted.{IsPermutation, IsSortedByKey, IsStableByKey, IsStrictlyIncreasing};
ghost use Rattle.std.specs.Ordering.{nat_cmp};
ghost use Rattle.residue_theory.specs.Sets.{everything, has};
ghost use Rattle.mixed_model.specs.Models.{mixed_matrix_of};
ghost use Rattle.equation_matroid_laws.specs.GreedyChoices.{IsCheapestRepair, IsGreedyChoice, by_cost, outside};
ghost use Rattle.equation_choice.specs.Choices.{IsAlong};
ghost use Rattle.equation_choice.specs.Prices.{ArePriced};

use crate::along::kept;
use crate::list::marked_numbers;
use mixed_model::Mixed;
use out_of_memory::NoMemory;
use residue_field::Field;
use std::alloc::Global;

// An equation and its cost.
#[derive(Clone, Copy, Drop)]
struct Priced {
    cost: u64,
    equation: usize,
}

/// The equations, rising and from 0, that are kept where they are ordered by falling cost, those of one cost by rising
/// number: an equation is kept where the structural rank of those before it rises with it. There is one cost for each
/// equation. Those that are not kept are a cheapest repair. (Murota 2000, chapter 2: the greedy algorithm.)
pub fn kept_by_cost<F: Field>(
    alloc: Global,
    model: &Mixed<F>,
    costs: &[u64],
) -> Result<Vec<usize>, NoMemory>
    requires { length costs.now ≡ length model.now.equations }
    ensures rising { IfOk result (λ list. IsStrictlyIncreasing list.items) }
    ensures below { IfOk result (λ list. All (λ equation. equation < length model.now.equations) list.items) }
    ensures kept { IfOk result (λ list. IsGreedyChoice F.modulus (mixed_matrix_of model.now)
        (by_cost (slice_index costs.now)) everything (has list.items)) }
    ensures repair { IfOk result (λ list. IsCheapestRepair F.modulus (mixed_matrix_of model.now)
        (slice_index costs.now) (outside (has list.items))) }
{
    let order = by_falling_cost(alloc, costs)?;
    let marks = kept(alloc, model, &order)?;
    marked_numbers(alloc, &marks, costs.len())
}

// The numbers of the costs by falling cost, those of one cost rising.
fn by_falling_cost(alloc: Global, costs: &[u64]) -> Result<Vec<usize>, NoMemory>
    ensures below { IfOk result (λ order. All (λ equation. equation < length costs.now) order.items) }
    ensures along { IfOk result (λ order. IsAlong (length costs.now) (by_cost (slice_index costs.now)) order.items) }
{
    let mut list = with_numbers(alloc, costs)?;
    sort_by_falling_cost(&mut list)?;
    numbers(alloc, &list)
}

fn with_numbers(alloc: Global, costs: &[u64]) -> Result<Vec<Priced>, NoMemory>
    ensures { IfOk result (λ list. ArePriced costs.now (length costs.now) list.items) }
{
    let mut list = Vec::new(alloc);
    for equation in 0..costs.len() {
        let cost = costs[equation];
        list.push(Priced { cost, equation })?;
    }
    Ok(list)
}

fn sort_by_falling_cost(list: &mut Vec<Priced>) -> Result<(), NoMemory>
    ensures moved { OnOk result (IsPermutation list.old.items list.new.items) }
    ensures sorted { OnOk result (IsSortedByKey (λ priced. 2 ^ 64 - 1 - priced.cost) nat_cmp list.new.items) }
    ensures stable { OnOk result (IsStableByKey (λ priced. 2 ^ 64 - 1 - priced.cost) nat_cmp list.old.items
        list.new.items) }
{
    list.sort_by_key(|priced| u64::MAX - priced.cost)?;
    Ok(())
}

fn numbers(alloc: Global, list: &[Priced]) -> Result<Vec<usize>, NoMemory>
    ensures { IfOk result (λ numbers. numbers.items ≡ map (λ priced. priced.equation) list.now) }
{
    let mut numbers = Vec::new(alloc);
    for priced in list {
        numbers.push(priced.equation)?;
    }
    Ok(numbers)
}
