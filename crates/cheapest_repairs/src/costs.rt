//! What equations cost.

ghost use Rattle.std.specs.Prelude.{◌≡◌, ◌≤◌, ℕ, IfOk};
ghost use Rattle.std.specs.List.Sorted.{IsStrictlyIncreasing};
ghost use Rattle.repair_checker.specs.Costs.{AreCosts, AreLevels, all_costing};
ghost use Rattle.repair_checker.specs.Rules.{cost_of_others};

use out_of_memory::NoMemory;
use std::alloc::Global;

/// The costs, each once and falling.
pub fn falling_costs(alloc: Global, costs: &[u64]) -> Result<Vec<u64>, NoMemory>
    ensures { IfOk result (λ list. AreLevels costs.now list.items) }
{
    let mut list = costs.to_vec(alloc)?;
    list.sort_unstable();
    list.dedup();
    list.reverse();
    Ok(list)
}

/// The equations that cost at least so much, rising.
pub fn equations_costing(alloc: Global, costs: &[u64], least: u64) -> Result<Vec<usize>, NoMemory>
    ensures { IfOk result (λ list. list.items ≡ all_costing costs.now least) }
{
    let mut equations = Vec::new(alloc);
    for (equation, cost) in costs.iter().enumerate() {
        if least <= *cost {
            equations.push(equation)?;
        }
    }
    Ok(equations)
}

/// What the equations that are not kept cost together.
pub fn cost_of_others(costs: &[u64], kept: &[usize]) -> u64
    requires costs { (n : ℕ) × AreCosts n costs.now × (n ≤ 4096) }
    requires kept { IsStrictlyIncreasing kept.now }
    ensures { result ≡ cost_of_others costs.now kept.now }
{
    let mut total = 0;
    for (equation, cost) in costs.iter().enumerate() {
        if kept.binary_search(&equation).is_err() {
            total += *cost;
        }
    }
    total
}
