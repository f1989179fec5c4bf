//! Costs of equations, and the levels of a repair.

ghost use Rattle.std.specs.Prelude.{◌≡◌, ◌+◌, ◌<◌, ◌≤◌, ◌↔◌, ℕ, IfOk, IsTrue, length, nat_eq, slice_index};
ghost use Rattle.std.specs.List.{All, list_all, list_any};
ghost use Rattle.std.specs.List.Sorted.{IsStrictlyIncreasing};
ghost use Rattle.residue_theory.specs.Sets.{has};
ghost use Rattle.repair_checker.specs.Costs.{AreCosts, AreLevels, all_costing, costing_of};
ghost use Rattle.repair_checker.specs.Rules.{cost_of_others, level_costs};

use crate::repair::Level;
use residue_field::Field;
use std::alloc::{AllocError, Global};

/// Whether the levels are the costs that equations have, each once and falling.
pub fn are_levels<F: Field>(costs: &[u64], levels: &[Level<F>]) -> bool
    ensures { IsTrue result ↔ AreLevels costs.now (level_costs levels.now) }
{
    are_falling(levels) && each_has_level(costs, levels) && each_is_cost(costs, levels)
}

// Whether each level costs less than the one before it.
fn are_falling<F: Field>(levels: &[Level<F>]) -> bool
    ensures { IsTrue result ↔ ((k : ℕ) → k + 1 < length levels.now →
        slice_index (level_costs levels.now) (k + 1) < slice_index (level_costs levels.now) k) }
{
    for k in 1..levels.len() {
        let (one, next) = (levels[k - 1].cost, levels[k].cost);
        if one <= next {
            return false;
        }
    }
    true
}

// Whether each cost is that of a level.
fn each_has_level<F: Field>(costs: &[u64], levels: &[Level<F>]) -> bool
    ensures { result ≡ list_all (λ cost. list_any (λ level. nat_eq level.cost cost) levels.now) costs.now }
{
    costs.iter().all(|cost| is_level(levels, *cost))
}

// Whether a level has this cost.
fn is_level<F: Field>(levels: &[Level<F>], cost: u64) -> bool
    ensures { result ≡ list_any (λ level. nat_eq level.cost cost) levels.now }
{
    levels.iter().any(|level| level.cost == cost)
}

// Whether each level is the cost of an equation.
fn each_is_cost<F: Field>(costs: &[u64], levels: &[Level<F>]) -> bool
    ensures { result ≡ list_all (λ level. has costs.now level.cost) levels.now }
{
    levels.iter().all(|level| is_cost(costs, level.cost))
}

// Whether an equation costs this.
fn is_cost(costs: &[u64], wanted: u64) -> bool
    ensures { result ≡ has costs.now wanted }
{
    costs.iter().any(|cost| *cost == wanted)
}

/// The equations that cost at least so much, rising.
pub fn equations_costing(alloc: Global, costs: &[u64], least: u64) -> Result<Vec<usize>, AllocError>
    ensures { IfOk result (λ list. list.items ≡ all_costing costs.now least) }
{
    let mut equations = Vec::new(alloc);
    for (equation, cost) in costs.iter().enumerate() {
        if least <= *cost {
            equations.push(equation)?;
        }
    }
    Ok(equations)
}

/// How many of some equations cost at least so much.
pub fn count_costing(costs: &[u64], least: u64, equations: &[usize]) -> usize
    requires { All (λ e. e < length costs.now) equations.now }
    ensures { result ≡ length (costing_of costs.now least equations.now) }
{
    let mut count = 0;
    for equation in equations {
        if least <= costs[*equation] {
            count += 1;
        }
    }
    count
}

/// What the equations that are not kept cost together.
pub fn cost_of_others(costs: &[u64], kept: &[usize]) -> u64
    requires costs { (n : ℕ) × AreCosts n costs.now × (n ≤ 4096) }
    requires kept { IsStrictlyIncreasing kept.now }
    ensures { result ≡ cost_of_others costs.now kept.now }
{
    let mut total = 0;
    for (equation, cost) in costs.iter().enumerate() {
        if kept.binary_search(&equation).is_err() {
            total += *cost;
        }
    }
    total
}
