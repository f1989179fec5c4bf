//! The levels of a repair: the costs that equations have, each with a form of the equations that cost at least as much.

ghost use Rattle.std.specs.Prelude.{◌≡◌, length, IfOk};
ghost use Rattle.std.specs.List.{All};
ghost use Rattle.mixed_model.specs.Models.{mixed_matrix_of};
ghost use Rattle.cert_checker.specs.Answers.{IsRightFor};
ghost use Rattle.restricted_models.specs.Restrictions.{restricted};
ghost use Rattle.repair_checker.specs.Costs.{AreLevels, all_costing};
ghost use Rattle.repair_checker.specs.Rules.{level_costs};

use crate::costs::{equations_costing, falling_costs};
use crate::forms::form_of;
use mixed_model::Mixed;
use out_of_memory::NoMemory;
use repair_checker::Level;
use residue_field::Field;
use std::alloc::Global;

/// The costs that equations have, each once and falling, and for each a canonical form of the model with the equations alone
/// that cost at least as much. There is one cost for each equation.
pub fn levels_of<F: Field>(
    alloc: Global,
    model: &Mixed<F>,
    costs: &[u64],
) -> Result<Vec<Level<F>>, NoMemory>
    requires { length costs.now ≡ length model.now.equations }
    ensures levels { IfOk result (λ levels. AreLevels costs.now (level_costs levels.items)) }
    ensures forms { IfOk result (λ levels. All (λ level.
        IsRightFor F.modulus (mixed_matrix_of (restricted model.now (all_costing costs.now level.cost))) level.ccf)
        levels.items) }
{
    let falling = falling_costs(alloc, costs)?;
    let mut levels = Vec::new(alloc);
    for cost in &falling {
        levels.push(level_of(alloc, model, costs, *cost)?)?;
    }
    Ok(levels)
}

// The level of a cost, with a canonical form of the model with the equations alone that cost at least as much.
fn level_of<F: Field>(
    alloc: Global,
    model: &Mixed<F>,
    costs: &[u64],
    cost: u64,
) -> Result<Level<F>, NoMemory>
    requires { length costs.now ≡ length model.now.equations }
    ensures cost { IfOk result (λ level. level.cost ≡ cost) }
    ensures form { IfOk result (λ level.
        IsRightFor F.modulus (mixed_matrix_of (restricted model.now (all_costing costs.now cost))) level.ccf) }
{
    let equations = equations_costing(alloc, costs, cost)?;
    let ccf = form_of(alloc, model, &equations)?;
    Ok(Level { cost, ccf })
}
