//! The repair that the greedy choice by falling cost leaves.

ghost use Rattle.std.specs.Prelude.{◌≡◌, ◌≤◌, length, slice_index, IfOk};
ghost use Rattle.residue_theory.specs.Sets.{everything, has};
ghost use Rattle.mixed_model.specs.Models.{mixed_matrix_of};
ghost use Rattle.cert_text.specs.Ranges.{AreRising};
ghost use Rattle.equation_matroid_laws.specs.GreedyChoices.{IsGreedyChoice, by_cost};
ghost use Rattle.repair_checker.specs.Costs.{AreCosts};
ghost use Rattle.repair_checker.specs.Rules.{KeepsRepairRules};
ghost use Rattle.cheapest_repairs.specs.ShownRepairs.{IsShownRepair};

use crate::costs::cost_of_others;
use crate::forms::{are_in_form, form_of};
use crate::levels::levels_of;
use cert_text::Items;
use equation_choice::kept_by_cost;
use mixed_model::Mixed;
use out_of_memory::NoMemory;
use repair_checker::Repair;
use residue_field::Field;
use std::alloc::Global;

/// A cheapest repair of a model whose equations have these costs: its equations are tried by falling cost, those of one
/// cost by rising number, and one is kept where the structural rank of those before it rises with it. No repair costs less.
/// Its forms show that, so `repair_checker::check_repair` accepts it. (Murota, chapters 2 and 4.)
pub fn cheapest_repair<F: Field>(
    alloc: Global,
    model: &Mixed<F>,
    costs: &[u64],
) -> Result<Repair<F>, NoMemory>
    requires { AreCosts (length model.now.equations) costs.now }
    ensures { IfOk result (IsShownRepair F.modulus model.now costs.now) }
{
    model.is_model();
    let kept = kept_by_cost(alloc, model, costs)?;
    let repair = repair_keeping(alloc, model, costs, kept)?;
    repair.kept_ccf.is_in_form();
    are_in_form(repair.levels.as_slice());
    Ok(repair)
}

// The repair that keeps these equations, which are the greedy choice by falling cost.
fn repair_keeping<F: Field>(
    alloc: Global,
    model: &Mixed<F>,
    costs: &[u64],
    kept: Vec<usize>,
) -> Result<Repair<F>, NoMemory>
    requires costs { AreCosts (length model.now.equations) costs.now }
    requires few { length model.now.equations ≤ 4096 }
    requires rising { AreRising (length model.now.equations) kept.items }
    requires choice { IsGreedyChoice F.modulus (mixed_matrix_of model.now)
        (by_cost (slice_index costs.now)) everything (has kept.items) }
    ensures kept { IfOk result (λ repair. repair.kept ≡ kept.items) }
    ensures rules { IfOk result (λ repair. KeepsRepairRules F.modulus model.now costs.now repair) }
{
    let cost = cost_of_others(costs, &kept);
    let kept_ccf = form_of(alloc, model, &kept)?;
    let levels = levels_of(alloc, model, costs)?;
    Ok(Repair {
        kept: Items::from_vec(kept),
        cost,
        kept_ccf,
        levels: Items::from_vec(levels),
    })
}
