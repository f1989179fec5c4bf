//! A repair is tried by its rules, whoever made it.

ghost use Rattle.std.specs.Prelude.{◌≤◌, ◌↔◌, IfErr, IfOk, IsTrue, length, slice_index};
ghost use Rattle.residue_theory.specs.Sets.{has};
ghost use Rattle.mixed_model.specs.Models.{mixed_matrix_of};
ghost use Rattle.cert_text.specs.Ranges.{AreRising};
ghost use Rattle.equation_matroid_laws.specs.GreedyChoices.{IsCheapestRepair, outside};
ghost use Rattle.repair_checker.specs.Costs.{AreCosts};
ghost use Rattle.repair_checker.specs.Rules.{IsWhyNoRepair, KeepsRepairRules, ReachesLevels, ShowsLevel, ShowsRank};

use crate::costs::{are_levels, cost_of_others, count_costing, equations_costing};
use crate::repair::{Level, Repair};
use cert_checker::{CheckError, check};
use cert_text::Ccf;
use mixed_model::Mixed;
use out_of_memory::NoMemory;
use residue_field::Field;
use restricted_models::restrict;
use std::alloc::Global;

/// Checks a repair of a model whose equations have these costs, whoever made it: it keeps the rules 13 to 16, so that what
/// it does not keep is a repair and none costs less, or `Reject` tells which rule is the first that it breaks. (Murota,
/// chapters 2 and 4.)
pub fn check_repair<F: Field>(
    alloc: Global,
    model: &Mixed<F>,
    costs: &[u64],
    repair: &Repair<F>,
) -> Result<(), CheckError>
    requires costs { AreCosts (length model.now.equations) costs.now }
    requires kept { AreRising (length model.now.equations) repair.now.kept }
    ensures keeps { IfOk result (λ kept. KeepsRepairRules F.modulus model.now costs.now repair.now) }
    ensures cheapest { IfOk result (λ kept. IsCheapestRepair F.modulus (mixed_matrix_of model.now)
        (slice_index costs.now) (outside (has repair.now.kept))) }
    ensures rejected { IfErr result (IsWhyNoRepair F.modulus model.now costs.now repair.now) }
{
    model.is_model();
    try_rules(alloc, model, costs, repair)
}

// Tries the rules one after another.
fn try_rules<F: Field>(
    alloc: Global,
    model: &Mixed<F>,
    costs: &[u64],
    repair: &Repair<F>,
) -> Result<(), CheckError>
    requires costs { AreCosts (length model.now.equations) costs.now }
    requires few { length model.now.equations ≤ 4096 }
    requires kept { AreRising (length model.now.equations) repair.now.kept }
    ensures keeps { IfOk result (λ kept. KeepsRepairRules F.modulus model.now costs.now repair.now) }
    ensures rejected { IfErr result (IsWhyNoRepair F.modulus model.now costs.now repair.now) }
{
    let kept = repair.kept.as_slice();
    if !are_levels(costs, repair.levels.as_slice()) {
        return Err(CheckError::Reject { rule: 13 });
    }
    if !shows_rank(alloc, model, kept, &repair.kept_ccf, kept.len())? {
        return Err(CheckError::Reject { rule: 14 });
    }
    if !show_levels(alloc, model, costs, repair)? {
        return Err(CheckError::Reject { rule: 15 });
    }
    if repair.cost != cost_of_others(costs, kept) {
        return Err(CheckError::Reject { rule: 16 });
    }
    Ok(())
}

// Whether the form of each level shows that as many are kept as may be.
fn show_levels<F: Field>(
    alloc: Global,
    model: &Mixed<F>,
    costs: &[u64],
    repair: &Repair<F>,
) -> Result<bool, NoMemory>
    requires costs { AreCosts (length model.now.equations) costs.now }
    requires kept { AreRising (length model.now.equations) repair.now.kept }
    ensures { IfOk result (λ shown. IsTrue shown ↔ ReachesLevels F.modulus model.now costs.now repair.now) }
{
    for level in repair.levels.as_slice() {
        if !shows_level(alloc, model, costs, repair.kept.as_slice(), level)? {
            return Ok(false);
        }
    }
    Ok(true)
}

// Whether the form of a level shows that as many are kept as may be.
fn shows_level<F: Field>(
    alloc: Global,
    model: &Mixed<F>,
    costs: &[u64],
    kept: &[usize],
    level: &Level<F>,
) -> Result<bool, NoMemory>
    requires costs { AreCosts (length model.now.equations) costs.now }
    requires kept { AreRising (length model.now.equations) kept.now }
    ensures { IfOk result (λ shown. IsTrue shown ↔ ShowsLevel F.modulus model.now costs.now kept.now level.now) }
{
    let equations = equations_costing(alloc, costs, level.cost)?;
    let rank = count_costing(costs, level.cost, kept);
    shows_rank(alloc, model, &equations, &level.ccf, rank)
}

// Whether a form is a right one of the model with these equations alone, and shows that their rank is this.
fn shows_rank<F: Field>(
    alloc: Global,
    model: &Mixed<F>,
    equations: &[usize],
    ccf: &Ccf<F>,
    rank: usize,
) -> Result<bool, NoMemory>
    requires { AreRising (length model.now.equations) equations.now }
    ensures { IfOk result (λ shown. IsTrue shown ↔ ShowsRank F.modulus model.now equations.now ccf.now rank) }
{
    ccf.is_in_form();
    let part = restrict(model, equations)?;
    match check(alloc, &part, ccf) {
        Ok(()) => Ok(ccf.rank() == rank),
        Err(CheckError::Reject { .. }) => Ok(false),
        Err(CheckError::NoMemory) => Err(NoMemory),
    }
}
