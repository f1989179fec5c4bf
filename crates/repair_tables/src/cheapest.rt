//! Cheapest repairs of small models: what is kept, what the others cost and which levels there are. The checker accepts
//! each.

ghost use Rattle.std.specs.Prelude.{◌≡◌, length, nat_le};
ghost use Rattle.std.specs.List.{list_all};
ghost use Rattle.cert_text.specs.Ranges.{AreRising};
ghost use Rattle.repair_checker.specs.Costs.{AreCosts};

use crate::made::{cancelling_pair, listed};
use cheapest_repairs::cheapest_repair;
use mixed_model::Mixed;
use netlist_reader::read;
use repair_checker::{Level, Repair, check_repair};
use residue_field::Res;
use std::alloc::Global;
use std::process::Abort;
use std::test::Fail;

// Whether each cost is one that a model may have.
fn are_small(costs: &[u64]) -> bool
    ensures { result ≡ list_all (λ cost. nat_le cost 999999999) costs.now }
{
    costs.iter().all(|cost| *cost <= 999_999_999)
}

// A repair as text: its cost, what is kept, and the cost and the rank of each level.
fn told(alloc: Global, repair: &Repair<Res>) -> Result<String, Fail> {
    let (cost, rank) = (repair.cost, repair.kept_ccf.rank());
    let mut text = format!(in alloc; "repair {cost} kept {rank}:")?;
    tell_kept(alloc, repair.kept.as_slice(), &mut text)?;
    tell_levels(alloc, repair.levels.as_slice(), &mut text)?;
    Ok(text)
}

fn tell_kept(alloc: Global, kept: &[usize], text: &mut String) -> Result<(), Fail> {
    for equation in kept {
        text.push_str(&format!(in alloc; " {equation}")?)?;
    }
    Ok(())
}

fn tell_levels(alloc: Global, levels: &[Level<Res>], text: &mut String) -> Result<(), Fail> {
    for level in levels {
        let (cost, rank) = (level.cost, level.ccf.rank());
        text.push_str(&format!(in alloc; " level {cost} {rank}")?)?;
    }
    Ok(())
}

// That the checker accepts a repair, and that it is told so.
fn stands(
    rt: &impl Abort,
    alloc: Global,
    model: &Mixed<Res>,
    costs: &[u64],
    repair: &Repair<Res>,
    wanted: &str,
) -> Result<(), Fail>
    requires costs { AreCosts (length model.now.equations) costs.now }
    requires kept { AreRising (length model.now.equations) repair.now.kept }
{
    assert_eq!(rt; told(alloc, repair)?.as_str(), wanted);
    assert_eq!(rt; check_repair(alloc, model, costs, repair), Ok(()));
    Ok(())
}

// That the cheapest repair of a model with these costs is told so.
fn tells(
    rt: &impl Abort,
    alloc: Global,
    model: &Mixed<Res>,
    costs: &[u64],
    wanted: &str,
) -> Result<(), Fail> {
    assert!(rt; costs.len() == model.equations());
    assert!(rt; costs.len() <= 16);
    assert!(rt; are_small(costs));
    let repair = cheapest_repair(alloc, model, costs)?;
    stands(rt, alloc, model, costs, &repair, wanted)?;
    Ok(())
}

#[test]
fn of_two_equal_equations_the_dearer_one_is_kept(rt: HostRuntime) -> Result<(), Fail> {
    let model = cancelling_pair(&rt, rt.alloc())?;
    tells(
        &rt,
        rt.alloc(),
        &model,
        &[3, 2],
        "repair 2 kept 1: 0 level 3 1 level 2 1",
    )?;
    tells(
        &rt,
        rt.alloc(),
        &model,
        &[2, 3],
        "repair 2 kept 1: 1 level 3 1 level 2 1",
    )?;
    tells(
        &rt,
        rt.alloc(),
        &model,
        &[7, 7],
        "repair 7 kept 1: 0 level 7 1",
    )
}

#[test]
fn independent_equations_are_all_kept(rt: HostRuntime) -> Result<(), Fail> {
    let model = listed(&rt, rt.alloc(), "eq a x=? y=?\neq b x=?\n")?;
    tells(
        &rt,
        rt.alloc(),
        &model,
        &[1, 1],
        "repair 0 kept 2: 0 1 level 1 2",
    )
}

#[test]
fn an_empty_model_has_nothing_to_repair(rt: HostRuntime) -> Result<(), Fail> {
    let model = listed(&rt, rt.alloc(), "")?;
    tells(&rt, rt.alloc(), &model, &[], "repair 0 kept 0:")
}

// Two voltage sources side by side. The law of the second one is kept at any rate, so its other equation goes.
#[test]
fn of_a_voltage_loop_the_last_cheap_equation_goes(rt: HostRuntime) -> Result<(), Fail> {
    let model = read::<Res>(rt.alloc(), b"V1 a 0\nV2 a 0\n")?;
    tells(
        &rt,
        rt.alloc(),
        &model,
        &[1, 1, 1, 1, 5],
        "repair 1 kept 4: 0 1 2 4 level 5 1 level 1 4",
    )
}
