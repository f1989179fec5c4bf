//! Repairs of two equal equations, of which the first costs 3 and the second 2, as the checker tells them.

ghost use Rattle.std.specs.Prelude.{◌≡◌, ◌∷◌, []};

use crate::made::{Case, cancelling_pair, repair_of};
use mixed_model::Mixed;
use repair_checker::{CheckError, Repair, check_repair};
use residue_field::Res;
use std::alloc::Global;
use std::process::Abort;
use std::test::Fail;

// The cheapest repair.
const CHEAPEST: Case = Case {
    kept: 0,
    own_form: true,
    both_levels: true,
    cost: 2,
};

// What the checker tells of a repair that keeps one equation.
fn told(
    rt: &impl Abort,
    alloc: Global,
    model: &Mixed<Res>,
    repair: &Repair<Res>,
    kept: usize,
) -> Result<(), CheckError>
    requires { repair.now.kept ≡ kept ∷ [] }
{
    assert!(rt; model.equations() == 2);
    assert!(rt; kept < 2);
    check_repair(alloc, model, &[3, 2], repair)
}

// That the checker tells this of a case.
fn tells(
    rt: &impl Abort,
    alloc: Global,
    model: &Mixed<Res>,
    case: Case,
    verdict: Result<(), CheckError>,
) -> Result<(), Fail> {
    let repair = repair_of(rt, alloc, model, case)?;
    assert_eq!(rt; told(rt, alloc, model, &repair, case.kept), verdict);
    Ok(())
}

// A rule is the first that is broken.
fn breaks(
    rt: &impl Abort,
    alloc: Global,
    model: &Mixed<Res>,
    case: Case,
    rule: u32,
) -> Result<(), Fail> {
    tells(rt, alloc, model, case, Err(CheckError::Reject { rule }))
}

fn each_case(rt: &impl Abort, alloc: Global, model: &Mixed<Res>) -> Result<(), Fail> {
    tells(rt, alloc, model, CHEAPEST, Ok(()))?;
    // a level is left out
    breaks(
        rt,
        alloc,
        model,
        Case {
            both_levels: false,
            ..CHEAPEST
        },
        13,
    )?;
    // the form is that of the whole model
    breaks(
        rt,
        alloc,
        model,
        Case {
            own_form: false,
            ..CHEAPEST
        },
        14,
    )?;
    // the other equation is kept, with a right form of it
    breaks(
        rt,
        alloc,
        model,
        Case {
            kept: 1,
            ..CHEAPEST
        },
        15,
    )?;
    // the cost is that of the kept one
    breaks(
        rt,
        alloc,
        model,
        Case {
            cost: 3,
            ..CHEAPEST
        },
        16,
    )
}

#[test]
fn each_rule_is_told(rt: HostRuntime) -> Result<(), Fail> {
    let model = cancelling_pair(&rt, rt.alloc())?;
    each_case(&rt, rt.alloc(), &model)
}
