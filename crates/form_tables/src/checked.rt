//! Forms of the model without equations and unknowns.

ghost use Rattle.std.specs.Prelude.{◌≡◌, ◌≤◌, []};
ghost use Rattle.limits.specs.Limits.{column_limit, equation_limit};

use cert_checker::{CheckError, check};
use cert_text::{Ccf, CcfPart, Items, Shape};
use mixed_model::Mixed;
use residue_field::Res;
use std::alloc::Global;
use std::test::Fail;

fn no_items<T: Drop>(alloc: Global) -> Items<T>
    ensures { result ≡ [] }
{
    Items::from_vec(Vec::new(alloc))
}

fn empty_part(alloc: Global) -> CcfPart
    ensures { result ≡ record { columns = []; q_rows = []; t_rows = [] } }
{
    CcfPart {
        columns: no_items(alloc),
        q_rows: no_items(alloc),
        t_rows: no_items(alloc),
    }
}

// A form with no row and no column, which says so many equations and such a rank.
fn form_of(alloc: Global, equations: usize, rank: usize) -> Ccf<Res>
    requires equations { equations ≤ equation_limit }
    requires rank { rank ≤ column_limit }
{
    let shape = Shape {
        equations,
        unknowns: 0,
        q_rows: 0,
        t_rows: 0,
        columns: 0,
    };
    Ccf::new(
        shape,
        rank,
        no_items(alloc),
        no_items(alloc),
        no_items(alloc),
        no_items(alloc),
        no_items(alloc),
        no_items(alloc),
        empty_part(alloc),
        no_items(alloc),
        empty_part(alloc),
    )
}

#[test]
fn the_first_broken_rule_is_told(rt: HostRuntime) -> Result<(), Fail> {
    let alloc = rt.alloc();
    let model = Mixed::<Res>::new(alloc)?;
    for (equations, rank, want) in [
        (0, 0, Ok(())),
        (1, 0, Err(CheckError::Reject { rule: 2 })),
        (0, 1, Err(CheckError::Reject { rule: 7 })),
        (1, 1, Err(CheckError::Reject { rule: 2 })),
    ] {
        assert!(rt; equations <= 1 && rank <= 1);
        let form = form_of(alloc, equations, rank);
        assert_eq!(rt; check(alloc, &model, &form), want, "{equations} {rank}");
    }
    Ok(())
}
