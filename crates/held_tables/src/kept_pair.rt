//! That an engine goes on from its pair where an equation comes and where one goes, and does not begin anew.

ghost use Rattle.std.specs.Prelude.{◌≡◌, ◌≢◌, ◌<◌, IfOk};
ghost use Rattle.mixed_edit_laws.specs.Changes.{IsAdded, IsRemoved};
ghost use Rattle.mixed_model.specs.Models.{mixed_matrix_of};

use crate::counted::Counted;
use edit_desk::Held;
use exchange_graph::Steps;
use independent_matching::Change;
use mixed_model::{Mixed, is_label};
use model_edits::set_item;
use residue_field::{Field, Res};
use row_transform::Tableau;
use sparse_tableau::SparseTableau;
use std::alloc::Global;
use std::marker::Brand;
use std::process::Abort;
use std::sync::ledger::{Blank, Ledger};
use std::test::Fail;

fn one(rt: &impl Abort) -> Res
    ensures { result ≢ 0 }
{
    let one = Res::one();
    assert!(rt; one.value() != 0);
    one
}

// Puts an equation after the others, with 1 at one unknown.
fn add(rt: &impl Abort, model: &mut Mixed<Res>, equation: &str, unknown: &str) -> Result<(), Fail> {
    assert!(rt; is_label(equation) && is_label(unknown));
    let i = model.add_equation(equation)?;
    set_item(model, i, unknown, Some(one(rt)), false)?;
    Ok(())
}

// A hundred equations, each with 1 at an unknown of its own.
fn diagonal(rt: &impl Abort, alloc: Global) -> Result<Mixed<Res>, Fail> {
    let mut model = Mixed::new(alloc)?;
    for i in 1..101 {
        let equation = format!(in alloc; "e{i}")?;
        let unknown = format!(in alloc; "x{i}")?;
        add(rt, &mut model, &equation, &unknown)?;
    }
    Ok(model)
}

fn with_equation(rt: &impl Abort, model: &Mixed<Res>) -> Result<Mixed<Res>, Fail>
    ensures { IfOk result (λ more. IsAdded (mixed_matrix_of model.now) (mixed_matrix_of more)) }
{
    assert!(rt; is_label("z") && is_label("y"));
    let mut more = model.copy()?;
    let i = more.add_equation("z")?;
    set_item(&mut more, i, "y", Some(one(rt)), false)?;
    Ok(more)
}

fn without_equation(rt: &impl Abort, model: &Mixed<Res>, i: usize) -> Result<Mixed<Res>, Fail>
    ensures { IfOk result (λ less. IsRemoved (mixed_matrix_of model.now) (mixed_matrix_of less) i) }
{
    let mut less = model.copy()?;
    assert!(rt; i < less.equations());
    less.remove_equation(i);
    Ok(less)
}

fn assert_rank<T: Tableau<Res>>(rt: &impl Abort, kept: &Held<Res, Counted<T>>, rank: usize) {
    assert_eq!(rt; kept.rank(), rank);
}

// An equation comes.
fn gain<T: Tableau<Res>, L: Ledger, M: Ledger>(
    rt: &impl Abort,
    kept: &mut Held<Res, Counted<T>>,
    searches: &mut Steps<L>,
    steps: &mut Steps<M>,
) -> Result<(), Fail> {
    let more = with_equation(rt, kept.model())?;
    kept.follow(more, Change::Added, searches, steps)?;
    Ok(())
}

// An equation goes.
fn lose<T: Tableau<Res>, L: Ledger, M: Ledger>(
    rt: &impl Abort,
    kept: &mut Held<Res, Counted<T>>,
    i: usize,
    searches: &mut Steps<L>,
    steps: &mut Steps<M>,
) -> Result<(), Fail> {
    let less = without_equation(rt, kept.model(), i)?;
    kept.follow(less, Change::Removed(i), searches, steps)?;
    Ok(())
}

// An equation comes, and another goes.
fn turn<T: Tableau<Res>, L: Ledger, M: Ledger>(
    rt: &impl Abort,
    kept: &mut Held<Res, Counted<T>>,
    searches: &mut Steps<L>,
    steps: &mut Steps<M>,
) -> Result<(), Fail> {
    gain(rt, kept, searches, steps)?;
    assert_rank(rt, kept, 101);
    lose(rt, kept, 49, searches, steps)?;
    assert_rank(rt, kept, 100);
    Ok(())
}

// How many calls of `pivot` an equation that comes and one that goes take.
fn calls<T: Tableau<Res>, L: Ledger, M: Ledger>(
    rt: &impl Abort,
    alloc: Global,
    searches: Blank,
    steps: Blank,
) -> Result<u64, Fail>
    requires searches { (searches.name ≡ L.name) × (searches.parts ≡ L.parts) × (0 < searches.parts) }
    requires steps { (steps.name ≡ M.name) × (steps.parts ≡ M.parts) × (0 < steps.parts) }
{
    let mut searches = Steps::<L>::new(searches);
    let mut steps = Steps::<M>::new(steps);
    let mut kept = Held::<Res, Counted<T>>::open(alloc, diagonal(rt, alloc)?)?;
    let before = kept.engine().tableau().calls;
    turn(rt, &mut kept, &mut searches, &mut steps)?;
    Ok(kept.engine().tableau().calls.saturating_sub(before))
}

// The same over any tableau.
fn calls_over<T: Tableau<Res>>(rt: &impl Abort, alloc: Global) -> Result<u64, Fail> {
    calls::<T, Brand, Brand>(rt, alloc, Blank::new(1), Blank::new(1))
}

#[test]
fn kept_pair(rt: HostRuntime) -> Result<(), Fail> {
    let calls = calls_over::<SparseTableau<Res>>(&rt, rt.alloc())?;
    assert!(rt; calls <= 14, "{calls}");
    Ok(())
}
