//! Two equal equations of two unknowns, and repairs of them.

ghost use Rattle.std.specs.Prelude.{◌≡◌, ◌∷◌, [], IfOk};

use ccf_builder::build;
use cert_text::{Ccf, Items};
use mixed_layering::layer;
use mixed_model::Mixed;
use repair_checker::{Level, Repair};
use residue_field::Res;
use restricted_models::restrict;
use std::alloc::Global;
use std::process::Abort;
use std::test::Fail;

/// What a repair of the two equations says, of which the first costs 3 and the second 2.
#[derive(Clone, Copy)]
pub struct Case {
    /// The equation that is kept.
    pub kept: usize,
    /// Whether the form is that of the kept equation, and not that of both.
    pub own_form: bool,
    /// Whether the level of 2 is told.
    pub both_levels: bool,
    pub cost: u64,
}

/// The equations a and b, each the sum of x and y.
pub(crate) fn cancelling_pair(rt: &impl Abort, alloc: Global) -> Result<Mixed<Res>, Fail> {
    listed(rt, alloc, "eq a x=1 y=1\neq b x=1 y=1\n")
}

/// The model of an equation list.
pub(crate) fn listed(rt: &impl Abort, alloc: Global, text: &str) -> Result<Mixed<Res>, Fail> {
    assert!(rt; text.len() < 999);
    Ok(matrix_reader::read(alloc, text.as_bytes())?)
}

// A canonical form of the model with one equation alone.
fn form_of_one(
    rt: &impl Abort,
    alloc: Global,
    model: &Mixed<Res>,
    equation: usize,
) -> Result<Ccf<Res>, Fail> {
    assert!(rt; equation < model.equations());
    form_of(alloc, &restrict(model, &[equation])?)
}

// A canonical form of a model.
fn form_of(alloc: Global, model: &Mixed<Res>) -> Result<Ccf<Res>, Fail> {
    model.is_model();
    let layered = layer(alloc, model)?;
    Ok(build(alloc, &layered)?)
}

// The form that a case tells.
fn told_form(
    rt: &impl Abort,
    alloc: Global,
    model: &Mixed<Res>,
    case: Case,
) -> Result<Ccf<Res>, Fail> {
    if case.own_form {
        form_of_one(rt, alloc, model, case.kept)
    } else {
        form_of(alloc, model)
    }
}

// One number.
fn one(alloc: Global, number: usize) -> Result<Items<usize>, Fail>
    ensures { IfOk result (λ list. list ≡ number ∷ []) }
{
    let mut numbers = Vec::new(alloc);
    numbers.push(number)?;
    Ok(Items::from_vec(numbers))
}

// The levels that a case tells.
fn told_levels(
    rt: &impl Abort,
    alloc: Global,
    model: &Mixed<Res>,
    case: Case,
) -> Result<Items<Level<Res>>, Fail> {
    let mut levels = Vec::new(alloc);
    put_level(&mut levels, 3, form_of_one(rt, alloc, model, 0)?)?;
    if case.both_levels {
        put_level(&mut levels, 2, form_of(alloc, model)?)?;
    }
    Ok(Items::from_vec(levels))
}

fn put_level(levels: &mut Vec<Level<Res>>, cost: u64, ccf: Ccf<Res>) -> Result<(), Fail> {
    levels.push(Level { cost, ccf })?;
    Ok(())
}

/// The repair that a case tells.
pub fn repair_of(
    rt: &impl Abort,
    alloc: Global,
    model: &Mixed<Res>,
    case: Case,
) -> Result<Repair<Res>, Fail>
    ensures { IfOk result (λ repair. repair.kept ≡ case.kept ∷ []) }
{
    let kept = one(alloc, case.kept)?;
    let levels = told_levels(rt, alloc, model, case)?;
    let kept_ccf = told_form(rt, alloc, model, case)?;
    Ok(Repair {
        kept,
        cost: case.cost,
        kept_ccf,
        levels,
    })
}
