//! The plan of a model.

ghost use Rattle.std.specs.Prelude.{◌≡◌, ◌<◌, ℕ, IfOk, OnOk, true, false, replicate};
ghost use Rattle.residue_theory.specs.Sets.{has};
ghost use Rattle.cert_text.specs.Ranges.{IsPart};
ghost use Rattle.solve_plan.specs.Marks.{AreMembersOf};
ghost use Rattle.solve_plan.specs.PlanSteps.{AddsSteps, HasEntryAt, IsStepOf, block_steps, is_bare, tail_steps};
ghost use Rattle.solve_plan.specs.Plans.{PlansEach};
ghost use Rattle.solve_plan.specs.Reports.{IsRightFormOf};
ghost use Rattle.solve_plan.specs.Surplus.{FitsForm};

use crate::marking::{listed, mark_lists, mark_rows, unmark_numbers};
use crate::step_rows::{put_combined, put_symbols};
use crate::steps::{Plan, Step, StepPart};
use cert_text::{Ccf, CcfPart, Items};
use mixed_model::Layered;
use out_of_memory::NoMemory;
use residue_field::Field;
use std::alloc::Global;

// The columns at which rows of a part have entries, but its own. No mark is set before, and none after.
fn uses<F: Field>(
    alloc: Global,
    marks: &mut [bool],
    form: &Ccf<F>,
    part: &CcfPart,
) -> Result<Vec<usize>, NoMemory>
    requires clear { marks.old ≡ replicate form.now.shape.columns false }
    requires part { IsPart form.now.shape part.now }
    ensures list { IfOk result (λ list. AreMembersOf form.now.shape.columns
        (λ x. (has part.now.columns x ≡ false) × HasEntryAt form.now part.now x) list.items) }
    ensures clear { IfOk result (λ _. marks.new ≡ marks.old) }
{
    mark_rows(marks, form.p().as_slice(), part.q_rows.as_slice());
    mark_lists(marks, form.t().as_slice(), part.t_rows.as_slice());
    unmark_numbers(marks, part.columns.as_slice());
    let list = listed(alloc, marks, form.shape().columns)?;
    unmark_numbers(marks, &list);
    Ok(list)
}

// The step of a part.
fn step<F: Field>(
    alloc: Global,
    marks: &mut [bool],
    layered: &Layered<F>,
    form: &Ccf<F>,
    name: StepPart,
    part: &CcfPart,
) -> Result<Step<F>, NoMemory>
    requires clear { marks.old ≡ replicate form.now.shape.columns false }
    requires fits { FitsForm layered.now form.now }
    requires part { IsPart form.now.shape part.now }
    ensures step { IfOk result (λ step. IsStepOf F.number layered.now form.now (name, part.now) step) }
    ensures clear { IfOk result (λ _. marks.new ≡ marks.old) }
{
    let columns = Vec::from_slice(alloc, part.columns.as_slice())?;
    let mut rows = Vec::new(alloc);
    put_combined(&mut rows, alloc, layered, form, part.q_rows.as_slice())?;
    put_symbols(&mut rows, layered, part.t_rows.as_slice())?;
    let uses = uses(alloc, marks, form, part)?;
    Ok(Step {
        part: name,
        columns: Items::from_vec(columns),
        rows: Items::from_vec(rows),
        uses: Items::from_vec(uses),
    })
}

// Whether a part has no column and no row.
fn is_bare(part: &CcfPart) -> bool
    ensures { result ≡ is_bare part.now }
{
    part.columns.as_slice().is_empty()
        && part.q_rows.as_slice().is_empty()
        && part.t_rows.as_slice().is_empty()
}

// Puts the step of a tail, unless it is bare.
fn put_tail<F: Field>(
    steps: &mut Vec<Step<F>>,
    alloc: Global,
    marks: &mut [bool],
    layered: &Layered<F>,
    form: &Ccf<F>,
    name: StepPart,
    tail: &CcfPart,
) -> Result<(), NoMemory>
    requires clear { marks.old ≡ replicate form.now.shape.columns false }
    requires fits { FitsForm layered.now form.now }
    requires tail { IsPart form.now.shape tail.now }
    ensures steps { OnOk result (AddsSteps F.number layered.now form.now (tail_steps name tail.now)
        steps.old.items steps.new.items) }
    ensures clear { OnOk result (marks.new ≡ marks.old) }
{
    if !is_bare(tail) {
        steps.push(step(alloc, marks, layered, form, name, tail)?)?;
    }
    Ok(())
}

// Puts the steps of the blocks, from the last to the first.
fn put_blocks<F: Field>(
    steps: &mut Vec<Step<F>>,
    alloc: Global,
    marks: &mut [bool],
    layered: &Layered<F>,
    form: &Ccf<F>,
) -> Result<(), NoMemory>
    requires clear { marks.old ≡ replicate form.now.shape.columns false }
    requires fits { FitsForm layered.now form.now }
    ensures steps { OnOk result (AddsSteps F.number layered.now form.now (block_steps 0 form.now.blocks)
        steps.old.items steps.new.items) }
    ensures clear { OnOk result (marks.new ≡ marks.old) }
{
    let blocks = form.blocks().as_slice();
    for k in (0..blocks.len()).rev() {
        steps.push(step(
            alloc,
            marks,
            layered,
            form,
            StepPart::Block(k),
            &blocks[k].part,
        )?)?;
    }
    Ok(())
}

/// The plan to solve a model, told by its layered matrix and a canonical form that is right for it: a step for each part
/// of the form, from the last to the first, but none for a tail with no column and no row. At the rows of a step entries
/// stand only at its own columns and at those of steps before, which it uses; each column stands in one step. Where the
/// numbers of equations and of unknowns are the structural rank, each step has as many rows as columns, and their part of
/// the matrix that structural rank. The premise is met as that of `report`. (Murota, chapters 2 and 4.)
pub fn plan<F: Field>(
    alloc: Global,
    layered: &Layered<F>,
    form: &Ccf<F>,
) -> Result<Plan<F>, NoMemory>
    requires { IsRightFormOf F.modulus layered.now form.now }
    ensures { IfOk result (λ plan. PlansEach F.number F.modulus layered.now form.now plan) }
{
    // each row has its origin
    layered.are_layers();
    let mut steps = Vec::new(alloc);
    let mut room = vec![in alloc; false; form.shape().columns]?;
    let marks: &mut [bool] = &mut room;
    put_tail(
        &mut steps,
        alloc,
        marks,
        layered,
        form,
        StepPart::Last,
        form.last(),
    )?;
    put_blocks(&mut steps, alloc, marks, layered, form)?;
    put_tail(
        &mut steps,
        alloc,
        marks,
        layered,
        form,
        StepPart::First,
        form.first(),
    )?;
    Ok(Plan {
        steps: Items::from_vec(steps),
    })
}
