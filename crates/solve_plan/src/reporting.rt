//! The report on a model.

ghost use Rattle.std.specs.Prelude.{◌≡◌, ◌≤◌, ℕ, IfOk, true};
ghost use Rattle.residue_theory.specs.Sets.{has};
ghost use Rattle.solve_plan.specs.Marks.{AreMarksOf, AreMembersOf};
ghost use Rattle.solve_plan.specs.Reports.{IsRightFormOf, ReportsEach};
ghost use Rattle.solve_plan.specs.Surplus.{FitsForm, IsToldSurplus, IsUsedLast};

use crate::equations::{mark_constants, mark_symbols, with_symbols};
use crate::marking::{listed, mark_numbers, mark_rows};
use crate::told::Report;
use cert_text::{Ccf, Items};
use mixed_model::Layered;
use out_of_memory::NoMemory;
use residue_field::Field;
use std::alloc::Global;

// The unknowns whose columns are in the first tail.
fn undetermined<F: Field>(alloc: Global, form: &Ccf<F>) -> Result<Vec<usize>, NoMemory>
    requires { form.now.shape.unknowns ≤ form.now.shape.columns }
    ensures { IfOk result (λ list.
        AreMembersOf form.now.shape.unknowns (λ j. has form.now.first.columns j ≡ true) list.items) }
{
    let mut marks = vec![in alloc; false; form.shape().columns]?;
    mark_numbers(&mut marks, form.first().columns.as_slice());
    listed(alloc, &marks, form.shape().unknowns)
}

// The Q rows with which some row of the last tail is made are marked.
fn used_last<F: Field>(alloc: Global, form: &Ccf<F>) -> Result<Vec<bool>, NoMemory>
    ensures { IfOk result (λ marks. AreMarksOf form.now.shape.q_rows (IsUsedLast form.now) marks.items) }
{
    let mut marks = vec![in alloc; false; form.shape().q_rows]?;
    let tail = form.last().q_rows.as_slice();
    mark_rows(&mut marks, form.s().as_slice(), tail);
    Ok(marks)
}

// The equations of the T rows of the last tail, and those without symbols of the Q rows with which it is made.
fn surplus<F: Field>(
    alloc: Global,
    layered: &Layered<F>,
    form: &Ccf<F>,
) -> Result<Vec<usize>, NoMemory>
    requires { FitsForm layered.now form.now }
    ensures { IfOk result (λ list.
        AreMembersOf form.now.shape.equations (IsToldSurplus layered.now form.now) list.items) }
{
    let equations = form.shape().equations;
    let symbols = with_symbols(alloc, layered, equations)?;
    let used = used_last(alloc, form)?;
    let mut marks = vec![in alloc; false; equations]?;
    mark_symbols(&mut marks, layered, form.last().t_rows.as_slice());
    mark_constants(&mut marks, layered, &used, &symbols);
    listed(alloc, &marks, equations)
}

/// The report on a model, told by its layered matrix and a canonical form that is right for it: an unknown is
/// undetermined where its column is in the first tail; an equation with symbols is surplus where its T row is in the last
/// tail, and one without symbols where a row of the last tail is made with its Q row. The premise is met by the clauses `shape`
/// to `canonical_listing` of `ccf_builder::build`, with that of `mixed_layering::layer` and that of `Mixed::is_model`. (Murota,
/// chapters 2 and 4.)
pub fn report<F: Field>(
    alloc: Global,
    layered: &Layered<F>,
    form: &Ccf<F>,
) -> Result<Report, NoMemory>
    requires { IsRightFormOf F.modulus layered.now form.now }
    ensures { IfOk result (λ told. ReportsEach F.modulus layered.now form.now told) }
{
    // each row has its origin
    layered.are_layers();
    let shape = form.shape();
    let surplus = surplus(alloc, layered, form)?;
    let undetermined = undetermined(alloc, form)?;
    Ok(Report {
        equations: shape.equations,
        unknowns: shape.unknowns,
        rank: form.rank(),
        surplus: Items::from_vec(surplus),
        undetermined: Items::from_vec(undetermined),
    })
}
