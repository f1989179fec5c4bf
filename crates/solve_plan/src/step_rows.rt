//! The rows of a step, told by the equations of a model.

ghost use Rattle.std.specs.Prelude.{◌≡◌, ◌<◌, ◌++◌, ℕ, IfOk, OnOk, length, map};
ghost use Rattle.std.specs.List.{All};
ghost use Rattle.dense_q.specs.Tables.{height};
ghost use Rattle.solve_plan.specs.PlanSteps.{combined_row, row_numbers, symbol_row, step_terms};

use crate::steps::StepRow;
use cert_text::{Ccf, Items};
use mixed_model::Layered;
use out_of_memory::NoMemory;
use residue_field::Field;
use std::alloc::Global;

// The coefficients of a row of S, and the equations of their Q rows.
fn terms<F: Field>(
    alloc: Global,
    layered: &Layered<F>,
    entries: &[(usize, F)],
) -> Result<Items<(F, usize)>, NoMemory>
    requires { All (λ entry. entry.0 < height layered.now.q) entries.now }
    ensures { IfOk result (λ terms. terms ≡ step_terms layered.now.q_origins entries.now) }
{
    // each row has its origin
    layered.are_layers();
    let mut terms = Vec::with_capacity(alloc, entries.len())?;
    for entry in entries {
        terms.push((entry.1, layered.q_origin(entry.0)))?;
    }
    Ok(Items::from_vec(terms))
}

/// Puts the rows that S combines for these Q rows.
pub fn put_combined<F: Field>(
    rows: &mut Vec<StepRow<F>>,
    alloc: Global,
    layered: &Layered<F>,
    form: &Ccf<F>,
    list: &[usize],
) -> Result<(), NoMemory>
    requires size { height layered.now.q ≡ form.now.shape.q_rows }
    requires list { All (λ row. row < form.now.shape.q_rows) list.now }
    ensures { OnOk result (map (row_numbers F.number) rows.new.items
        ≡ map (row_numbers F.number) rows.old.items ++ map (combined_row layered.now form.now) list.now) }
{
    let s = form.s().as_slice();
    for row in list {
        let terms = terms(alloc, layered, s[*row].as_slice())?;
        rows.push(StepRow::Combined(terms))?;
    }
    Ok(())
}

/// Puts the equations of these T rows.
pub fn put_symbols<F: Field>(
    rows: &mut Vec<StepRow<F>>,
    layered: &Layered<F>,
    list: &[usize],
) -> Result<(), NoMemory>
    requires { All (λ row. row < length layered.now.t.rows) list.now }
    ensures { OnOk result (map (row_numbers F.number) rows.new.items
        ≡ map (row_numbers F.number) rows.old.items ++ map (symbol_row layered.now) list.now) }
{
    for row in list {
        rows.push(StepRow::Symbols(layered.t_origin(*row)))?;
    }
    Ok(())
}
