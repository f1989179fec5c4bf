//! Marks of the equations from which rows come.

ghost use Rattle.std.specs.Prelude.{◌≡◌, ◌<◌, ℕ, IfOk, false, length, slice_index, true};
ghost use Rattle.std.specs.List.{All};
ghost use Rattle.dense_q.specs.Tables.{height};
ghost use Rattle.part_rules.specs.Listed.{marked};
ghost use Rattle.solve_plan.specs.Marks.{AreMarksOf, IsItem, Marks, OfSome};

use mixed_model::Layered;
use out_of_memory::NoMemory;
use residue_field::Field;
use std::alloc::Global;

/// Of n equations those with symbols are marked: a T row comes from each.
pub fn with_symbols<F: Field>(
    alloc: Global,
    layered: &Layered<F>,
    n: usize,
) -> Result<Vec<bool>, NoMemory>
    requires { All (λ equation. equation < n) layered.now.t_origins }
    ensures { IfOk result (λ marks. AreMarksOf n (IsItem layered.now.t_origins) marks.items) }
{
    // each row has its origin
    layered.are_layers();
    let mut marks = vec![in alloc; false; n]?;
    for row in 0..layered.t.rows() {
        marks[layered.t_origin(row)] = true;
    }
    Ok(marks)
}

/// Marks the equations of these T rows.
pub fn mark_symbols<F: Field>(marks: &mut [bool], layered: &Layered<F>, rows: &[usize])
    requires origins { All (λ equation. equation < length marks.old) layered.now.t_origins }
    requires rows { All (λ row. row < length layered.now.t.rows) rows.now }
    ensures { Marks (OfSome (length rows.now)
        (λ k x. slice_index layered.now.t_origins (slice_index rows.now k) ≡ x)) marks.old marks.new }
{
    // each row has its origin
    layered.are_layers();
    for row in rows {
        marks[layered.t_origin(*row)] = true;
    }
}

/// Marks the equations of the Q rows that are used, but those with symbols.
pub fn mark_constants<F: Field>(
    marks: &mut [bool],
    layered: &Layered<F>,
    used: &[bool],
    symbols: &[bool],
)
    requires origins { All (λ equation. equation < length marks.old) layered.now.q_origins }
    requires used { length used.now ≡ height layered.now.q }
    requires symbols { length symbols.now ≡ length marks.old }
    ensures { Marks (OfSome (length used.now) (λ e x. (slice_index layered.now.q_origins e ≡ x)
        × (marked used.now e ≡ true) × (marked symbols.now x ≡ false))) marks.old marks.new }
{
    // each row has its origin
    layered.are_layers();
    for row in 0..used.len() {
        let equation = layered.q_origin(row);
        if used[row] && !symbols[equation] {
            marks[equation] = true;
        }
    }
}
