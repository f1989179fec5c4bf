//! The symbols of a layered matrix.

ghost use Rattle.std.specs.Prelude.{◌≡◌, ◌<◌, ◌≤◌, ◌+◌, ℕ, length, IfOk, slice_index};
ghost use Rattle.sparse_t.specs.Incidences.{incidence_rows, touches};
ghost use Rattle.mixed_model.specs.Models.{mixed_matrix_of, symbol_of};
ghost use Rattle.mixed_layering.specs.Members.{AreEquations, AreSplit};
ghost use Rattle.mixed_layering.specs.Places.{symbol_place, AreTouched, AreRowsOfSymbols};

use crate::columns::place_of;
use mixed_model::Mixed;
use out_of_memory::NoMemory;
use residue_field::Field;
use smallvec::SmallVec;
use sparse_t::Pattern;
use std::alloc::Global;

// The columns of one row, of which most are few: these take no memory.
type Columns = SmallVec<u32, 6>;

/// The rows of symbols of these equations: a column for each unknown, then one for each split equation.
pub fn symbols_of<F: Field>(
    alloc: Global,
    model: &Mixed<F>,
    equations: &[usize],
    split: &[usize],
) -> Result<Pattern, NoMemory>
    requires equations { AreEquations (length model.now.equations) equations.now }
    requires split { AreSplit (length model.now.equations) split.now }
    ensures { IfOk result
        (AreRowsOfSymbols (mixed_matrix_of model.now) split.now equations.now (length equations.now)) }
{
    let mut t = Pattern::empty(alloc, model.unknowns() + split.len());
    for equation in equations {
        let columns = touched_by(alloc, model, *equation, split)?;
        t.push_row(&columns)?;
    }
    Ok(t)
}

// The columns that the T row of an equation touches: its symbols, and its auxiliary column.
fn touched_by<F: Field>(
    alloc: Global,
    model: &Mixed<F>,
    equation: usize,
    split: &[usize],
) -> Result<Columns, NoMemory>
    requires equation { equation < length model.now.equations }
    requires split { AreSplit (length model.now.equations) split.now }
    ensures { IfOk result (λ list. AreTouched (length model.now.unknowns + length split.now)
        (symbol_place (mixed_matrix_of model.now) split.now equation) list.items) }
{
    let mut columns = symbol_columns(alloc, model, equation)?;
    if let Some(place) = place_of(split, equation) {
        columns.push((model.unknowns() + place) as u32)?;
    }
    Ok(columns)
}

// The columns of the symbols of an equation.
fn symbol_columns<F: Field>(
    alloc: Global,
    model: &Mixed<F>,
    equation: usize,
) -> Result<Columns, NoMemory>
    requires equation { equation < length model.now.equations }
    ensures { IfOk result (λ list. AreTouched (length model.now.unknowns) (symbol_of model.now equation) list.items) }
{
    let mut columns = Columns::new(alloc);
    for entry in model.entries(equation) {
        if entry.symbol {
            columns.push(entry.column as u32)?;
        }
    }
    Ok(columns)
}
