//! The rows of each equation in a layered matrix.

ghost use Rattle.std.specs.Prelude.{◌≡◌, ℕ, ◌+◌, ◌<◌, ◌≤◌, None, Some, length, IfOk, IfSome};
ghost use Rattle.limits.specs.Limits.{column_limit};
ghost use Rattle.equation_choice.specs.Choosers.{AreRowsIn, first_place};
ghost use Rattle.equation_choice.specs.Places.{HasPutPlace, FindsPlaces, FindsSplits, place_at};

use mixed_model::{Layered, Origin};
use out_of_memory::NoMemory;
use residue_field::Field;
use std::alloc::Global;

// The Q row, the T row and the auxiliary column of an equation, as far as it has them.
#[derive(Clone, Copy, Drop)]
pub struct EquationRows {
    pub q: Option<usize>,
    pub t: Option<usize>,
    pub auxiliary: Option<usize>,
}

impl EquationRows {
    /// The Q row where there is one, else the T row, which stands below the `rows` Q rows.
    pub fn first(self, rows: usize) -> Option<usize>
        requires rows { rows ≤ column_limit }
        requires t { IfSome self.t (λ d. d < column_limit) }
        ensures { result ≡ first_place rows self.q self.t }
    {
        match (self.q, self.t) {
            (Some(row), _) => Some(row),
            (None, Some(row)) => Some(rows + row),
            (None, None) => None,
        }
    }
}

// For each equation its Q row, its T row and its auxiliary column, as far as it has them.
#[derive(Drop)]
pub struct EquationPlaces {
    q: Vec<Option<usize>>,
    t: Vec<Option<usize>>,
    auxiliary: Vec<Option<usize>>,
}

impl EquationPlaces {
    /// Those of n equations.
    pub fn open<F: Field>(
        alloc: Global,
        layered: &Layered<F>,
        n: usize,
    ) -> Result<EquationPlaces, NoMemory>
        ensures q { IfOk result (λ places. FindsPlaces n layered.now.q_origins places.q.items) }
        ensures t { IfOk result (λ places. FindsPlaces n layered.now.t_origins places.t.items) }
        ensures auxiliary { IfOk result (λ places. FindsSplits n layered.now.column_origins places.auxiliary.items) }
    {
        Ok(EquationPlaces {
            q: q_places(alloc, layered, n)?,
            t: t_places(alloc, layered, n)?,
            auxiliary: split_columns(alloc, layered, n)?,
        })
    }

    /// Those of an equation.
    pub fn of<F: Field>(&self, layered: &Layered<F>, equation: usize) -> EquationRows
        requires q { FindsPlaces (length self.now.q.items) layered.now.q_origins self.now.q.items }
        requires t { FindsPlaces (length self.now.q.items) layered.now.t_origins self.now.t.items }
        requires auxiliary { FindsSplits (length self.now.q.items) layered.now.column_origins self.now.auxiliary.items }
        requires equation { equation < length self.now.q.items }
        ensures { AreRowsIn layered.now equation result.q result.t result.auxiliary }
    {
        EquationRows {
            q: self.q[equation],
            t: self.t[equation],
            auxiliary: self.auxiliary[equation],
        }
    }
}

fn q_places<F: Field>(
    alloc: Global,
    layered: &Layered<F>,
    n: usize,
) -> Result<Vec<Option<usize>>, NoMemory>
    ensures { IfOk result (λ places. FindsPlaces n layered.now.q_origins places.items) }
{
    // each row has its origin
    layered.are_layers();
    let mut places = no_places(alloc, n)?;
    for row in 0..layered.q_rows() {
        put(&mut places, layered.q_origin(row), row);
    }
    Ok(places)
}

fn t_places<F: Field>(
    alloc: Global,
    layered: &Layered<F>,
    n: usize,
) -> Result<Vec<Option<usize>>, NoMemory>
    ensures { IfOk result (λ places. FindsPlaces n layered.now.t_origins places.items) }
{
    // each row has its origin
    layered.are_layers();
    let mut places = no_places(alloc, n)?;
    for row in 0..layered.t_rows() {
        put(&mut places, layered.t_origin(row), row);
    }
    Ok(places)
}

fn split_columns<F: Field>(
    alloc: Global,
    layered: &Layered<F>,
    n: usize,
) -> Result<Vec<Option<usize>>, NoMemory>
    ensures { IfOk result (λ columns. FindsSplits n layered.now.column_origins columns.items) }
{
    // each column has its origin
    layered.are_layers();
    let mut columns = no_places(alloc, n)?;
    for col in 0..layered.columns() {
        match layered.column_origin(col) {
            Origin::Split(equation) => put(&mut columns, equation, col),
            Origin::Unknown(_) => (),
        }
    }
    Ok(columns)
}

/// A table that has no place for n numbers.
pub fn no_places(alloc: Global, n: usize) -> Result<Vec<Option<usize>>, NoMemory>
    ensures count { IfOk result (λ places. length places.items ≡ n) }
    ensures none { IfOk result (λ places. (x : ℕ) → place_at places.items x ≡ None) }
{
    Ok(vec![in alloc; None; n]?)
}

// Puts a place at a number, where the table has one for it.
fn put(places: &mut Vec<Option<usize>>, number: usize, place: usize)
    ensures { HasPutPlace number place places.old.items places.new.items }
{
    if number < places.len() {
        places[number] = Some(place);
    }
}
