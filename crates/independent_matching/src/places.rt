//! Where the rows and the auxiliary columns of an equation stand, before an edit of it and after it.

ghost use Rattle.std.specs.Prelude.{◌≡◌, ℕ, ◌+◌, ◌*◌, ◌≤◌, ◌&&◌, Bool, cond, eqb, ltb, Some, None, length, slice_index};
ghost use Rattle.limits.specs.Limits.{column_limit};
ghost use Rattle.residue_theory.specs.Sums.{size_on};
ghost use Rattle.mixed_matrices.specs.LayeredMatrices.{LayeredMatrix};
ghost use Rattle.mixed_matrices.specs.Layerings.{AreMembers};
ghost use Rattle.mixed_model.specs.Layers.{layered_matrix_of};
ghost use Rattle.independent_matching.specs.Changes.{IsEdit, IsEditOfSizes, HasLayerSizes};
ghost use Rattle.independent_matching.specs.Changes.{told_equation, equations_before, is_there};
ghost use Rattle.independent_matching.specs.Edits.{IsChain};

use crate::change::Change;
use mixed_model::Layered;
use residue_field::Field;

// The Q row, the T row and the auxiliary column of an equation: the place of each that it has.
#[derive(Clone, Copy, Drop)]
pub struct EquationPlaces {
    pub q: Option<usize>,
    pub t: Option<usize>,
    pub column: Option<usize>,
}

impl EquationPlaces {
    // Those of an equation that has a Q row or a T row, and an auxiliary column where it has both.
    fn of(has_q: bool, has_t: bool, q: usize, t: usize, column: usize) -> Self
        ensures { result ≡ record {
          q = cond has_q (Some q) None;
          t = cond has_t (Some t) None;
          column = cond (has_q && has_t) (Some column) None;
        } }
    {
        EquationPlaces {
            q: place_if(has_q, q),
            t: place_if(has_t, t),
            column: place_if(has_q && has_t, column),
        }
    }
}

fn place_if(there: bool, place: usize) -> Option<usize>
    ensures { result ≡ cond there (Some place) None }
{
    if there { Some(place) } else { None }
}

// What an edit takes out of a layered matrix, the numbers of unknowns before and after it, and what it puts in.
#[derive(Clone, Copy, Drop)]
pub struct Places {
    pub out: EquationPlaces,
    pub unknowns: usize,
    pub unknowns_after: usize,
    pub put: EquationPlaces,
}

impl Places {
    /// Those of an edit that makes `new` of a layered matrix with so many Q rows, T rows and columns.
    pub fn of<F: Field>(
        new: &Layered<F>,
        change: Change,
        q_rows: usize,
        t_rows: usize,
        columns: usize,
    ) -> Places
        requires edit { IsEditOfSizes change q_rows t_rows columns new.now }
        requires q_rows { q_rows ≤ column_limit }
        requires t_rows { t_rows ≤ column_limit }
        requires columns { columns ≤ column_limit }
        ensures { (L : LayeredMatrix) → HasLayerSizes q_rows t_rows columns L → IsEdit change L new.now →
            IsChain F.modulus L (layered_matrix_of new.now) result }
    {
        new.are_layers();
        new.q.is_matrix();
        new.t.is_pattern();
        let split = new.split();
        let equations = new.q_rows() + new.t_rows() - split;
        let equation = equation_after(change, equations);
        let before = count_before(change, equations);
        let (q, t) = (q_rows_below(new, equation), t_rows_below(new, equation));
        let has_q = has_q_row(new, change, q, equation);
        let has_t = has_t_row(new, change, t, equation);
        let had_q = is_one_more(q_rows, has_q, new.q_rows());
        let had_t = is_one_more(t_rows, has_t, new.t_rows());
        let unknowns = columns + before - (q_rows + t_rows);
        let unknowns_after = new.columns() - split;
        let column = q + t - equation;
        Places {
            out: EquationPlaces::of(had_q, had_t, q, t, unknowns + column),
            unknowns,
            unknowns_after,
            put: EquationPlaces::of(has_q, has_t, q, t, unknowns_after + column),
        }
    }
}

// The number of the equation, where there are so many after the change.
fn equation_after(change: Change, equations: usize) -> usize
    ensures { result ≡ told_equation change equations }
{
    match change {
        Change::Added => equations.saturating_sub(1),
        Change::Removed(equation) | Change::Changed(equation) => equation,
    }
}

// How many equations there were, where there are so many after the change.
fn count_before(change: Change, equations: usize) -> usize
    requires { equations ≤ 2 * column_limit }
    ensures { result ≡ equations_before change equations }
{
    match change {
        Change::Added => equations.saturating_sub(1),
        Change::Removed(_) => equations + 1,
        Change::Changed(_) => equations,
    }
}

// Whether the equation is there after the change.
fn stays(change: Change) -> bool
    ensures { result ≡ is_there change }
{
    match change {
        Change::Added | Change::Changed(_) => true,
        Change::Removed(_) => false,
    }
}

// Whether the equation has a Q row after the change, which then stands there.
fn has_q_row<F: Field>(new: &Layered<F>, change: Change, row: usize, equation: usize) -> bool
    ensures { result ≡ (is_there change && (ltb row (length new.now.q_origins)
        && eqb (slice_index new.now.q_origins row) equation)) }
{
    new.are_layers();
    stays(change) && row < new.q_rows() && new.q_origin(row) == equation
}

// Whether the equation has a T row after the change, which then stands there.
fn has_t_row<F: Field>(new: &Layered<F>, change: Change, row: usize, equation: usize) -> bool
    ensures { result ≡ (is_there change && (ltb row (length new.now.t_origins)
        && eqb (slice_index new.now.t_origins row) equation)) }
{
    new.are_layers();
    stays(change) && row < new.t_rows() && new.t_origin(row) == equation
}

// Whether there was a row more, beside one that is there now.
fn is_one_more(before: usize, has: bool, after: usize) -> bool
    requires { before ≤ column_limit }
    ensures { result ≡ ltb after (before + cond has 1 0) }
{
    if has {
        after < before + 1
    } else {
        after < before
    }
}

// How many Q rows come from equations before this one.
fn q_rows_below<F: Field>(new: &Layered<F>, equation: usize) -> usize
    ensures size { (A : ℕ → Bool) (n : ℕ) → AreMembers A n (slice_index new.now.q_origins)
        (length new.now.q_origins) → equation ≤ n → size_on A equation ≡ result }
    ensures within { result ≤ length new.now.q_origins }
{
    new.are_layers();
    let mut row = 0;
    while row < new.q_rows() && new.q_origin(row) < equation {
        row += 1;
    }
    row
}

// How many T rows come from equations before this one.
fn t_rows_below<F: Field>(new: &Layered<F>, equation: usize) -> usize
    ensures size { (A : ℕ → Bool) (n : ℕ) → AreMembers A n (slice_index new.now.t_origins)
        (length new.now.t_origins) → equation ≤ n → size_on A equation ≡ result }
    ensures within { result ≤ length new.now.t_origins }
{
    new.are_layers();
    let mut row = 0;
    while row < new.t_rows() && new.t_origin(row) < equation {
        row += 1;
    }
    row
}
