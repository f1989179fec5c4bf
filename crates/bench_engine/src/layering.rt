//! The layered matrix of drawn equations.

ghost use Rattle.std.specs.Prelude.{◌≡◌, ◌≤◌, ◌<◌, length, IfOk};
ghost use Rattle.limits.specs.Limits.{equation_limit};
ghost use Rattle.dense_q.specs.Tables.{height};

use crate::draws::{Draws, Family, Place, equation};
use dense_q::Mat;
use independent_matching::NoMemory;
use limits::COLUMN_LIMIT;
use mixed_model::{Layered, Origin};
use residue_field::{Field, Res};
use row_entries::EntryMat;
use sparse_t::Pattern;
use std::alloc::Global;

/// The layered matrix of drawn equations: the constants of one that has symbols too stand in a row of their own, with
/// an auxiliary column.
pub(crate) fn layered(
    alloc: Global,
    draws: &mut Draws,
    family: Family,
    size: usize,
) -> Result<Layered<Res>, NoMemory>
    requires size { 1 ≤ size }
    requires few { size ≤ equation_limit }
{
    let mut equations = Vec::with_capacity(alloc, size)?;
    for _equation in 0..size {
        equations.push(equation(alloc, draws, family, size)?)?;
    }
    let with_constants = equations
        .iter()
        .filter(|places| has_constants(places))
        .count();
    let split = equations.iter().filter(|places| is_split(places)).count();
    let columns = size.saturating_add(split).min(COLUMN_LIMIT);
    let mut q = Mat::zeros(alloc, with_constants.min(COLUMN_LIMIT), columns)?;
    let mut t = Pattern::empty(alloc, columns);
    let mut row = 0_usize;
    let mut auxiliary = size;
    for places in &equations {
        let split = is_split(places);
        if has_constants(places) {
            put_constants(&mut q, row, places);
            if split {
                put(&mut q, row, auxiliary, 1);
            }
            row = row.saturating_add(1);
        }
        put_symbols(
            alloc,
            &mut t,
            places,
            if split { Some(auxiliary) } else { None },
        )?;
        if split {
            auxiliary = auxiliary.saturating_add(1);
        }
    }
    with_origins(alloc, q, t)
}

fn has_constants(places: &Vec<Place>) -> bool {
    places.iter().any(|place| place.constant.is_some())
}

fn is_split(places: &Vec<Place>) -> bool {
    has_constants(places) && places.iter().any(|place| place.constant.is_none())
}

// Sets an entry, where the matrix has that place.
fn put(q: &mut Mat<Res>, row: usize, column: usize, number: u64)
    ensures { q.new.width ≡ q.old.width }
{
    if row < q.rows() && column < q.cols() {
        q.set(row, column, Res::of(number));
    }
}

fn put_constants(q: &mut Mat<Res>, row: usize, places: &Vec<Place>)
    ensures { q.new.width ≡ q.old.width }
{
    for place in places {
        if let Some(number) = place.constant {
            put(q, row, place.column, number);
        }
    }
}

// Puts the row of an equation's symbols below the last one, with its auxiliary column, if it has symbols.
fn put_symbols(
    alloc: Global,
    t: &mut Pattern,
    places: &Vec<Place>,
    auxiliary: Option<usize>,
) -> Result<(), NoMemory>
    ensures { t.new.width ≡ t.old.width }
{
    let mut columns = Vec::with_capacity(alloc, 4)?;
    for place in places {
        if place.constant.is_none() {
            columns.push(place.column)?;
        }
    }
    if let Some(column) = auxiliary {
        columns.push(column)?;
    }
    columns.sort()?;
    push_row(t, &columns)
}

fn push_row(t: &mut Pattern, columns: &[usize]) -> Result<(), NoMemory>
    ensures { t.new.width ≡ t.old.width }
{
    if t.rows() >= COLUMN_LIMIT {
        return Ok(());
    }
    let width = t.cols().min(COLUMN_LIMIT);
    match columns {
        [a] if *a < width => t.push_row(&[*a as u32])?,
        [a, b] if a < b && *b < width => t.push_row(&[*a as u32, *b as u32])?,
        [a, b, c] if a < b && b < c && *c < width => t.push_row(&[
            *a as u32, *b as u32, *c as u32,
        ])?,
        _ => {}
    }
    Ok(())
}

// Every row is said to come from the first equation, and every column from the first unknown: the engine asks for
// neither.
fn with_origins(alloc: Global, q: Mat<Res>, t: Pattern) -> Result<Layered<Res>, NoMemory>
    requires { t.width ≡ q.width }
{
    let q = EntryMat::of(alloc, &q)?;
    let q_origins = vec![in alloc; 0; q.rows()]?;
    let t_origins = vec![in alloc; 0; t.rows()]?;
    let column_origins = vec![in alloc; Origin::Unknown(0); q.cols()]?;
    Ok(Layered::new(q, t, q_origins, t_origins, column_origins))
}
