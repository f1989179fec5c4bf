//! The engine, run on a drawn matrix.

ghost use Rattle.std.specs.Prelude.{◌≡◌, ◌≤◌, ◌<◌};
ghost use Rattle.limits.specs.Limits.{equation_limit};

use crate::draws::{Draws, Family};
use crate::layering::layered;
use exchange_graph::Steps;
use independent_matching::{Engine, NoMemory};
use residue_field::Res;
use row_transform::Tableau;
use std::alloc::Global;
use std::sync::ledger::{Blank, Ledger};

/// What the engine finds, and what it takes: its steps are looks at columns and pivots.
pub struct Found {
    pub columns: usize,
    pub pair: usize,
    pub free: usize,
    pub least: usize,
    pub searches: usize,
    pub looks: usize,
    pub pivots: usize,
}

/// Runs the engine from the empty pair on a matrix that is drawn.
pub(crate) fn solve<L: Ledger>(
    alloc: Global,
    family: Family,
    size: usize,
    blank: Blank,
) -> Result<Found, NoMemory>
    requires size { 1 ≤ size }
    requires few { size ≤ equation_limit }
    requires name { blank.name ≡ L.name }
    requires parts { blank.parts ≡ L.parts }
    requires some { 0 < blank.parts }
{
    let mut draws = Draws::new(size as u64);
    let layered = layered(alloc, &mut draws, family, size)?;
    let mut engine: Engine<Res> = Engine::open(alloc, &layered)?;
    let mut steps = Steps::<L>::new(blank);
    engine.run(&mut steps);
    let columns = engine.tableau().columns();
    let least = (0..columns)
        .filter(|col| engine.least_minimiser(*col))
        .count();
    Ok(Found {
        columns,
        pair: engine.size(),
        free: engine.free_columns().iter().filter(|free| **free).count(),
        least,
        searches: engine.searches(),
        looks: engine.looks(),
        pivots: engine.pivots(),
    })
}
