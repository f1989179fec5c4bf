//! The lists of the pair.

ghost use Rattle.std.specs.Prelude.{◌≡◌, ◌≤◌, IfOk, length};
ghost use Rattle.row_transform.specs.Tableaus.{IsTableau, IsBaseColumn};
ghost use Rattle.ccf_builder.specs.Pairs.{AreWithin, IsMate, ListsPair, ListsPairs};

use independent_matching::Engine;
use out_of_memory::NoMemory;
use residue_field::Field;
use row_transform::Tableau;
use std::alloc::Global;

/// Each Q row with its base column, and each T row with the column with which it is matched, by rising row.
#[derive(Drop)]
pub struct PairLists {
    pub base: Vec<(usize, usize)>,
    pub mates: Vec<(usize, usize)>,
}

/// The pair of the engine; there are so many T rows.
pub fn pair_of<F: Field, T: Tableau<F>>(
    alloc: Global,
    engine: &Engine<F, T>,
    t_rows: usize,
) -> Result<PairLists, NoMemory>
    requires { t_rows ≡ length engine.now.matching.pattern.rows }
    ensures lists { IfOk result (λ pair.
        ListsPair (T.state engine.now.tableau) engine.now.matching t_rows pair.base.items pair.mates.items) }
    ensures base { IfOk result (λ pair.
        AreWithin (T.state engine.now.tableau).rows (T.state engine.now.tableau).columns pair.base.items) }
    ensures mates { IfOk result (λ pair. AreWithin t_rows (T.state engine.now.tableau).columns pair.mates.items) }
{
    Ok(PairLists {
        base: base_pairs(alloc, engine.tableau())?,
        mates: mate_pairs(alloc, engine, t_rows)?,
    })
}

// Each row with a base column, and that column, by rising row.
fn base_pairs<F: Field, T: Tableau<F>>(
    alloc: Global,
    tableau: &T,
) -> Result<Vec<(usize, usize)>, NoMemory>
    ensures base { IfOk result (λ pairs.
        ListsPairs (IsBaseColumn (T.state tableau.now)) (T.state tableau.now).rows pairs.items) }
{
    let mut pairs = Vec::new(alloc);
    for row in 0..tableau.rows() {
        if let Some(column) = tableau.base_of(row) {
            pairs.push((row, column))?;
        }
    }
    Ok(pairs)
}

// Each T row that is matched, and its column, by rising row; there are so many T rows.
fn mate_pairs<F: Field, T: Tableau<F>>(
    alloc: Global,
    engine: &Engine<F, T>,
    rows: usize,
) -> Result<Vec<(usize, usize)>, NoMemory>
    requires { rows ≡ length engine.now.matching.pattern.rows }
    ensures { IfOk result (λ pairs.
        ListsPairs (IsMate engine.now.matching (T.state engine.now.tableau).columns) rows pairs.items) }
{
    let mut pairs = Vec::new(alloc);
    for row in 0..rows {
        if let Some(column) = engine.mate_of_row(row) {
            pairs.push((row, column))?;
        }
    }
    Ok(pairs)
}
