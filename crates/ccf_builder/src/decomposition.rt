//! The parts of the engine's arcs.

ghost use Rattle.std.specs.Prelude.{IfOk, ℕ};
ghost use Rattle.minimiser_lattice.specs.Views.{parts_in};
ghost use Rattle.independent_matching.specs.Engines.{AreOpenedEntries, layers};
ghost use Rattle.independent_matching.specs.Sides.{layers_of, tableau_of_pair};
ghost use Rattle.mixed_matrices.specs.Arcs.{HasNoWalk};
ghost use Rattle.ccf_builder.specs.Canonical.{AreCanonicalLists};
ghost use Rattle.ccf_builder.specs.Decompositions.{IsDecomposition};

use crate::canonical::Parts;
use crate::placing::column_parts;
use independent_matching::Engine;
use minimiser_lattice::Lattice;
use out_of_memory::NoMemory;
use residue_field::Field;
use row_transform::Tableau;
use std::alloc::Global;

/// The canonical parts of the engine's matrix, where its pair is best.
pub fn parts<F: Field, T: Tableau<F>>(
    alloc: Global,
    engine: &Engine<F, T>,
) -> Result<Parts, NoMemory>
    requires { HasNoWalk F.modulus (layers_of (T.state engine.now.tableau) engine.now.matching)
        (tableau_of_pair (T.state engine.now.tableau) engine.now.matching) }
    ensures { IfOk result (λ parts. (q : ℕ → ℕ → ℕ) → AreOpenedEntries F.modulus (T.state engine.now.tableau) q →
        AreCanonicalLists F.modulus (layers q (T.state engine.now.tableau) engine.now.matching) parts) }
{
    // its size tells that the base and the matched columns are a pair
    let _size = engine.size();
    let lattice = decompose(alloc, engine)?;
    let columns = column_parts(alloc, &lattice, engine.tableau().columns())?;
    Parts::of(alloc, &lattice, &columns)
}

/// The parts of the arcs of the engine's pair: the first tail is what is reached from the free columns, the last one
/// what reaches an end.
pub fn decompose<F: Field, T: Tableau<F>>(
    alloc: Global,
    engine: &Engine<F, T>,
) -> Result<Lattice, NoMemory>
    ensures { IfOk result (λ l.
        IsDecomposition F.modulus (T.state engine.now.tableau) engine.now.matching (parts_in l)) }
{
    let mut lattice = Lattice::open(alloc, engine.tableau().columns())?;
    lattice.fill(engine, engine.free_columns(), engine.end_columns());
    Ok(lattice)
}
