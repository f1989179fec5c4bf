//! The engine that is run on a layered matrix.

ghost use Rattle.std.specs.Prelude.{◌≡◌, ◌<◌, IfOk};
ghost use Rattle.exchange_graph.specs.Results.{vain_of};
ghost use Rattle.ccf_builder.specs.Solutions.{IsSolution};

use exchange_graph::Steps;
use independent_matching::Engine;
use mixed_model::Layered;
use out_of_memory::NoMemory;
use residue_field::Field;
use row_transform::Tableau;
use std::alloc::Global;
use std::marker::Brand;
use std::sync::ledger::{Blank, Ledger};

/// An engine with a best pair of the layered matrix.
pub fn solve<F: Field, T: Tableau<F>>(
    alloc: Global,
    layered: &Layered<F>,
) -> Result<Engine<F, T>, NoMemory>
    ensures { IfOk result (λ e.
        IsSolution F.modulus layered.now (T.state e.tableau) e.matching (vain_of e.found)) }
{
    solve_counting::<F, T, Brand>(alloc, layered, Blank::new(1))
}

// The same, with its steps counted in a ledger.
fn solve_counting<F: Field, T: Tableau<F>, L: Ledger>(
    alloc: Global,
    layered: &Layered<F>,
    blank: Blank,
) -> Result<Engine<F, T>, NoMemory>
    requires name { blank.name ≡ L.name }
    requires parts { blank.parts ≡ L.parts }
    requires some { 0 < blank.parts }
    ensures { IfOk result (λ e.
        IsSolution F.modulus layered.now (T.state e.tableau) e.matching (vain_of e.found)) }
{
    let mut engine = Engine::open(alloc, layered)?;
    engine.run(&mut Steps::<L>::new(blank));
    Ok(engine)
}
