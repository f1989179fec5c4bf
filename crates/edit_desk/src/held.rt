//! A model that is edited, with its layered matrix and an engine at a best pair of it.

ghost use Rattle.std.specs.Prelude.{◌≡◌, ◌≤◌, ◌<◌, ◌+◌, ◌*◌, max, IfOk, OnOk, OnErr};
ghost use Rattle.ccf_builder.specs.Canonical.{AreCanonicalLists};
ghost use Rattle.independent_matching.specs.Changes.{IsAfter};
ghost use Rattle.mixed_matrices.specs.StructuralRanks.{IsStructuralRank};
ghost use Rattle.mixed_model.specs.Layers.{layered_matrix_of};
ghost use Rattle.mixed_model.specs.Models.{mixed_matrix_of};
ghost use Rattle.edit_desk.specs.Held.{HasStayedHeld, IsHeld};

use ccf_builder::{Parts, parts};
use exchange_graph::Steps;
use independent_matching::{Change, Engine};
use mixed_layering::layer;
use mixed_model::{Layered, Mixed};
use out_of_memory::NoMemory;
use residue_field::Field;
use row_transform::Tableau;
use std::alloc::Global;
use std::marker::{Brand, Model};
use std::sync::ledger::{Blank, Ledger};

/// A model with its layered matrix, and an engine at a best pair of that matrix. An edit of one equation goes on from that
/// pair: it takes a few searches, where an analysis from the beginning takes one for each column of the pair.
#[derive(Drop)]
pub struct Held<F: Field, T: Tableau<F>> {
    alloc: Global,
    model: Mixed<F>,
    layered: Layered<F>,
    engine: Engine<F, T>,
}

impl<F: Field, T: Tableau<F>> Model for Held<F, T> {
    ghost use Rattle.edit_desk.specs.Held.{HeldModel, IsHeld};

    ghost Value = { HeldModel T };

    ghost view = { λ h. record { model = h.model; layers = h.layered; engine = h.engine } };

    ghost invariant = { λ h. IsHeld T T.state F.modulus
        (record { model = h.model; layers = h.layered; engine = h.engine }) };
}

impl<F: Field, T: Tableau<F>> Held<F, T> {
    /// The model, analysed from the beginning.
    pub fn open(alloc: Global, model: Mixed<F>) -> Result<Held<F, T>, NoMemory>
        ensures { IfOk result (λ h. h.model ≡ model) }
    {
        Held::open_counting::<Brand>(alloc, model, Blank::new(1))
    }

    // The same, with its steps counted in a ledger.
    fn open_counting<L: Ledger>(
        alloc: Global,
        model: Mixed<F>,
        blank: Blank,
    ) -> Result<Held<F, T>, NoMemory>
        requires name { blank.name ≡ L.name }
        requires parts { blank.parts ≡ L.parts }
        requires some { 0 < blank.parts }
        ensures { IfOk result (λ h. h.model ≡ model) }
    {
        model.is_model();
        let layered = layer(alloc, &model)?;
        let mut engine = Engine::open(alloc, &layered)?;
        engine.run(&mut Steps::<L>::new(blank));
        Ok(Held {
            alloc,
            model,
            layered,
            engine,
        })
    }

    // Tells a proof what a held model keeps. It does nothing when it runs.
    pub(crate) fn is_held(&self)
        ensures { IsHeld T T.state F.modulus self.now }
    {
        // a proof knows what the type keeps once a field is read
        let _ = &self.model;
    }

    /// The model.
    pub fn model(&self) -> &Mixed<F>
        ensures { result.now ≡ self.now.model }
    {
        &self.model
    }

    /// The layered matrix of the model.
    pub fn layered(&self) -> &Layered<F>
        ensures { result.now ≡ self.now.layers }
    {
        &self.layered
    }

    /// The engine, at a best pair of the layered matrix.
    pub fn engine(&self) -> &Engine<F, T>
        ensures { result.now ≡ self.now.engine }
    {
        &self.engine
    }

    /// Puts an edited model in the place of the model: one equation was added after the others, removed or changed, and new
    /// unknowns may stand behind the others. There are at most seven searches, and where it is done at most fourteen steps for
    /// each column. Where memory runs out, all is as it was.
    pub fn follow<L: Ledger, M: Ledger>(
        &mut self,
        model: Mixed<F>,
        change: Change,
        searches: &mut Steps<L>,
        steps: &mut Steps<M>,
    ) -> Result<(), NoMemory>
        requires { IsAfter change (mixed_matrix_of self.old.model) (mixed_matrix_of model) }
        ensures model { OnOk result (self.new.model ≡ model) }
        ensures kept { OnErr result (HasStayedHeld T T.state T.pivots self.old self.new) }
        ensures searches { searches.new ≤ searches.old + 7 }
        ensures steps { OnOk result (steps.new ≤ steps.old + 14 * max (layered_matrix_of self.old.layers).columns
            (layered_matrix_of self.new.layers).columns) }
    {
        model.is_model();
        let layered = layer(self.alloc, &model)?;
        self.engine.update(&layered, change, searches, steps)?;
        self.model = model;
        self.layered = layered;
        Ok(())
    }

    /// The structural rank of the model.
    pub fn rank(&self) -> usize
        ensures { IsStructuralRank F.modulus (mixed_matrix_of self.now.model) result }
    {
        self.engine.size() - self.layered.split()
    }

    /// The canonical parts of the layered matrix.
    pub fn parts(&self) -> Result<Parts, NoMemory>
        ensures { IfOk result (AreCanonicalLists F.modulus (layered_matrix_of self.now.layers)) }
    {
        parts(self.alloc, &self.engine)
    }
}
