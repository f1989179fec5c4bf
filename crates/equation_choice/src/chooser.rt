//! A chooser: equations join one after another where they may, in one tableau and one matching of all of them.

ghost use Rattle.std.specs.Prelude.{◌≡◌, ℕ, ◌<◌, ◌↔◌, Some, true, length, IfNone, IfOk, IfSome, IsFalse, IsTrue};
ghost use Rattle.std.specs.List.{All};
ghost use Rattle.dense_q.specs.Tables.{entry};
ghost use Rattle.sparse_t.specs.Incidences.{incidence_rows, touches};
ghost use Rattle.residue_theory.specs.Sets.{nothing};
ghost use Rattle.search_laws.specs.Searches.{IsShortest};
ghost use Rattle.exchange_graph.specs.Marks.{members_of};
ghost use Rattle.exchange_graph.specs.Results.{reached_of, step_of};
ghost use Rattle.mixed_matrices.specs.Arcs.{is_free};
ghost use Rattle.mixed_layering.specs.Layers.{AreLayersOf};
ghost use Rattle.mixed_model.specs.Layers.{AreLayers};
ghost use Rattle.mixed_model.specs.Models.{MixedModel};
ghost use Rattle.bipartite_matching.specs.Matchings.{IsMatching, IsRowFree, with_pair};
ghost use Rattle.independent_matching.specs.Engines.{layers};
ghost use Rattle.independent_matching.specs.Sides.{layers_of, tableau_of_pair};
ghost use Rattle.row_choice_laws.specs.ColumnSearches.{leads_back};
ghost use Rattle.row_choice_laws.specs.RowSearches.{has_row_entry, is_bare_row, places};
ghost use Rattle.equation_choice.specs.Pairs.{IsPairOver};
ghost use Rattle.equation_choice.specs.Told.{AddsMarks, IsToldByRow, IsToldByTry, TellsCircuit};
ghost use Rattle.equation_choice.specs.Choosers.{AreRowsIn, HasEntered, HasGivenUp, HasGrownFrom, HasJoined, HasTriedInVain};
ghost use Rattle.equation_choice.specs.Choosers.{IsReachedBack, IsReadyChooser, HasBeenRefused, KeepsAmong, first_place};

use crate::back::Back;
use crate::list::{mark_only, no_marks};
use crate::pair::Pair;
use crate::places::EquationRows;
use bipartite_matching::Match;
use exchange_graph::{Search, Steps};
use mixed_model::Layered;
use out_of_memory::NoMemory;
use residue_field::Field;
use row_transform::Tableau;
use std::alloc::Global;
use std::marker::{Brand, PhantomData};
use std::sync::ledger::{Blank, Ledger};

// A pair, a search over its columns, and marks of those at which a search starts and of those that are free.
#[derive(Drop)]
pub struct Chooser<F: Field, T: Tableau<F>> {
    pub pair: Pair<F, T>,
    pub search: Search,
    pub starts: Vec<bool>,
    pub free: Vec<bool>,
}

impl<F: Field, T: Tableau<F>> Chooser<F, T> {
    /// With no equation kept. It takes all the memory that it will use.
    pub fn open(alloc: Global, layered: &Layered<F>) -> Result<Self, NoMemory>
        ensures ready { IfOk result (λ c. IsReadyChooser F.modulus layered.now (T.state c.pair.tableau) c.pair.mates
            c.search c.starts.items c.free.items) }
        ensures nothing { IfOk result (λ c. (model : MixedModel) (of : AreLayersOf model layered.now) →
            KeepsAmong F.modulus layered.now of.split (T.state c.pair.tableau) c.pair.mates nothing) }
    {
        layered.are_layers();
        let tableau = T::open(alloc, &layered.q)?;
        tableau.is_tableau();
        let columns = layered.columns();
        Ok(Chooser {
            pair: Pair {
                mates: Match::open(alloc, &layered.t)?,
                tableau,
                field: PhantomData,
            },
            search: Search::open(alloc, columns)?,
            starts: no_marks(alloc, columns)?,
            free: no_marks(alloc, columns)?,
        })
    }

    /// Lets an equation with these rows join where it may, and tells whether it did: by one search, and without a pivot
    /// where it may not.
    pub fn join(&mut self, layered: &Layered<F>, equation: usize, rows: EquationRows) -> bool
        requires ready { IsReadyChooser F.modulus layered.now (T.state self.old.pair.tableau) self.old.pair.mates
            self.old.search self.old.starts.items self.old.free.items }
        requires rows { AreRowsIn layered.now equation rows.q rows.t rows.auxiliary }
        ensures ready { IsReadyChooser F.modulus layered.now (T.state self.new.pair.tableau) self.new.pair.mates
            self.new.search self.new.starts.items self.new.free.items }
        ensures joined { IsTrue result → HasJoined F.modulus layered.now (T.state self.old.pair.tableau)
            (T.state self.new.pair.tableau) self.old.pair.mates self.new.pair.mates equation }
        ensures refused { IsFalse result → HasBeenRefused F.modulus layered.now (T.state self.old.pair.tableau)
            (T.state self.new.pair.tableau) self.old.pair.mates self.new.pair.mates equation }
    {
        if self.attempt(layered, equation, rows) {
            return true;
        }
        self.give_up(layered, equation, rows);
        false
    }

    /// As `join`; where the equation may not join, it marks the equations of its circuit, that is, itself and those that
    /// are kept and that it may replace. `symbols` marks the equations with symbols.
    pub fn join_telling(
        &mut self,
        layered: &Layered<F>,
        equation: usize,
        rows: EquationRows,
        symbols: &[bool],
        told: &mut [bool],
    ) -> bool
        requires ready { IsReadyChooser F.modulus layered.now (T.state self.old.pair.tableau) self.old.pair.mates
            self.old.search self.old.starts.items self.old.free.items }
        requires rows { AreRowsIn layered.now equation rows.q rows.t rows.auxiliary }
        requires equation { equation < length told.old }
        requires q_origins { All (λ equation. equation < length told.old) layered.now.q_origins }
        requires t_origins { All (λ equation. equation < length told.old) layered.now.t_origins }
        requires symbols { length symbols.now ≡ length told.old }
        ensures ready { IsReadyChooser F.modulus layered.now (T.state self.new.pair.tableau) self.new.pair.mates
            self.new.search self.new.starts.items self.new.free.items }
        ensures count { length told.new ≡ length told.old }
        ensures joined { IsTrue result → HasJoined F.modulus layered.now (T.state self.old.pair.tableau)
            (T.state self.new.pair.tableau) self.old.pair.mates self.new.pair.mates equation }
        ensures refused { IsFalse result → HasBeenRefused F.modulus layered.now (T.state self.old.pair.tableau)
            (T.state self.new.pair.tableau) self.old.pair.mates self.new.pair.mates equation }
        ensures told { IsFalse result → TellsCircuit F.modulus layered.now (T.state self.old.pair.tableau)
            self.old.pair.mates symbols.now told.new equation }
    {
        if self.attempt(layered, equation, rows) {
            return true;
        }
        self.tell(layered, equation, rows, symbols, told);
        self.give_up(layered, equation, rows);
        false
    }

    // Marks the equations that a try in vain tells.
    fn tell(
        &self,
        layered: &Layered<F>,
        equation: usize,
        rows: EquationRows,
        symbols: &[bool],
        told: &mut [bool],
    )
        requires ready { IsReadyChooser F.modulus layered.now (T.state self.now.pair.tableau) self.now.pair.mates
            self.now.search self.now.starts.items self.now.free.items }
        requires rows { AreRowsIn layered.now equation rows.q rows.t rows.auxiliary }
        requires equation { equation < length told.old }
        requires q_origins { All (λ equation. equation < length told.old) layered.now.q_origins }
        requires t_origins { All (λ equation. equation < length told.old) layered.now.t_origins }
        requires symbols { length symbols.now ≡ length told.old }
        ensures count { length told.new ≡ length told.old }
        ensures told { (x : ℕ) → (members_of told.new x ≡ true) ↔ IsToldByTry F.modulus layered.now
            (T.state self.now.pair.tableau) self.now.pair.mates symbols.now (reached_of self.now.search) rows.q rows.t
            equation x }
    {
        mark_only(told, equation);
        self.tell_first(layered, equation, rows, symbols, told);
        self.pair.tell_reached(layered, &self.search, symbols, told);
    }

    // Marks the equations that the first row of an equation tells.
    fn tell_first(
        &self,
        layered: &Layered<F>,
        equation: usize,
        rows: EquationRows,
        symbols: &[bool],
        told: &mut [bool],
    )
        requires over { IsPairOver F.modulus layered.now (T.state self.now.pair.tableau) self.now.pair.mates }
        requires rows { AreRowsIn layered.now equation rows.q rows.t rows.auxiliary }
        requires q_origins { All (λ equation. equation < length told.old) layered.now.q_origins }
        requires t_origins { All (λ equation. equation < length told.old) layered.now.t_origins }
        requires symbols { length symbols.now ≡ length told.old }
        ensures { AddsMarks (λ x. (row : ℕ)
            × (first_place (T.state self.now.pair.tableau).rows rows.q rows.t ≡ Some row)
            × IsToldByRow F.modulus layered.now (T.state self.now.pair.tableau) symbols.now row x) told.old told.new }
    {
        // there are at most 8,192 rows of either kind
        layered.are_layers();
        self.pair.mates.pattern().is_pattern();
        if let Some(row) = rows.first(self.pair.tableau.rows()) {
            self.pair.tell_row(layered, row, symbols, told);
        }
    }

    /// Lets an equation enter, and join where a walk leads from its first row to a free column. Where none does, it is to
    /// be given up.
    pub fn attempt(&mut self, layered: &Layered<F>, equation: usize, rows: EquationRows) -> bool
        requires ready { IsReadyChooser F.modulus layered.now (T.state self.old.pair.tableau) self.old.pair.mates
            self.old.search self.old.starts.items self.old.free.items }
        requires rows { AreRowsIn layered.now equation rows.q rows.t rows.auxiliary }
        ensures ready { IsReadyChooser F.modulus layered.now (T.state self.new.pair.tableau) self.new.pair.mates
            self.new.search self.new.starts.items self.new.free.items }
        ensures joined { IsTrue result → HasJoined F.modulus layered.now (T.state self.old.pair.tableau)
            (T.state self.new.pair.tableau) self.old.pair.mates self.new.pair.mates equation }
        ensures refused { IsFalse result → HasTriedInVain F.modulus layered.now (T.state self.old.pair.tableau)
            (T.state self.new.pair.tableau) self.old.pair.mates self.new.pair.mates rows.q rows.t rows.auxiliary
            (reached_of self.new.search) }
    {
        self.enter(layered, equation, rows);
        match self.first_row(layered, equation, rows) {
            Some(row) => self.grow_from(layered, row),
            None => false,
        }
    }

    // Makes the pair larger along a walk back from a row that has no column, if there is one.
    fn grow_from(&mut self, layered: &Layered<F>, row: usize) -> bool
        requires ready { IsReadyChooser F.modulus layered.now (T.state self.old.pair.tableau) self.old.pair.mates
            self.old.search self.old.starts.items self.old.free.items }
        requires row { row < places (layers_of (T.state self.old.pair.tableau) self.old.pair.mates) }
        requires bare { is_bare_row (layers_of (T.state self.old.pair.tableau) self.old.pair.mates)
            (tableau_of_pair (T.state self.old.pair.tableau) self.old.pair.mates) row ≡ true }
        ensures ready { IsReadyChooser F.modulus layered.now (T.state self.new.pair.tableau) self.new.pair.mates
            self.new.search self.new.starts.items self.new.free.items }
        ensures grown { IsTrue result → HasGrownFrom F.modulus layered.now (T.state self.old.pair.tableau)
            (T.state self.new.pair.tableau) self.old.pair.mates self.new.pair.mates row }
        ensures vain { IsFalse result → IsReachedBack F.modulus layered.now (T.state self.old.pair.tableau)
            self.old.pair.mates row (reached_of self.new.search) }
        ensures stayed { IsFalse result → self.new.pair ≡ self.old.pair }
    {
        // most rows have an entry at a free column, and a search asks each column whether it is free
        if let Some(x) = self.pair.free_entry(row) {
            self.pair.grow_at(layered, row, x);
            return true;
        }
        match self.search(layered, row) {
            Some(last) => {
                self.pair.grow(layered, &self.search, row, last);
                true
            }
            None => false,
        }
    }

    // The least number of arcs of a walk back from the columns in which the row has an entry to a free column.
    fn search(&mut self, layered: &Layered<F>, row: usize) -> Option<usize>
        requires ready { IsReadyChooser F.modulus layered.now (T.state self.old.pair.tableau) self.old.pair.mates
            self.old.search self.old.starts.items self.old.free.items }
        requires row { row < places (layers_of (T.state self.old.pair.tableau) self.old.pair.mates) }
        ensures ready { IsReadyChooser F.modulus layered.now (T.state self.new.pair.tableau) self.new.pair.mates
            self.new.search self.new.starts.items self.new.free.items }
        ensures pair { self.new.pair ≡ self.old.pair }
        ensures walk { IfSome result (λ last. IsShortest (leads_back F.modulus
            (layers (entry layered.now.q) (T.state self.old.pair.tableau) self.old.pair.mates)
            (tableau_of_pair (T.state self.old.pair.tableau) self.old.pair.mates))
            (T.state self.old.pair.tableau).columns
            (has_row_entry F.modulus (layers (entry layered.now.q) (T.state self.old.pair.tableau) self.old.pair.mates)
            (tableau_of_pair (T.state self.old.pair.tableau) self.old.pair.mates) row)
            (is_free (tableau_of_pair (T.state self.old.pair.tableau) self.old.pair.mates)) (step_of self.new.search)
            last) }
        ensures vain { IfNone result (IsReachedBack F.modulus layered.now (T.state self.old.pair.tableau)
            self.old.pair.mates row (reached_of self.new.search)) }
    {
        self.search_counting::<Brand>(layered, row, Blank::new(1))
    }

    // The same, with its steps counted in a ledger.
    fn search_counting<L: Ledger>(
        &mut self,
        layered: &Layered<F>,
        row: usize,
        blank: Blank,
    ) -> Option<usize>
        requires ready { IsReadyChooser F.modulus layered.now (T.state self.old.pair.tableau) self.old.pair.mates
            self.old.search self.old.starts.items self.old.free.items }
        requires row { row < places (layers_of (T.state self.old.pair.tableau) self.old.pair.mates) }
        requires name { blank.name ≡ L.name }
        requires parts { blank.parts ≡ L.parts }
        requires some { 0 < blank.parts }
        ensures ready { IsReadyChooser F.modulus layered.now (T.state self.new.pair.tableau) self.new.pair.mates
            self.new.search self.new.starts.items self.new.free.items }
        ensures pair { self.new.pair ≡ self.old.pair }
        ensures walk { IfSome result (λ last. IsShortest (leads_back F.modulus
            (layers (entry layered.now.q) (T.state self.old.pair.tableau) self.old.pair.mates)
            (tableau_of_pair (T.state self.old.pair.tableau) self.old.pair.mates))
            (T.state self.old.pair.tableau).columns
            (has_row_entry F.modulus (layers (entry layered.now.q) (T.state self.old.pair.tableau) self.old.pair.mates)
            (tableau_of_pair (T.state self.old.pair.tableau) self.old.pair.mates) row)
            (is_free (tableau_of_pair (T.state self.old.pair.tableau) self.old.pair.mates)) (step_of self.new.search)
            last) }
        ensures vain { IfNone result (IsReachedBack F.modulus layered.now (T.state self.old.pair.tableau)
            self.old.pair.mates row (reached_of self.new.search)) }
    {
        mark(&self.pair, row, &mut self.starts, &mut self.free);
        let back = Back { pair: &self.pair };
        self.search.shortest(&back, &self.starts, &self.free, &mut Steps::<L>::new(blank))
    }

    // The first row of an equation that has entered, if no column has it.
    fn first_row(&self, layered: &Layered<F>, equation: usize, rows: EquationRows) -> Option<usize>
        requires over { IsPairOver F.modulus layered.now (T.state self.now.pair.tableau) self.now.pair.mates }
        requires rows { AreRowsIn layered.now equation rows.q rows.t rows.auxiliary }
        ensures below { IfSome result (λ s.
            s < places (layers_of (T.state self.now.pair.tableau) self.now.pair.mates)) }
        ensures bare { IfSome result (λ s. is_bare_row (layers_of (T.state self.now.pair.tableau) self.now.pair.mates)
            (tableau_of_pair (T.state self.now.pair.tableau) self.now.pair.mates) s ≡ true) }
        ensures some { IfSome result (λ s.
            first_place (T.state self.now.pair.tableau).rows rows.q rows.t ≡ Some s) }
        ensures none { IfNone result ((s : ℕ) →
            first_place (T.state self.now.pair.tableau).rows rows.q rows.t ≡ Some s →
            is_bare_row (layers_of (T.state self.now.pair.tableau) self.now.pair.mates)
            (tableau_of_pair (T.state self.now.pair.tableau) self.now.pair.mates) s ≡ true → ⊥) }
    {
        // there are at most 8,192 rows of either kind
        layered.are_layers();
        self.pair.mates.pattern().is_pattern();
        let row = rows.first(self.pair.tableau.rows())?;
        if self.pair.is_bare(row) {
            Some(row)
        } else {
            None
        }
    }

    // Matches the T row of a split equation with its auxiliary column.
    fn enter(&mut self, layered: &Layered<F>, equation: usize, rows: EquationRows)
        requires ready { IsReadyChooser F.modulus layered.now (T.state self.old.pair.tableau) self.old.pair.mates
            self.old.search self.old.starts.items self.old.free.items }
        requires rows { AreRowsIn layered.now equation rows.q rows.t rows.auxiliary }
        ensures ready { IsReadyChooser F.modulus layered.now (T.state self.new.pair.tableau) self.new.pair.mates
            self.new.search self.new.starts.items self.new.free.items }
        ensures tableau { self.new.pair.tableau ≡ self.old.pair.tableau }
        ensures entered { HasEntered (T.state self.old.pair.tableau) self.old.pair.mates self.new.pair.mates rows.q
            rows.t rows.auxiliary }
        ensures layers { AreLayers layered.now }
    {
        layered.are_layers();
        self.pair.mates.is_matching();
        if let (Some(_), Some(row), Some(x)) = (rows.q, rows.t, rows.auxiliary) {
            self.link(layered, row, x);
        }
    }

    // Matches a T row with a column that it touches, where both are free.
    fn link(&mut self, layered: &Layered<F>, row: usize, x: usize)
        requires ready { IsReadyChooser F.modulus layered.now (T.state self.old.pair.tableau) self.old.pair.mates
            self.old.search self.old.starts.items self.old.free.items }
        requires row { row < incidence_rows self.old.pair.mates.pattern }
        requires x { x < (T.state self.old.pair.tableau).columns }
        ensures ready { IsReadyChooser F.modulus layered.now (T.state self.new.pair.tableau) self.new.pair.mates
            self.new.search self.new.starts.items self.new.free.items }
        ensures tableau { self.new.pair.tableau ≡ self.old.pair.tableau }
        ensures linked { IsRowFree self.old.pair.mates row →
            is_free (tableau_of_pair (T.state self.old.pair.tableau) self.old.pair.mates) x ≡ true →
            touches self.old.pair.mates.pattern row x ≡ true →
            self.new.pair.mates ≡ with_pair self.old.pair.mates row x }
        ensures matching { IsMatching self.old.pair.mates }
    {
        if self.pair.mates.mate_of_row(row).is_none()
            && self.pair.row_of(x).is_none()
            && self.pair.mates.pattern().touches(row, x)
        {
            self.pair.mates.link(row, x);
        }
    }

    /// Parts the T row of a split equation from its auxiliary column, after a try in vain.
    pub fn give_up(&mut self, layered: &Layered<F>, equation: usize, rows: EquationRows)
        requires ready { IsReadyChooser F.modulus layered.now (T.state self.old.pair.tableau) self.old.pair.mates
            self.old.search self.old.starts.items self.old.free.items }
        requires rows { AreRowsIn layered.now equation rows.q rows.t rows.auxiliary }
        ensures ready { IsReadyChooser F.modulus layered.now (T.state self.new.pair.tableau) self.new.pair.mates
            self.new.search self.new.starts.items self.new.free.items }
        ensures tableau { self.new.pair.tableau ≡ self.old.pair.tableau }
        ensures given_up { HasGivenUp self.old.pair.mates self.new.pair.mates rows.q rows.t rows.auxiliary }
        ensures search { self.new.search ≡ self.old.search }
    {
        layered.are_layers();
        if let (Some(_), Some(_), Some(x)) = (rows.q, rows.t, rows.auxiliary) {
            self.pair.leave(x);
        }
    }
}

// Marks the columns in which the row has an entry, and those that are free.
fn mark<F: Field, T: Tableau<F>>(
    pair: &Pair<F, T>,
    row: usize,
    starts: &mut Vec<bool>,
    free: &mut Vec<bool>,
)
    requires row { row < places (layers_of (T.state pair.now.tableau) pair.now.mates) }
    requires width { pair.now.mates.pattern.width ≡ (T.state pair.now.tableau).columns }
    requires starts { length starts.old.items ≡ (T.state pair.now.tableau).columns }
    requires free { length free.old.items ≡ (T.state pair.now.tableau).columns }
    ensures start_marks { length starts.new.items ≡ (T.state pair.now.tableau).columns }
    ensures free_marks { length free.new.items ≡ (T.state pair.now.tableau).columns }
    ensures starts { (x : ℕ) → x < (T.state pair.now.tableau).columns → members_of starts.new.items x
        ≡ has_row_entry F.modulus (layers_of (T.state pair.now.tableau) pair.now.mates)
        (tableau_of_pair (T.state pair.now.tableau) pair.now.mates) row x }
    ensures free { (x : ℕ) → x < (T.state pair.now.tableau).columns → members_of free.new.items x
        ≡ is_free (tableau_of_pair (T.state pair.now.tableau) pair.now.mates) x }
{
    pair.mark_entries(row, starts);
    pair.mark_free(free);
}
