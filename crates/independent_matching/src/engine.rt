//! The engine: a pair of independent columns of Q and matched columns of T that grows column by column, along shortest
//! walks of its exchange graph, and what it tells (Murota 2000, chapter 2: augmentation of an independent matching).

ghost use Rattle.std.specs.Prelude.{◌≡◌, ◌≤◌, ℕ, ◌+◌, ◌-◌, ◌*◌, ◌<◌, max, true, is_some, Option, length};
ghost use Rattle.std.specs.Prelude.{IfOk, IsTrue, IsFalse, IfSome, IfNone, OnOk, OnErr};
ghost use Rattle.dense_q.specs.Tables.{entry, height};
ghost use Rattle.sparse_t.specs.Incidences.{IsIncidence, incidence_rows};
ghost use Rattle.bipartite_matching.specs.Matchings.{HasPair, IsMatching, IsRowFree, mate_at};
ghost use Rattle.residue_theory.specs.Sums.{size_on};
ghost use Rattle.mixed_matrices.specs.Arcs.{is_end, is_free, leads_to};
ghost use Rattle.exchange_graph.specs.Marks.{members_of};
ghost use Rattle.exchange_graph.specs.Results.{vain_of};
ghost use Rattle.mixed_matrices.specs.Tableaus.{HasTableau};
ghost use Rattle.mixed_model.specs.Layers.{layered_matrix_of};
ghost use Rattle.independent_matching.specs.Engines.{Standing, AreOpenedEntries, HasGrown, HasRun, HasStayed};
ghost use Rattle.mixed_matrices.specs.LayeredMatrices.{LayeredMatrix};
ghost use Rattle.independent_matching.specs.Changes.{IsEdit};
ghost use Rattle.independent_matching.specs.Edits.{IsChain, IsEdited, IsFollowing};
ghost use Rattle.independent_matching.specs.Engines.{IsBareOver, IsOpenedOver, layers};
ghost use Rattle.independent_matching.specs.Engines.{ArePivotsMade, HasKept, IsEditOfBest, IsStarted, IsUpdated};
ghost use Rattle.independent_matching.specs.Sides.{layers_of, size_of, tableau_of_pair};
ghost use Rattle.independent_matching.specs.Turns.{turn_of};

use crate::change::Change;
use crate::fresh::Fresh;
use crate::marks::Marks;
use crate::mover::Mover;
use crate::pair::Pair;
use crate::places::Places;
use crate::resting::Resting;
use bipartite_matching::Match;
use exchange_graph::{Arcs, Search, Steps};
use mixed_model::Layered;
use out_of_memory::NoMemory;
use residue_field::Field;
use row_transform::{DenseTableau, Tableau};
use std::alloc::Global;
use std::marker::{Brand, Model, PhantomData};
use std::sync::ledger::{Blank, Ledger};

/// A pair of a layered matrix, independent columns of Q and other columns matched in T, that `run` makes best. Rows
/// and columns are counted from 0. (Murota 2000, chapter 2, independent matching; chapter 4.)
///
/// Its arcs are those from a column x to another column y whose row x could take: P has an entry in x at the row of
/// the base column y, or the T row matched with y touches x.
#[derive(Drop)]
pub struct Engine<F: Field, T: Tableau<F> = DenseTableau<F>> {
    mover: Mover<F, T>,
    resting: Resting,
    search: Search,
    size: usize,
    looks: usize,
    searches: usize,
}

impl<F: Field, T: Tableau<F>> Model for Engine<F, T> {
    ghost use Rattle.independent_matching.specs.Engines.{Standing};
    ghost use Rattle.independent_matching.specs.Marks.{IsReadyPair};

    ghost Value = { Standing T };

    ghost view = { λ e. record {
      tableau = e.mover.pair.tableau;
      matching = e.mover.pair.mates;
      found = e.search;
      pivots = e.mover.pivots;
      looks = e.looks;
      searches = e.searches;
    } };

    ghost invariant = { λ e. IsReadyPair F.modulus (T.state e.mover.pair.tableau) e.mover.pair.mates
        e.search e.resting e.mover.marks e.size e.mover.pivots e.looks };
}

impl<F: Field, T: Tableau<F>> Engine<F, T> {
    /// The empty pair of a layered matrix, over a tableau that this opens. No pivot was made, and nothing was looked at
    /// or left out. It takes all the memory that the engine will use.
    pub fn open(alloc: Global, l: &Layered<F>) -> Result<Self, NoMemory>
        ensures opened { IfOk result (IsOpenedOver T T.state F.modulus (entry l.now.q) (layered_matrix_of l.now)) }
        ensures no_pivot { IfOk result (λ e. T.pivots e.tableau ≡ 0) }
    {
        let tableau = T::open(alloc, &l.q)?;
        Engine::open_on(alloc, l, tableau)
    }

    /// The empty pair of a layered matrix, over a tableau of its Q that has no base column, whatever row operations it
    /// has seen, and which stays as it is. Nothing was looked at or left out. It takes all the memory that the engine will
    /// use; where that is refused, the tableau is given up.
    pub fn open_on(alloc: Global, l: &Layered<F>, tableau: T) -> Result<Self, NoMemory>
        requires { IsBareOver F.modulus (height l.now.q) l.now.q.width (entry l.now.q) (T.state tableau) }
        ensures opened { IfOk result (IsOpenedOver T T.state F.modulus (entry l.now.q) (layered_matrix_of l.now)) }
        ensures tableau { IfOk result (λ e. e.tableau ≡ tableau) }
    {
        l.are_layers();
        tableau.is_tableau();
        let columns = tableau.columns();
        let pair = Pair {
            mates: Match::open(alloc, &l.t)?,
            tableau,
            field: PhantomData,
        };
        let (resting, marks) = Marks::open(alloc, &pair)?;
        Ok(Engine {
            mover: Mover {
                pair,
                marks,
                pivots: 0,
            },
            resting,
            search: Search::open(alloc, columns)?,
            size: 0,
            looks: 0,
            searches: 0,
        })
    }

    /// Searches once for a walk from a free column to an end, from one free column after another. Where there is one,
    /// the pair grows by a column along it, from its end backwards; else the pair is best and stays. A free column that
    /// is an end is such a walk, and then no column is looked at. What is reached from a free column in vain can reach no
    /// end after any later growth either, and no later search looks at it.
    ///
    /// A step is a look at a column in the search or a pivot. Where the pair grows there is at most one look for each
    /// column, and there are at most as many pivots as there were base columns, and one; `looks` rises by the looks, and
    /// `pivots` by the rest of the steps, which are all pivots that the tableau makes, as its own count tells.
    pub fn improve<L: Ledger, M: Ledger>(
        &mut self,
        searches: &mut Steps<M>,
        steps: &mut Steps<L>,
    ) -> bool
        ensures same { (q : ℕ → ℕ → ℕ) → layers q (T.state self.new.tableau) self.new.matching
            ≡ layers q (T.state self.old.tableau) self.old.matching }
        ensures entries { (q : ℕ → ℕ → ℕ) → AreOpenedEntries F.modulus (T.state self.old.tableau) q →
            AreOpenedEntries F.modulus (T.state self.new.tableau) q }
        ensures grown { IsTrue result → HasGrown T T.state T.pivots self.old self.new steps.old steps.new }
        ensures best { IsFalse result → HasStayed T T.state F.modulus self.old self.new steps.old steps.new }
        ensures searches { searches.new ≡ searches.old + 1 }
        ensures same_searches { self.new.searches ≡ self.old.searches }
    {
        searches.tick();
        match self.mover.marks.free_end(&self.resting) {
            Some(x) => {
                self.grow(x, steps);
                true
            }
            None => self.improve_along(steps),
        }
    }

    // Makes the pair larger by the free column x, which is an end.
    fn grow<L: Ledger>(&mut self, x: usize, steps: &mut Steps<L>)
        requires x { x < (T.state self.old.tableau).columns }
        requires free { is_free (tableau_of_pair (T.state self.old.tableau) self.old.matching) x ≡ true }
        requires end { is_end F.modulus (layers_of (T.state self.old.tableau) self.old.matching)
            (tableau_of_pair (T.state self.old.tableau) self.old.matching) x ≡ true }
        ensures layers { layers_of (T.state self.new.tableau) self.new.matching
            ≡ layers_of (T.state self.old.tableau) self.old.matching }
        ensures grown { HasGrown T T.state T.pivots self.old self.new steps.old steps.new }
        ensures searches { self.new.searches ≡ self.old.searches }
    {
        let row = self.mover.marks.free_row(&self.mover.pair, x).unwrap();
        self.mover.give(&self.resting, x, row, steps);
        self.mover
            .marks
            .close(&mut self.resting, &self.mover.pair, x, row);
        self.size += 1;
    }

    // Makes the pair larger along a walk that is a shortest one from its free column, or finds that it is best.
    fn improve_along<L: Ledger>(&mut self, steps: &mut Steps<L>) -> bool
        ensures layers { layers_of (T.state self.new.tableau) self.new.matching
            ≡ layers_of (T.state self.old.tableau) self.old.matching }
        ensures grown { IsTrue result → HasGrown T T.state T.pivots self.old self.new steps.old steps.new }
        ensures best { IsFalse result → HasStayed T T.state F.modulus self.old self.new steps.old steps.new }
        ensures searches { self.new.searches ≡ self.old.searches }
    {
        // there are at most 8,192 columns, so that the counts fit
        self.mover.pair.tableau.is_tableau();
        let walk = self.search.shortest_in_turn(
            &self.mover.pair,
            &self.resting.free,
            &self.mover.marks.ends,
            steps,
        );
        self.looks += self.search.looks();
        match walk {
            None => false,
            Some(last) => {
                let x = self.search.step(last);
                let end = self.mover.marks.free_row(&self.mover.pair, x).unwrap();
                self.mover
                    .augment(&self.resting, &self.search, last, end, steps);
                let first = self.search.step(0);
                self.mover
                    .marks
                    .close(&mut self.resting, &self.mover.pair, first, end);
                self.size += 1;
                true
            }
        }
    }

    /// Ends with a best pair: it improves the pair until a search finds no walk.
    ///
    /// From a pair of s columns to one of m, over n columns, `searches` tells m - s + 1 afterwards, and there are at
    /// most as many steps as `AreFewSteps` says: from the empty pair (m + 1) n + m m. These are the pivots and the
    /// looks that `pivots` and `looks` rise by, and all pivots that the tableau makes, as its own count tells.
    pub fn run<L: Ledger>(&mut self, steps: &mut Steps<L>)
        ensures run { HasRun T T.state T.pivots F.modulus self.old self.new steps.old steps.new }
    {
        self.run_from::<L, Brand>(Blank::new(1), steps);
    }

    // Counts the searches by a counter of its own, which is not asked for.
    fn run_from<L: Ledger, M: Ledger>(&mut self, blank: Blank, steps: &mut Steps<L>)
        requires name { blank.name ≡ M.name }
        requires parts { blank.parts ≡ M.parts }
        requires some { 0 < blank.parts }
        ensures run { HasRun T T.state T.pivots F.modulus self.old self.new steps.old steps.new }
    {
        self.run_counted(&mut Steps::<M>::new(blank), steps);
    }

    /// The same, with a count of the searches.
    pub fn run_counted<L: Ledger, M: Ledger>(
        &mut self,
        searches: &mut Steps<M>,
        steps: &mut Steps<L>,
    )
        ensures run { HasRun T T.state T.pivots F.modulus self.old self.new steps.old steps.new }
        ensures counted { searches.new ≡ searches.old + self.new.searches }
    {
        // there are at most 8,192 columns, so that the count fits
        self.mover.pair.tableau.is_tableau();
        let before = self.size;
        let mut made = 1;
        while self.improve(searches, steps) {
            // one for each column that the pair gained, and one that comes next
            made = self.size - before + 1;
        }
        self.searches = made;
    }

    /// Goes on to a best pair of `new`, which is the layered matrix of the model after a change of one equation: a best
    /// pair is kept through the change but for two columns at most. Each count starts at 0 again, and what was left
    /// out is forgotten. All memory is taken before the first change; where it is refused, all stays as it is, but
    /// there may be more room.
    ///
    /// It searches at most seven times, and takes at most fourteen steps for each column of the wider matrix.
    pub fn update<L: Ledger, M: Ledger>(
        &mut self,
        new: &Layered<F>,
        change: Change,
        searches: &mut Steps<L>,
        steps: &mut Steps<M>,
    ) -> Result<(), NoMemory>
        requires best { IsEditOfBest F.modulus change (T.state self.old.tableau) self.old.matching new.now }
        ensures updated { OnOk result (IsUpdated T T.state F.modulus new.now self.new) }
        ensures kept { OnErr result (HasKept T T.state T.pivots self.old self.new) }
        ensures counted { OnOk result (searches.new ≡ searches.old + self.new.searches) }
        ensures told { OnOk result (steps.new ≡ steps.old + (self.new.pivots + self.new.looks)) }
        ensures made { OnOk result (ArePivotsMade (T.pivots self.old.tableau) (T.pivots self.new.tableau) 0
            self.new.pivots) }
        ensures searches { searches.new ≤ searches.old + 7 }
        ensures steps { steps.new ≤ steps.old + 14 * max (T.state self.old.tableau).columns new.now.q.width }
    {
        new.are_layers();
        let places = self.places_of(new, change);
        self.go_on(new, places)?;
        self.run_counted(searches, steps);
        Ok(())
    }

    // What an edit takes out of the layered matrix, and what it puts in.
    fn places_of(&self, new: &Layered<F>, change: Change) -> Places
        requires { IsEditOfBest F.modulus change (T.state self.now.tableau) self.now.matching new.now }
        ensures chain { (q : ℕ → ℕ → ℕ) →
            IsEdit change (layers q (T.state self.now.tableau) self.now.matching) new.now → IsChain F.modulus
            (layers q (T.state self.now.tableau) self.now.matching) (layered_matrix_of new.now) result }
        ensures pair { IsEdited F.modulus (layers_of (T.state self.now.tableau) self.now.matching)
            (size_of (T.state self.now.tableau) self.now.matching) (T.state self.now.tableau) self.now.matching }
    {
        let pair = &self.mover.pair;
        pair.tableau.is_tableau();
        let pattern = pair.mates.pattern();
        Places::of(
            new,
            change,
            pair.tableau.rows(),
            pattern.rows(),
            pair.tableau.columns(),
        )
    }

    // Follows an edit with the pair, and starts anew from it.
    fn go_on(&mut self, new: &Layered<F>, places: Places) -> Result<(), NoMemory>
        requires { IsFollowing F.modulus (layered_matrix_of new.now) places (T.state self.old.tableau)
            self.old.matching }
        ensures edited { OnOk result ((L : LayeredMatrix) (least : ℕ) →
            IsChain F.modulus L (layered_matrix_of new.now) places →
            IsEdited F.modulus L least (T.state self.old.tableau) self.old.matching →
            IsEdited F.modulus (layered_matrix_of new.now) (least - 2) (T.state self.new.tableau) self.new.matching) }
        ensures started { OnOk result (IsStarted T self.new) }
        ensures counted { OnOk result (T.pivots self.new.tableau ≡ T.pivots self.old.tableau) }
        ensures incidence { OnOk result (IsIncidence self.new.matching.pattern × IsIncidence new.now.t) }
        ensures pair { OnOk result (HasTableau F.modulus (layers_of (T.state self.new.tableau) self.new.matching)
            (tableau_of_pair (T.state self.new.tableau) self.new.matching)) }
        ensures kept { OnErr result (HasKept T T.state T.pivots self.old self.new) }
    {
        new.q.is_matrix();
        new.t.is_pattern();
        let fresh = Fresh::take(*self.resting.free.allocator(), new, places.put.q)?;
        let Fresh {
            items,
            search,
            mut resting,
            mut marks,
        } = fresh;
        self.mover
            .pair
            .room(new.q_rows(), new.t_rows(), new.columns())?;
        self.mover.pair.follow(new, places, &items);
        self.mover.pair.tableau.is_tableau();
        self.mover.pair.mates.pattern().is_pattern();
        marks.look(&mut resting, &self.mover.pair);
        self.size = resting.taken();
        self.mover.marks = marks;
        self.mover.pivots = 0;
        self.resting = resting;
        self.search = search;
        self.looks = 0;
        self.searches = 0;
        Ok(())
    }

    /// How many columns the pair has.
    pub fn size(&self) -> usize
        ensures size { result ≡ size_of (T.state self.now.tableau) self.now.matching }
        ensures pair { (q : ℕ → ℕ → ℕ) → AreOpenedEntries F.modulus (T.state self.now.tableau) q →
            HasTableau F.modulus (layers q (T.state self.now.tableau) self.now.matching)
            (tableau_of_pair (T.state self.now.tableau) self.now.matching) }
    {
        self.size
    }

    /// How many pivots there have been since the engine was opened. A run or an improvement that makes the pair larger
    /// adds to it the steps that it took but for the looks, which `looks` tells.
    pub fn pivots(&self) -> usize
        ensures pivots { result ≡ self.now.pivots }
        ensures few { result ≤ size_of (T.state self.now.tableau) self.now.matching * size_of (T.state self.now.tableau)
            self.now.matching }
    {
        self.mover.pivots
    }

    /// How many looks there have been since the engine was opened: for each search what `Search::looks` told of it.
    /// They are at most one for each column that is left out, and for each column of the pair as many as there are
    /// columns.
    pub fn looks(&self) -> usize
        ensures looks { result ≡ self.now.looks }
        ensures few { result ≤ size_of (T.state self.now.tableau) self.now.matching
            * (T.state self.now.tableau).columns
            + size_on (vain_of self.now.found) (T.state self.now.tableau).columns }
    {
        self.looks
    }

    /// How many searches the last run made: 0 before the first one.
    pub fn searches(&self) -> usize
        ensures { result ≡ self.now.searches }
    {
        self.searches
    }

    /// Whether the column is one of the pair's independent columns of Q.
    pub fn in_q(&self, col: usize) -> bool
        requires { col < (T.state self.now.tableau).columns }
        ensures { result ≡ (tableau_of_pair (T.state self.now.tableau) self.now.matching).base col }
    {
        self.mover.pair.tableau.row_of(col).is_some()
    }

    /// The T row that the column is matched with, if it is.
    pub fn mate(&self, col: usize) -> Option<usize>
        requires { col < (T.state self.now.tableau).columns }
        ensures { result ≡ mate_at self.now.matching col }
    {
        self.mover.pair.mates.mate_of_col(col)
    }

    /// The column that the T row is matched with, if it is.
    pub fn mate_of_row(&self, row: usize) -> Option<usize>
        requires { row < incidence_rows self.now.matching.pattern }
        ensures some { IfSome result (λ col. HasPair self.now.matching row col) }
        ensures below { IfSome result (λ col. col < (T.state self.now.tableau).columns) }
        ensures none { IfNone result (IsRowFree self.now.matching row) }
        ensures matching { IsMatching self.now.matching }
    {
        self.mover.pair.mates.mate_of_row(row)
    }

    /// Whether the column is free: not in the pair.
    pub fn free(&self, col: usize) -> bool
        requires { col < (T.state self.now.tableau).columns }
        ensures { result ≡ is_free (tableau_of_pair (T.state self.now.tableau) self.now.matching) col }
    {
        self.resting.free[col]
    }

    /// Whether the column is an end: P has an entry in it at a Q row without base column, or it touches a T row that
    /// is not matched.
    pub fn end(&self, col: usize) -> bool
        requires { col < (T.state self.now.tableau).columns }
        ensures { result ≡ is_end F.modulus (layers_of (T.state self.now.tableau) self.now.matching)
            (tableau_of_pair (T.state self.now.tableau) self.now.matching) col }
    {
        self.mover.marks.ends[col]
    }

    /// A mark for each column, set where it is free.
    pub fn free_columns(&self) -> &[bool]
        ensures length { length result.now ≡ (T.state self.now.tableau).columns }
        ensures marks { (col : ℕ) → col < (T.state self.now.tableau).columns →
            members_of result.now col ≡ is_free (tableau_of_pair (T.state self.now.tableau) self.now.matching) col }
    {
        &self.resting.free
    }

    /// A mark for each column, set where it is an end.
    pub fn end_columns(&self) -> &[bool]
        ensures length { length result.now ≡ (T.state self.now.tableau).columns }
        ensures marks { (col : ℕ) → col < (T.state self.now.tableau).columns →
            members_of result.now col ≡ is_end F.modulus (layers_of (T.state self.now.tableau) self.now.matching)
            (tableau_of_pair (T.state self.now.tableau) self.now.matching) col }
    {
        &self.mover.marks.ends
    }

    /// Whether the column is in the least minimiser of p(X) = rho(X) + gamma(X) - |X|, after `run`.
    pub fn least_minimiser(&self, col: usize) -> bool
        requires { col < (T.state self.now.tableau).columns }
        ensures { result ≡ vain_of self.now.found col }
    {
        self.search.reached_in_vain(col)
    }

    /// The tableau of Q whose base columns are the pair's independent columns.
    pub fn tableau(&self) -> &T
        ensures { result.now ≡ self.now.tableau }
    {
        &self.mover.pair.tableau
    }
}

impl<F: Field, T: Tableau<F>> Arcs for Engine<F, T> {
    ghost places = { λ e. (T.state e.tableau).columns };

    ghost leads = { λ e. leads_to F.modulus (layers_of (T.state e.tableau) e.matching)
        (tableau_of_pair (T.state e.tableau) e.matching) };

    ghost turn = { λ e. turn_of (T.state e.tableau) e.matching };

    fn arc(&self, x: usize, y: usize) -> bool {
        self.mover.pair.arc(x, y)
    }

    fn next_arc(&self, x: usize, from: usize) -> Option<(usize, usize)> {
        self.mover.pair.next_arc(x, from)
    }
}
