//! A pair: independent columns of Q and matched columns of T, as the arcs of its exchange graph.

ghost use Rattle.std.specs.Prelude.{◌≡◌, ℕ, ◌+◌, ◌<◌, ◌≤◌, ◌%◌, ◌⊎◌, ◌&&◌, Bool, true, false, cond, min, not, eqb};
ghost use Rattle.std.specs.Prelude.{Option, Some, IfSome, IfNone, IsTrue, IsFalse};
ghost use Rattle.sparse_t.specs.Incidences.{touches};
ghost use Rattle.bipartite_matching.specs.Matchings.{HasPair, IsMatching};
ghost use Rattle.row_transform.specs.Bases.{raised};
ghost use Rattle.row_transform.specs.Tableaus.{has_entry};
ghost use Rattle.exchange_graph.specs.Turns.{HaveHadTurns, HasNextTurn};
ghost use Rattle.limits.specs.Limits.{column_limit};
ghost use Rattle.mixed_matrices.specs.Arcs.{leads_to};
ghost use Rattle.mixed_augmentation_laws.specs.Moves.{IsUnlinked};
ghost use Rattle.independent_matching.specs.Turns.{t_turn, t_turns, turn_of};
ghost use Rattle.independent_matching.specs.Sides.{IsFreeQRow, IsFreeTRow, common_columns, q_arc, t_arc, is_matched};
ghost use Rattle.independent_matching.specs.Sides.{mate_of, layers_of, tableau_of_pair, in_q, row_had, CanTake, HasTaken};

use crate::row::Row;
use bipartite_matching::Match;
use exchange_graph::{Arcs, Steps};
use residue_field::Field;
use row_transform::Tableau;
use std::marker::PhantomData;
use std::sync::ledger::Ledger;

// A tableau of Q and a matching in T over the same columns.
#[derive(Drop)]
pub struct Pair<F: Field, T: Tableau<F>> {
    pub tableau: T,
    pub mates: Match,
    pub field: PhantomData<F>,
}

impl<F: Field, T: Tableau<F>> Arcs for Pair<F, T> {
    // where both parts have the same columns, so that what either tells is a place
    ghost places = { λ s. common_columns (T.state s.tableau) s.mates };

    ghost leads = { λ s. leads_to F.modulus (layers_of (T.state s.tableau) s.mates)
        (tableau_of_pair (T.state s.tableau) s.mates) };

    ghost turn = { λ s. turn_of (T.state s.tableau) s.mates };

    #[tactic(auto, unfolding(mixed_matrices::specs::Arcs::leads_to))]
    fn arc(&self, x: usize, y: usize) -> bool {
        x != y && (self.leads_in_q(x, y) || self.leads_in_t(x, y))
    }

    fn next_arc(&self, x: usize, from: usize) -> Option<(usize, usize)> {
        if let Some(found) = self.next_in_t(x, from) {
            return Some(found);
        }
        let count = self.mates.pattern().rows_of(x).len();
        let (y, next) = self.next_in_q(x, from.saturating_sub(count))?;
        Some((y, count + next))
    }
}

impl<F: Field, T: Tableau<F>> Pair<F, T> {
    /// Whether P has an entry there that is not zero.
    pub fn has_entry(&self, row: usize, x: usize) -> bool
        requires row { row < (T.state self.now.tableau).rows }
        requires x { x < (T.state self.now.tableau).columns }
        ensures { result ≡ has_entry F.modulus (T.state self.now.tableau) row x }
    {
        !self.tableau.entry(row, x).is_zero()
    }

    fn leads_in_q(&self, x: usize, y: usize) -> bool
        requires x { x < (T.state self.now.tableau).columns }
        requires y { y < (T.state self.now.tableau).columns }
        ensures { result ≡ (T.state self.now.tableau).base y
            && has_entry F.modulus (T.state self.now.tableau) ((T.state self.now.tableau).row y) x }
    {
        match self.tableau.row_of(y) {
            None => false,
            Some(row) => self.has_entry(row, x),
        }
    }

    fn leads_in_t(&self, x: usize, y: usize) -> bool
        requires x { x < self.now.mates.pattern.width }
        requires y { y < self.now.mates.pattern.width }
        ensures { result ≡ is_matched self.now.mates y && touches self.now.mates.pattern (mate_of self.now.mates y) x }
    {
        match self.mates.mate_of_col(y) {
            None => false,
            Some(row) => self.mates.pattern().touches(row, x),
        }
    }

    // The next other column to which x leads by its T row, where `from` of the T rows that touch x are gone over, and
    // how many then are.
    fn next_in_t(&self, x: usize, from: usize) -> Option<(usize, usize)>
        requires x { x < self.now.mates.pattern.width }
        ensures none { IfNone result (HaveHadTurns (t_arc self.now.mates x) (t_turn self.now.mates x)
            self.now.mates.pattern.width from) }
        ensures some { IfSome result (λ (y, next). HasNextTurn (t_arc self.now.mates x) (t_turn self.now.mates x)
            self.now.mates.pattern.width from y next) }
        ensures few { IfSome result (λ (y, next). next ≤ t_turns self.now.mates x) }
    {
        let rows = self.mates.pattern().rows_of(x);
        for at in from..rows.len() {
            match self.mates.mate_of_row(rows[at] as usize) {
                Some(y) if y != x => return Some((y, at + 1)),
                _ => {}
            }
        }
        None
    }

    // The next other column to which x leads by its Q row, from row `from` on, and the row to go on with.
    fn next_in_q(&self, x: usize, from: usize) -> Option<(usize, usize)>
        requires x { x < (T.state self.now.tableau).columns }
        ensures none { IfNone result (HaveHadTurns (q_arc F.modulus (T.state self.now.tableau) x)
            (T.state self.now.tableau).row (T.state self.now.tableau).columns from) }
        ensures some { IfSome result (λ (y, next). HasNextTurn (q_arc F.modulus (T.state self.now.tableau) x)
            (T.state self.now.tableau).row (T.state self.now.tableau).columns from y next) }
        ensures few { IfSome result (λ (y, next). next ≤ column_limit) }
    {
        // there are at most 8,192 rows, so that the sum below fits
        self.tableau.is_tableau();
        let mut start = from;
        while let Some(row) = self.tableau.next_entry(x, start) {
            match self.tableau.base_of(row) {
                Some(y) if y != x => return Some((y, row + 1)),
                _ => start = row + 1,
            }
        }
        None
    }

    /// The row that column x has.
    pub fn row_of(&self, x: usize) -> Option<Row>
        requires tableau { x < (T.state self.now.tableau).columns }
        requires mates { x < self.now.mates.pattern.width }
        ensures { result ≡ row_had (tableau_of_pair (T.state self.now.tableau) self.now.mates) x }
    {
        match (self.tableau.row_of(x), self.mates.mate_of_col(x)) {
            (Some(row), _) => Some(Row::Q(row)),
            (None, Some(row)) => Some(Row::T(row)),
            (None, None) => None,
        }
    }

    // Takes column x out of the matching.
    fn leave(&mut self, x: usize)
        requires { x < self.old.mates.pattern.width }
        ensures unlinked { IsUnlinked self.old.mates.pattern.width (is_matched self.old.mates) (mate_of self.old.mates)
            (is_matched self.new.mates) (mate_of self.new.mates) x }
        ensures kept { (row col : ℕ) → HasPair self.new.mates row col → HasPair self.old.mates row col }
        ensures matching { IsMatching self.old.mates }
        ensures pattern { self.new.mates.pattern ≡ self.old.mates.pattern }
        ensures tableau { self.new.tableau ≡ self.old.tableau }
    {
        if let Some(row) = self.mates.mate_of_col(x) {
            self.mates.unlink(row);
        }
    }

    /// Moves column x to the row, out of the T row that it has. For a Q row that is one pivot, and one step.
    pub fn take<L: Ledger>(&mut self, row: Row, x: usize, steps: &mut Steps<L>)
        requires width { self.old.mates.pattern.width ≡ (T.state self.old.tableau).columns }
        requires x { x < (T.state self.old.tableau).columns }
        requires can { CanTake F.modulus (layers_of (T.state self.old.tableau) self.old.mates)
            (tableau_of_pair (T.state self.old.tableau) self.old.mates) row x }
        ensures taken { HasTaken F.modulus (T.state self.old.tableau) (T.state self.new.tableau) self.old.mates
            self.new.mates row x }
        ensures steps { steps.new ≡ steps.old + cond (in_q row) 1 0 }
        ensures made { T.pivots self.new.tableau ≡ raised (T.pivots self.old.tableau) (cond (in_q row) 1 0) }
    {
        self.leave(x);
        match row {
            Row::Q(row) => {
                steps.tick();
                self.tableau.pivot(row, x);
            }
            Row::T(row) => self.mates.link(row, x),
        }
    }

    /// A T row that touches x and that no column has.
    pub fn free_t_row(&self, x: usize) -> Option<usize>
        requires { x < self.now.mates.pattern.width }
        ensures some { IfSome result (IsFreeTRow self.now.mates x) }
        ensures none { IfNone result ((row : ℕ) → IsFreeTRow self.now.mates x row → ⊥) }
    {
        for row in self.mates.pattern().rows_of(x) {
            let row = *row as usize;
            if self.mates.mate_of_row(row).is_none() {
                return Some(row);
            }
        }
        None
    }

    /// Whether it is a Q row that no column has and where P has an entry in x.
    pub fn is_free_q_row(&self, row: usize, x: usize) -> bool
        requires { x < (T.state self.now.tableau).columns }
        ensures yes { IsTrue result → IsFreeQRow F.modulus (T.state self.now.tableau) x row }
        ensures no { IsFalse result → IsFreeQRow F.modulus (T.state self.now.tableau) x row → ⊥ }
    {
        row < self.tableau.rows() && self.tableau.base_of(row).is_none() && self.has_entry(row, x)
    }

    // The first Q row from `from` on that no column has and where P has an entry in x.
    fn free_q_row_from(&self, x: usize, from: usize) -> Option<usize>
        requires x { x < (T.state self.now.tableau).columns }
        ensures some { IfSome result (IsFreeQRow F.modulus (T.state self.now.tableau) x) }
        ensures none { IfNone result ((row : ℕ) → from ≤ row →
            IsFreeQRow F.modulus (T.state self.now.tableau) x row → ⊥) }
    {
        // there are at most 8,192 rows, so that the sum below fits
        self.tableau.is_tableau();
        let mut start = from;
        while let Some(row) = self.tableau.next_entry(x, start) {
            if self.tableau.base_of(row).is_none() {
                return Some(row);
            }
            start = row + 1;
        }
        None
    }

    /// A Q row that no column has and where P has an entry in x. Those from `from` on are looked at first.
    pub fn free_q_row(&self, x: usize, from: usize) -> Option<usize>
        requires x { x < (T.state self.now.tableau).columns }
        ensures some { IfSome result (IsFreeQRow F.modulus (T.state self.now.tableau) x) }
        ensures none { IfNone result ((row : ℕ) → IsFreeQRow F.modulus (T.state self.now.tableau) x row → ⊥) }
    {
        match self.free_q_row_from(x, from) {
            Some(row) => Some(row),
            None => self.free_q_row_from(x, 0),
        }
    }
}
