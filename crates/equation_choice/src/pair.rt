//! A pair: independent columns of Q and matched columns of T, by the rows that the columns have. The rows of Q come
//! first, and then those of T.

ghost use Rattle.std.specs.Prelude.{◌≡◌, ℕ, ◌+◌, ◌<◌, ◌≤◌, ◌&&◌, true, false, not, eqb, length, IfNone, IfSome};
ghost use Rattle.limits.specs.Limits.{column_limit};
ghost use Rattle.dense_q.specs.Tables.{entry};
ghost use Rattle.residue_theory.specs.Ranges.{HasNone, IsLeast};
ghost use Rattle.bipartite_matching.specs.Matchings.{HasPair, IsMatching};
ghost use Rattle.exchange_graph.specs.Marks.{members_of};
ghost use Rattle.exchange_graph.specs.Results.{step_of};
ghost use Rattle.search_laws.specs.Searches.{IsShortest};
ghost use Rattle.mixed_matrices.specs.Arcs.{is_free};
ghost use Rattle.mixed_augmentation_laws.specs.Moves.{IsUnlinked};
ghost use Rattle.row_transform.specs.Tableaus.{IsTableau};
ghost use Rattle.independent_matching.specs.Engines.{layers};
ghost use Rattle.independent_matching.specs.Sides.{is_matched, layers_of, mate_of, tableau_of_pair};
ghost use Rattle.row_choice_laws.specs.ColumnSearches.{leads_back};
ghost use Rattle.row_choice_laws.specs.RowSearches.{has_row_entry, is_bare_row, places};
ghost use Rattle.equation_choice.specs.Pairs.{CanTakePlace, HasGrownBack, HasNoFree, HasTakenPlace, IsPairOver, place_held};

use crate::list::first_from;
use bipartite_matching::Match;
use exchange_graph::Search;
use mixed_model::Layered;
use residue_field::Field;
use row_transform::{Tableau, Which};
use std::marker::PhantomData;

// A tableau of Q and a matching in T over the same columns.
#[derive(Drop)]
pub struct Pair<F: Field, T: Tableau<F>> {
    pub tableau: T,
    pub mates: Match,
    pub field: PhantomData<F>,
}

impl<F: Field, T: Tableau<F>> Pair<F, T> {
    /// The row that column x has.
    pub fn row_of(&self, x: usize) -> Option<usize>
        requires tableau { x < (T.state self.now.tableau).columns }
        requires mates { x < self.now.mates.pattern.width }
        ensures row { result ≡ place_held (layers_of (T.state self.now.tableau) self.now.mates)
            (tableau_of_pair (T.state self.now.tableau) self.now.mates) x }
        ensures below { IfSome result (λ row.
            row < places (layers_of (T.state self.now.tableau) self.now.mates)) }
        ensures tableau { IsTableau F.modulus (T.state self.now.tableau) }
    {
        self.tableau.is_tableau();
        // there are at most 8,192 rows of either kind, so that the sum fits
        self.mates.pattern().is_pattern();
        let rows = self.tableau.rows();
        match (self.tableau.row_of(x), self.mates.mate_of_col(x)) {
            (Some(row), _) => Some(row),
            (None, Some(row)) => Some(rows + row),
            (None, None) => None,
        }
    }

    /// Whether the row has an entry in column x.
    pub fn has_entry(&self, row: usize, x: usize) -> bool
        requires row { row < places (layers_of (T.state self.now.tableau) self.now.mates) }
        requires tableau { x < (T.state self.now.tableau).columns }
        requires mates { x < self.now.mates.pattern.width }
        ensures { result ≡ has_row_entry F.modulus (layers_of (T.state self.now.tableau) self.now.mates)
            (tableau_of_pair (T.state self.now.tableau) self.now.mates) row x }
    {
        let rows = self.tableau.rows();
        if row < rows {
            !self.tableau.entry(row, x).is_zero()
        } else {
            self.mates.pattern().touches(row - rows, x)
        }
    }

    /// Whether no column has the row.
    pub fn is_bare(&self, row: usize) -> bool
        requires row { row < places (layers_of (T.state self.now.tableau) self.now.mates) }
        requires width { self.now.mates.pattern.width ≡ (T.state self.now.tableau).columns }
        ensures { result ≡ is_bare_row (layers_of (T.state self.now.tableau) self.now.mates)
            (tableau_of_pair (T.state self.now.tableau) self.now.mates) row }
    {
        let rows = self.tableau.rows();
        if row < rows {
            self.tableau.base_of(row).is_none()
        } else {
            self.mates.mate_of_row(row - rows).is_none()
        }
    }

    // The first column from `from` on in which P has an entry in the row.
    fn next_in_q(&self, row: usize, from: usize) -> Option<usize>
        requires row { row < (T.state self.now.tableau).rows }
        ensures none { IfNone result (HasNone (has_row_entry F.modulus
            (layers_of (T.state self.now.tableau) self.now.mates)
            (tableau_of_pair (T.state self.now.tableau) self.now.mates) row) from
            (T.state self.now.tableau).columns) }
        ensures least { IfSome result (IsLeast (has_row_entry F.modulus
            (layers_of (T.state self.now.tableau) self.now.mates)
            (tableau_of_pair (T.state self.now.tableau) self.now.mates) row) from
            (T.state self.now.tableau).columns) }
    {
        match self.tableau.next_in_row(Which::P, row, from) {
            Some(found) => {
                // its number is below the modulus, so that it is not zero modulo it
                found.1.in_field();
                Some(found.0)
            }
            None => None,
        }
    }

    // The first column from `from` on that the T row touches.
    fn next_in_t(&self, row: usize, from: usize) -> Option<usize>
        requires row { (T.state self.now.tableau).rows ≤ row }
        requires below { row < places (layers_of (T.state self.now.tableau) self.now.mates) }
        requires width { self.now.mates.pattern.width ≡ (T.state self.now.tableau).columns }
        ensures none { IfNone result (HasNone (has_row_entry F.modulus
            (layers_of (T.state self.now.tableau) self.now.mates)
            (tableau_of_pair (T.state self.now.tableau) self.now.mates) row) from
            (T.state self.now.tableau).columns) }
        ensures least { IfSome result (IsLeast (has_row_entry F.modulus
            (layers_of (T.state self.now.tableau) self.now.mates)
            (tableau_of_pair (T.state self.now.tableau) self.now.mates) row) from
            (T.state self.now.tableau).columns) }
    {
        let rows = self.tableau.rows();
        first_from(self.mates.pattern().row(row - rows), from)
    }

    /// The first column from `from` on in which the row has an entry.
    pub fn next_in(&self, row: usize, from: usize) -> Option<usize>
        requires row { row < places (layers_of (T.state self.now.tableau) self.now.mates) }
        requires width { self.now.mates.pattern.width ≡ (T.state self.now.tableau).columns }
        ensures none { IfNone result (HasNone (has_row_entry F.modulus
            (layers_of (T.state self.now.tableau) self.now.mates)
            (tableau_of_pair (T.state self.now.tableau) self.now.mates) row) from
            (T.state self.now.tableau).columns) }
        ensures least { IfSome result (IsLeast (has_row_entry F.modulus
            (layers_of (T.state self.now.tableau) self.now.mates)
            (tableau_of_pair (T.state self.now.tableau) self.now.mates) row) from
            (T.state self.now.tableau).columns) }
    {
        if row < self.tableau.rows() {
            self.next_in_q(row, from)
        } else {
            self.next_in_t(row, from)
        }
    }

    /// The first column from `from` on, other than x, in which the row has an entry.
    pub fn next_other(&self, row: usize, x: usize, from: usize) -> Option<usize>
        requires row { row < places (layers_of (T.state self.now.tableau) self.now.mates) }
        requires width { self.now.mates.pattern.width ≡ (T.state self.now.tableau).columns }
        requires x { x < (T.state self.now.tableau).columns }
        ensures none { IfNone result (HasNone (λ y. not (eqb x y) && has_row_entry F.modulus
            (layers_of (T.state self.now.tableau) self.now.mates)
            (tableau_of_pair (T.state self.now.tableau) self.now.mates) row y) from
            (T.state self.now.tableau).columns) }
        ensures least { IfSome result (IsLeast (λ y. not (eqb x y) && has_row_entry F.modulus
            (layers_of (T.state self.now.tableau) self.now.mates)
            (tableau_of_pair (T.state self.now.tableau) self.now.mates) row y) from
            (T.state self.now.tableau).columns) }
        ensures narrow { (T.state self.now.tableau).columns ≤ column_limit }
    {
        // there are at most 8,192 columns, so that the sum fits
        self.tableau.is_tableau();
        match self.next_in(row, from) {
            Some(y) if y == x => self.next_in(row, x + 1),
            found => found,
        }
    }

    /// Marks the columns in which the row has an entry, and no others.
    pub fn mark_entries(&self, row: usize, marks: &mut [bool])
        requires row { row < places (layers_of (T.state self.now.tableau) self.now.mates) }
        requires width { self.now.mates.pattern.width ≡ (T.state self.now.tableau).columns }
        requires marks { length marks.old ≡ (T.state self.now.tableau).columns }
        ensures marks { length marks.new ≡ (T.state self.now.tableau).columns }
        ensures entries { (x : ℕ) → x < (T.state self.now.tableau).columns → members_of marks.new x
            ≡ has_row_entry F.modulus (layers_of (T.state self.now.tableau) self.now.mates)
            (tableau_of_pair (T.state self.now.tableau) self.now.mates) row x }
    {
        marks.fill(false);
        let mut at = 0;
        while let Some(x) = self.next_in(row, at) {
            marks[x] = true;
            at = x + 1;
        }
    }

    /// Marks the columns that have no row, and no others.
    pub fn mark_free(&self, marks: &mut [bool])
        requires width { self.now.mates.pattern.width ≡ (T.state self.now.tableau).columns }
        requires marks { length marks.old ≡ (T.state self.now.tableau).columns }
        ensures marks { length marks.new ≡ (T.state self.now.tableau).columns }
        ensures free { (x : ℕ) → x < (T.state self.now.tableau).columns → members_of marks.new x
            ≡ is_free (tableau_of_pair (T.state self.now.tableau) self.now.mates) x }
    {
        for x in 0..marks.len() {
            marks[x] = self.row_of(x).is_none();
        }
    }

    /// A column without a row in which the row has an entry, if there is one.
    pub fn free_entry(&self, row: usize) -> Option<usize>
        requires row { row < places (layers_of (T.state self.now.tableau) self.now.mates) }
        requires width { self.now.mates.pattern.width ≡ (T.state self.now.tableau).columns }
        ensures below { IfSome result (λ x. x < (T.state self.now.tableau).columns) }
        ensures entry { IfSome result (λ x. has_row_entry F.modulus
            (layers_of (T.state self.now.tableau) self.now.mates)
            (tableau_of_pair (T.state self.now.tableau) self.now.mates) row x ≡ true) }
        ensures free { IfSome result (λ x. is_free (tableau_of_pair (T.state self.now.tableau) self.now.mates) x
            ≡ true) }
        ensures none { IfNone result (HasNoFree (T.state self.now.tableau).columns (has_row_entry F.modulus
            (layers_of (T.state self.now.tableau) self.now.mates)
            (tableau_of_pair (T.state self.now.tableau) self.now.mates) row)
            (is_free (tableau_of_pair (T.state self.now.tableau) self.now.mates))) }
    {
        // there are at most 8,192 columns, so that the sum fits
        self.tableau.is_tableau();
        let mut at = 0;
        while let Some(x) = self.next_in(row, at) {
            if self.row_of(x).is_none() {
                return Some(x);
            }
            at = x + 1;
        }
        None
    }

    /// Takes column x out of the matching.
    pub fn leave(&mut self, x: usize)
        requires { x < self.old.mates.pattern.width }
        ensures unlinked { IsUnlinked self.old.mates.pattern.width (is_matched self.old.mates) (mate_of self.old.mates)
            (is_matched self.new.mates) (mate_of self.new.mates) x }
        ensures kept { (row col : ℕ) → HasPair self.new.mates row col → HasPair self.old.mates row col }
        ensures matching { IsMatching self.old.mates }
        ensures still { IsMatching self.new.mates }
        ensures pattern { self.new.mates.pattern ≡ self.old.mates.pattern }
        ensures tableau { self.new.tableau ≡ self.old.tableau }
    {
        if let Some(row) = self.mates.mate_of_col(x) {
            self.mates.unlink(row);
        }
    }

    /// Moves column x to the row, out of the T row that it has. For a Q row that is one pivot.
    pub fn take(&mut self, row: usize, x: usize)
        requires width { self.old.mates.pattern.width ≡ (T.state self.old.tableau).columns }
        requires x { x < (T.state self.old.tableau).columns }
        requires can { CanTakePlace F.modulus (layers_of (T.state self.old.tableau) self.old.mates)
            (tableau_of_pair (T.state self.old.tableau) self.old.mates) row x }
        ensures taken { HasTakenPlace F.modulus (T.state self.old.tableau) (T.state self.new.tableau) self.old.mates
            self.new.mates row x }
    {
        let rows = self.tableau.rows();
        self.leave(x);
        if row < rows {
            self.tableau.pivot(row, x);
        } else {
            self.mates.link(row - rows, x);
        }
    }

    /// Moves column x to the row, which has an entry there, where neither has the other: along the walk back of no arcs.
    pub fn grow_at(&mut self, layered: &Layered<F>, from: usize, x: usize)
        requires over { IsPairOver F.modulus layered.now (T.state self.old.tableau) self.old.mates }
        requires x { x < (T.state self.old.tableau).columns }
        requires from { from < places (layers_of (T.state self.old.tableau) self.old.mates) }
        requires bare { is_bare_row (layers_of (T.state self.old.tableau) self.old.mates)
            (tableau_of_pair (T.state self.old.tableau) self.old.mates) from ≡ true }
        requires entry { has_row_entry F.modulus (layers_of (T.state self.old.tableau) self.old.mates)
            (tableau_of_pair (T.state self.old.tableau) self.old.mates) from x ≡ true }
        requires free { is_free (tableau_of_pair (T.state self.old.tableau) self.old.mates) x ≡ true }
        ensures over { IsPairOver F.modulus layered.now (T.state self.new.tableau) self.new.mates }
        ensures layers { layers_of (T.state self.new.tableau) self.new.mates
            ≡ layers_of (T.state self.old.tableau) self.old.mates }
        ensures walk { IsShortest (leads_back F.modulus
            (layers (entry layered.now.q) (T.state self.old.tableau) self.old.mates)
            (tableau_of_pair (T.state self.old.tableau) self.old.mates)) (T.state self.old.tableau).columns
            (has_row_entry F.modulus (layers (entry layered.now.q) (T.state self.old.tableau) self.old.mates)
            (tableau_of_pair (T.state self.old.tableau) self.old.mates) from)
            (is_free (tableau_of_pair (T.state self.old.tableau) self.old.mates)) (λ _. x) 0 }
        ensures grown { HasGrownBack F.modulus
            (layers (entry layered.now.q) (T.state self.old.tableau) self.old.mates)
            (T.state self.old.tableau).s (T.state self.new.tableau).s
            (tableau_of_pair (T.state self.old.tableau) self.old.mates)
            (tableau_of_pair (T.state self.new.tableau) self.new.mates) from (λ _. x) 0 }
    {
        self.take(from, x);
        self.tableau.is_tableau();
    }

    /// Moves the columns of the walk back that the search found from the row, each to the row that the one before it had,
    /// so that the first one takes the row, and the last one, which is free, the row of the one before it.
    pub fn grow(&mut self, layered: &Layered<F>, search: &Search, from: usize, last: usize)
        requires over { IsPairOver F.modulus layered.now (T.state self.old.tableau) self.old.mates }
        requires places { search.now.places ≡ (T.state self.old.tableau).columns }
        requires last { last < search.now.places }
        requires from { from < places (layers_of (T.state self.old.tableau) self.old.mates) }
        requires bare { is_bare_row (layers_of (T.state self.old.tableau) self.old.mates)
            (tableau_of_pair (T.state self.old.tableau) self.old.mates) from ≡ true }
        requires walk { IsShortest (leads_back F.modulus
            (layers (entry layered.now.q) (T.state self.old.tableau) self.old.mates)
            (tableau_of_pair (T.state self.old.tableau) self.old.mates)) (T.state self.old.tableau).columns
            (has_row_entry F.modulus (layers (entry layered.now.q) (T.state self.old.tableau) self.old.mates)
            (tableau_of_pair (T.state self.old.tableau) self.old.mates) from)
            (is_free (tableau_of_pair (T.state self.old.tableau) self.old.mates)) (step_of search.now) last }
        ensures over { IsPairOver F.modulus layered.now (T.state self.new.tableau) self.new.mates }
        ensures layers { layers_of (T.state self.new.tableau) self.new.mates
            ≡ layers_of (T.state self.old.tableau) self.old.mates }
        ensures grown { HasGrownBack F.modulus
            (layers (entry layered.now.q) (T.state self.old.tableau) self.old.mates)
            (T.state self.old.tableau).s (T.state self.new.tableau).s
            (tableau_of_pair (T.state self.old.tableau) self.old.mates)
            (tableau_of_pair (T.state self.new.tableau) self.new.mates) from (step_of search.now) last }
    {
        // there are at most 8,192 columns, so that the sum fits
        self.tableau.is_tableau();
        let mut row = from;
        for at in 0..last + 1 {
            let x = search.step(at);
            let next = self.row_of(x);
            self.take(row, x);
            row = next.unwrap_or(row);
        }
        self.tableau.is_tableau();
    }
}
