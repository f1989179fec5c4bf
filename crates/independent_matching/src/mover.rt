//! What moves when a pair grows: its columns, from row to row.

ghost use Rattle.std.specs.Prelude.{◌≡◌, ◌+◌, ◌*◌, ◌<◌, ◌≤◌, true, cond};
ghost use Rattle.limits.specs.Limits.{column_limit};
ghost use Rattle.residue_theory.specs.Sums.{size_on};
ghost use Rattle.row_transform.specs.Bases.{raised};
ghost use Rattle.exchange_graph.specs.Results.{step_of};
ghost use Rattle.mixed_matrices.specs.Arcs.{is_free};
ghost use Rattle.mixed_augmentation_laws.specs.Moves.{IsFreeRow, IsRoute, route};
ghost use Rattle.independent_matching.specs.Engines.{ArePivotSteps};
ghost use Rattle.independent_matching.specs.Marks.{AreMarksOfQ, IsInOrder};
ghost use Rattle.independent_matching.specs.Sides.{CanTake, HasGained, HasTaken, in_q, layers_of, number, tableau_of_pair};

use crate::marks::Marks;
use crate::pair::Pair;
use crate::resting::Resting;
use crate::row::Row;
use exchange_graph::{Search, Steps};
use residue_field::Field;
use row_transform::Tableau;
use std::sync::ledger::Ledger;

// A pair, the marks that its pivots change, and a count of them.
#[derive(Drop)]
pub struct Mover<F: Field, T: Tableau<F>> {
    pub pair: Pair<F, T>,
    pub marks: Marks,
    pub pivots: usize,
}

impl<F: Field, T: Tableau<F>> Mover<F, T> {
    /// Moves the columns of the walk that the search found, from its last one back, which takes the row `end`.
    pub fn augment<L: Ledger>(
        &mut self,
        resting: &Resting,
        search: &Search,
        last: usize,
        end: Row,
        steps: &mut Steps<L>,
    )
        requires order { IsInOrder F.modulus (T.state self.old.pair.tableau) self.old.pair.mates resting.now
            self.old.marks self.old.pivots }
        requires places { search.now.places ≡ (T.state self.old.pair.tableau).columns }
        requires last { last < search.now.places }
        requires route { IsRoute F.modulus (layers_of (T.state self.old.pair.tableau) self.old.pair.mates)
            (tableau_of_pair (T.state self.old.pair.tableau) self.old.pair.mates)
            (route (tableau_of_pair (T.state self.old.pair.tableau) self.old.pair.mates) (step_of search.now) last
            (in_q end) (number end)) }
        ensures order { IsInOrder F.modulus (T.state self.new.pair.tableau) self.new.pair.mates resting.now
            self.new.marks self.new.pivots }
        ensures gained { HasGained F.modulus (T.state self.old.pair.tableau) (T.state self.new.pair.tableau)
            self.old.pair.mates self.new.pair.mates (step_of search.now 0) end }
        ensures pivots { ArePivotSteps (size_on (T.state self.old.pair.tableau).base
            (T.state self.old.pair.tableau).columns + 1) steps.old steps.new self.old.pivots self.new.pivots
            (T.pivots self.old.pair.tableau) (T.pivots self.new.pair.tableau) }
        ensures narrow { (T.state self.old.pair.tableau).columns ≤ column_limit }
    {
        // there are at most 8,192 columns, so that the sum below fits
        self.pair.tableau.is_tableau();
        let mut left = last + 1;
        let mut next = Some(end);
        while let Some(row) = next {
            left -= 1;
            let x = search.step(left);
            next = self.pair.row_of(x);
            self.take(resting, row, x, steps);
        }
    }

    /// Gives the free column x a row that it may take and that no column has.
    pub fn give<L: Ledger>(&mut self, resting: &Resting, x: usize, row: Row, steps: &mut Steps<L>)
        requires order { IsInOrder F.modulus (T.state self.old.pair.tableau) self.old.pair.mates resting.now
            self.old.marks self.old.pivots }
        requires x { x < (T.state self.old.pair.tableau).columns }
        requires free { is_free (tableau_of_pair (T.state self.old.pair.tableau) self.old.pair.mates) x ≡ true }
        requires row { IsFreeRow F.modulus (layers_of (T.state self.old.pair.tableau) self.old.pair.mates)
            (tableau_of_pair (T.state self.old.pair.tableau) self.old.pair.mates) x (in_q row) (number row) }
        ensures order { IsInOrder F.modulus (T.state self.new.pair.tableau) self.new.pair.mates resting.now
            self.new.marks self.new.pivots }
        ensures gained { HasGained F.modulus (T.state self.old.pair.tableau) (T.state self.new.pair.tableau)
            self.old.pair.mates self.new.pair.mates x row }
        ensures pivots { ArePivotSteps 1 steps.old steps.new self.old.pivots self.new.pivots
            (T.pivots self.old.pair.tableau) (T.pivots self.new.pair.tableau) }
        ensures narrow { (T.state self.old.pair.tableau).columns ≤ column_limit }
    {
        // there are at most 8,192 columns, so that the size fits
        self.pair.tableau.is_tableau();
        self.take(resting, row, x, steps);
    }

    // Moves column x to the row, out of the T row that it has; for a Q row that is a pivot, and the columns that it
    // touches are looked at anew.
    fn take<L: Ledger>(&mut self, resting: &Resting, row: Row, x: usize, steps: &mut Steps<L>)
        requires width { self.old.pair.mates.pattern.width ≡ (T.state self.old.pair.tableau).columns }
        requires few { self.old.pivots ≤ 16384 * column_limit }
        requires x { x < (T.state self.old.pair.tableau).columns }
        requires can { CanTake F.modulus (layers_of (T.state self.old.pair.tableau) self.old.pair.mates)
            (tableau_of_pair (T.state self.old.pair.tableau) self.old.pair.mates) row x }
        requires marks { AreMarksOfQ F.modulus (T.state self.old.pair.tableau) resting.now self.old.marks }
        ensures taken { HasTaken F.modulus (T.state self.old.pair.tableau) (T.state self.new.pair.tableau)
            self.old.pair.mates self.new.pair.mates row x }
        ensures steps { steps.new ≡ steps.old + cond (in_q row) 1 0 }
        ensures pivots { self.new.pivots ≡ self.old.pivots + cond (in_q row) 1 0 }
        ensures made { T.pivots self.new.pair.tableau ≡ raised (T.pivots self.old.pair.tableau) (cond (in_q row) 1 0) }
        ensures marks { AreMarksOfQ F.modulus (T.state self.new.pair.tableau) resting.now self.new.marks }
    {
        match row {
            Row::Q(at) => {
                self.marks.touch(&self.pair, at);
                self.pair.take(row, x, steps);
                self.marks.settle(resting, &self.pair, at);
                self.pivots += 1;
            }
            Row::T(_) => self.pair.take(row, x, steps),
        }
    }
}
