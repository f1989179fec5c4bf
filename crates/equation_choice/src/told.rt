//! The equations that are told by the rows that a try in vain has reached.

ghost use Rattle.std.specs.Prelude.{◌≡◌, ◌<◌, ◌≤◌, length};
ghost use Rattle.std.specs.List.{All};
ghost use Rattle.exchange_graph.specs.Results.{reached_of};
ghost use Rattle.independent_matching.specs.Sides.{layers_of};
ghost use Rattle.row_choice_laws.specs.RowSearches.{places};
ghost use Rattle.equation_choice.specs.Pairs.{IsPairOver};
ghost use Rattle.equation_choice.specs.Told.{AddsMarks, IsToldByColumn, IsToldByReached, IsToldByRow};

use crate::pair::Pair;
use exchange_graph::Search;
use mixed_model::Layered;
use residue_field::Field;
use row_transform::{Tableau, Which};

impl<F: Field, T: Tableau<F>> Pair<F, T> {
    // Marks the equations without symbols whose Q rows the Q row is made with.
    fn tell_q(&self, layered: &Layered<F>, row: usize, symbols: &[bool], told: &mut [bool])
        requires over { IsPairOver F.modulus layered.now (T.state self.now.tableau) self.now.mates }
        requires row { row < (T.state self.now.tableau).rows }
        requires origins { All (λ equation. equation < length told.old) layered.now.q_origins }
        requires symbols { length symbols.now ≡ length told.old }
        ensures { AddsMarks (IsToldByRow F.modulus layered.now (T.state self.now.tableau) symbols.now row) told.old
            told.new }
    {
        // there are at most 8,192 rows, so that the sum fits
        self.tableau.is_tableau();
        layered.are_layers();
        let mut at = 0;
        while let Some(found) = self.tableau.next_in_row(Which::S, row, at) {
            // its number is below the modulus, so that it is not zero modulo it
            found.1.in_field();
            let equation = layered.q_origin(found.0);
            if !symbols[equation] {
                told[equation] = true;
            }
            at = found.0 + 1;
        }
    }

    // Marks the equation of the T row.
    fn tell_t(&self, layered: &Layered<F>, row: usize, symbols: &[bool], told: &mut [bool])
        requires over { IsPairOver F.modulus layered.now (T.state self.now.tableau) self.now.mates }
        requires row { (T.state self.now.tableau).rows ≤ row }
        requires below { row < places (layers_of (T.state self.now.tableau) self.now.mates) }
        requires origins { All (λ equation. equation < length told.old) layered.now.t_origins }
        requires symbols { length symbols.now ≡ length told.old }
        ensures { AddsMarks (IsToldByRow F.modulus layered.now (T.state self.now.tableau) symbols.now row) told.old
            told.new }
    {
        layered.are_layers();
        let rows = self.tableau.rows();
        told[layered.t_origin(row - rows)] = true;
    }

    /// Marks the equations that a row tells: that of a T row, and those without symbols whose Q rows a Q row is made with.
    pub fn tell_row(&self, layered: &Layered<F>, row: usize, symbols: &[bool], told: &mut [bool])
        requires over { IsPairOver F.modulus layered.now (T.state self.now.tableau) self.now.mates }
        requires below { row < places (layers_of (T.state self.now.tableau) self.now.mates) }
        requires q_origins { All (λ equation. equation < length told.old) layered.now.q_origins }
        requires t_origins { All (λ equation. equation < length told.old) layered.now.t_origins }
        requires symbols { length symbols.now ≡ length told.old }
        ensures { AddsMarks (IsToldByRow F.modulus layered.now (T.state self.now.tableau) symbols.now row) told.old
            told.new }
    {
        if row < self.tableau.rows() {
            self.tell_q(layered, row, symbols, told);
        } else {
            self.tell_t(layered, row, symbols, told);
        }
    }

    // Marks the equations that the row of a column tells, if it is reached and has one.
    fn tell_column(
        &self,
        layered: &Layered<F>,
        search: &Search,
        x: usize,
        symbols: &[bool],
        told: &mut [bool],
    )
        requires over { IsPairOver F.modulus layered.now (T.state self.now.tableau) self.now.mates }
        requires places { search.now.places ≡ (T.state self.now.tableau).columns }
        requires x { x < (T.state self.now.tableau).columns }
        requires q_origins { All (λ equation. equation < length told.old) layered.now.q_origins }
        requires t_origins { All (λ equation. equation < length told.old) layered.now.t_origins }
        requires symbols { length symbols.now ≡ length told.old }
        ensures { AddsMarks (IsToldByColumn F.modulus layered.now (T.state self.now.tableau) self.now.mates symbols.now
            (reached_of search.now) x) told.old told.new }
    {
        if !search.reached(x) {
            return;
        }
        if let Some(row) = self.row_of(x) {
            self.tell_row(layered, row, symbols, told);
        }
    }

    /// Marks the equations that the rows of the reached columns tell.
    pub fn tell_reached(
        &self,
        layered: &Layered<F>,
        search: &Search,
        symbols: &[bool],
        told: &mut [bool],
    )
        requires over { IsPairOver F.modulus layered.now (T.state self.now.tableau) self.now.mates }
        requires places { search.now.places ≡ (T.state self.now.tableau).columns }
        requires q_origins { All (λ equation. equation < length told.old) layered.now.q_origins }
        requires t_origins { All (λ equation. equation < length told.old) layered.now.t_origins }
        requires symbols { length symbols.now ≡ length told.old }
        ensures { AddsMarks (IsToldByReached F.modulus layered.now (T.state self.now.tableau) self.now.mates symbols.now
            (reached_of search.now) (T.state self.now.tableau).columns) told.old told.new }
    {
        for x in 0..self.tableau.columns() {
            self.tell_column(layered, search, x, symbols, told);
        }
    }
}
