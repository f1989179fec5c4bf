//! The arcs of a pair, backwards.

ghost use Rattle.std.specs.Prelude.{◌≡◌, ◌<◌};
ghost use Rattle.independent_matching.specs.Sides.{layers_of, tableau_of_pair};
ghost use Rattle.row_choice_laws.specs.ColumnSearches.{leads_back};
ghost use Rattle.equation_choice.specs.Pairs.{apart_columns};

use crate::pair::Pair;
use exchange_graph::Arcs;
use residue_field::Field;
use row_transform::Tableau;

// From each column to the other columns in which its row has an entry.
#[derive(Drop)]
pub struct Back<'a, F: Field, T: Tableau<F>> {
    pub pair: &'a Pair<F, T>,
}

impl<'a, F: Field, T: Tableau<F>> Arcs for Back<'a, F, T> {
    // where no column has two rows, so that its row tells all
    ghost places = { λ s. apart_columns (T.state s.pair.now.tableau) s.pair.now.mates };

    ghost leads = { λ s. leads_back F.modulus (layers_of (T.state s.pair.now.tableau) s.pair.now.mates)
        (tableau_of_pair (T.state s.pair.now.tableau) s.pair.now.mates) };

    ghost turn = { λ s x y. y };

    fn arc(&self, x: usize, y: usize) -> bool {
        match self.pair.row_of(x) {
            Some(row) => x != y && self.pair.has_entry(row, y),
            None => false,
        }
    }

    fn next_arc(&self, x: usize, from: usize) -> Option<(usize, usize)> {
        match self.pair.row_of(x) {
            Some(row) => match self.pair.next_other(row, x, from) {
                Some(y) => Some((y, y + 1)),
                None => None,
            },
            None => None,
        }
    }
}
