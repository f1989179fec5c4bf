//! What rests while the columns of a walk move: it is looked at anew where the walk ends.

ghost use Rattle.std.specs.Prelude.{◌≡◌, ℕ, ◌<◌, length, not};
ghost use Rattle.residue_theory.specs.Sums.{size_on};
ghost use Rattle.exchange_graph.specs.Marks.{members_of};
ghost use Rattle.mixed_matrices.specs.Arcs.{is_free};
ghost use Rattle.independent_matching.specs.Sides.{tableau_of_pair};

use crate::pair::Pair;
use residue_field::Field;
use row_transform::Tableau;

// The marks of the free columns, and of those that an end is made of by a T row that no column has.
#[derive(Drop)]
pub struct Resting {
    pub free: Vec<bool>,
    pub by_t: Vec<bool>,
}

impl Resting {
    /// Marks the free columns of a pair.
    pub fn mark_free<F: Field, T: Tableau<F>>(&mut self, pair: &Pair<F, T>)
        requires width { pair.now.mates.pattern.width ≡ (T.state pair.now.tableau).columns }
        requires count { length self.old.free.items ≡ (T.state pair.now.tableau).columns }
        ensures free { (x : ℕ) → x < (T.state pair.now.tableau).columns →
            members_of self.new.free.items x ≡ is_free (tableau_of_pair (T.state pair.now.tableau) pair.now.mates) x }
        ensures count { length self.new.free.items ≡ length self.old.free.items }
        ensures by_t { self.new.by_t ≡ self.old.by_t }
    {
        for x in 0..self.free.len() {
            self.free[x] = pair.row_of(x).is_none();
        }
    }

    /// How many columns are not free.
    pub fn taken(&self) -> usize
        ensures { result ≡ size_on (λ x. not (members_of self.now.free.items x)) (length self.now.free.items) }
    {
        let mut taken = 0;
        for x in 0..self.free.len() {
            if !self.free[x] {
                taken += 1;
            }
        }
        taken
    }
}
