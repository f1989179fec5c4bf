//! Arcs of named shapes.

ghost use Rattle.bench_lattice.specs.Shapes.{leads_of};

use exchange_graph::Arcs;

/// Which places lead to which.
#[derive(Clone, Copy, Drop)]
pub enum Kind {
    /// Each to the next one.
    Chain,
    /// Each to the next one, and the last to the first.
    Ring,
    /// None to any.
    Antichain,
    /// Each to all after it.
    Dense,
    /// Each of the first half to all of the second.
    Halves,
}

impl Kind {
    pub(crate) fn named(name: &str) -> Option<Self> {
        match name {
            "chain" => Some(Kind::Chain),
            "ring" => Some(Kind::Ring),
            "antichain" => Some(Kind::Antichain),
            "dense" => Some(Kind::Dense),
            "halves" => Some(Kind::Halves),
            _ => None,
        }
    }
}

/// Arcs of a kind between a number of places.
#[derive(Drop)]
pub struct Shape {
    pub kind: Kind,
    pub places: usize,
}

impl Arcs for Shape {
    ghost places = { λ s. s.places };

    ghost leads = { λ s x y. leads_of s.kind s.places x y };

    ghost turn = { λ _ _ y. y };

    fn arc(&self, x: usize, y: usize) -> bool {
        let places = self.places;
        match self.kind {
            Kind::Chain => y == x + 1,
            Kind::Ring => y == (x + 1) % places,
            Kind::Antichain => false,
            Kind::Dense => x < y,
            Kind::Halves => x < places / 2 && y >= places / 2,
        }
    }

    fn next_arc(&self, x: usize, from: usize) -> Option<(usize, usize)> {
        for y in from..self.places {
            if self.arc(x, y) {
                return Some((y, y + 1));
            }
        }
        None
    }
}
