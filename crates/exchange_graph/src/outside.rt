//! The arcs that are left where some places are left out.

ghost use Rattle.std.specs.Prelude.{length, min};
ghost use Rattle.exchange_graph.specs.Marks.{members_of};
ghost use Rattle.search_laws.specs.Outside.{leads_outside};

use crate::arcs::Arcs;

// Arcs without those to the places that are marked as left out. There is a mark for each place.
#[derive(Drop)]
pub struct Outside<'a, A: Arcs> {
    pub arcs: &'a A,
    pub left: &'a [bool],
}

impl<'a, A: Arcs> Arcs for Outside<'a, A> {
    ghost places = { λ s. min (A.places s.arcs.now) (length s.left.now) };

    ghost leads = { λ s. leads_outside (A.leads s.arcs.now) (members_of s.left.now) };

    ghost turn = { λ s. A.turn s.arcs.now };

    fn arc(&self, x: usize, y: usize) -> bool {
        self.arcs.arc(x, y) && !self.left[y]
    }

    fn next_arc(&self, x: usize, from: usize) -> Option<(usize, usize)> {
        let mut at = from;
        while let Some((y, next)) = self.arcs.next_arc(x, at) {
            if y < self.left.len() && !self.left[y] {
                return Some((y, next));
            }
            at = next;
        }
        None
    }
}
