//! For each place the list of the places that an arc leads to, where both stand in the same part.

ghost use Rattle.std.specs.Prelude.{◌≡◌, ℕ, ◌<◌, ◌||◌, ◌&&◌, Bool, false, length, vec_len, slice_index, IfOk, OnOk};
ghost use Rattle.part_rules.specs.Listed.{arc_in, AreArcs, inner};
ghost use Rattle.part_search.specs.Neighbours.{listed, IsNeighbour, AreLists};

use std::alloc::{AllocError, Global};

// A list of places for each place.
#[derive(Drop)]
pub struct Neighbours {
    pub lists: Vec<Vec<usize>>,
}

impl Neighbours {
    // So many places, each with an empty list.
    fn open(alloc: Global, places: usize) -> Result<Self, AllocError>
        ensures count { IfOk result (λ s. vec_len s.lists ≡ places) }
        ensures none { IfOk result (λ s. (x y : ℕ) → listed s.lists.items x y ≡ false) }
    {
        let mut lists = Vec::with_capacity(alloc, places)?;
        for _place in 0..places {
            lists.push(Vec::new(alloc))?;
        }
        Ok(Neighbours { lists })
    }

    // Puts a place at the end of the list of another one.
    fn enter(&mut self, from: usize, to: usize) -> Result<(), AllocError>
        requires { from < vec_len self.old.lists }
        ensures { OnOk result (IsNeighbour self.old.lists.items self.new.lists.items from to) }
    {
        self.lists[from].push(to)?;
        Ok(())
    }

    /// For each place, where its arcs lead to within its part.
    pub fn forth(
        alloc: Global,
        arcs: &[(usize, usize)],
        parts: &[usize],
    ) -> Result<Self, AllocError>
        requires { AreArcs (length parts.now) arcs.now }
        ensures { IfOk result (λ s. AreLists (inner (arc_in arcs.now) (slice_index parts.now)) (length parts.now)
            s.lists.items) }
    {
        let mut neighbours = Neighbours::open(alloc, parts.len())?;
        for (from, to) in arcs {
            if parts[*from] == parts[*to] {
                neighbours.enter(*from, *to)?;
            }
        }
        Ok(neighbours)
    }

    /// For each place, from where arcs of its part lead to it.
    pub fn back(alloc: Global, arcs: &[(usize, usize)], parts: &[usize]) -> Result<Self, AllocError>
        requires { AreArcs (length parts.now) arcs.now }
        ensures { IfOk result (λ s. AreLists (λ x y. inner (arc_in arcs.now) (slice_index parts.now) y x)
            (length parts.now) s.lists.items) }
    {
        let mut neighbours = Neighbours::open(alloc, parts.len())?;
        for (from, to) in arcs {
            if parts[*to] == parts[*from] {
                neighbours.enter(*to, *from)?;
            }
        }
        Ok(neighbours)
    }
}
