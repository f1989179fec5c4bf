//! Breadth-first search from several places at once, each place looked at once.

ghost use Rattle.std.specs.Prelude.{◌≡◌, ℕ, ◌+◌, ◌<◌, ◌≤◌, Bool, true, false, length, IfOk, IfNone, slice_index};
ghost use Rattle.residue_theory.specs.Sets.{only};
ghost use Rattle.residue_theory.specs.Sums.{size_on};
ghost use Rattle.closed_sets.specs.Closed.{IsReachedSet};
ghost use Rattle.search_laws.specs.Searches.{IsSearch, IsPut, IsGrown, HasStarts};
ghost use Rattle.exchange_graph.specs.Counts.{AreLooksTold, counted_on};
ghost use Rattle.exchange_graph.specs.Marks.{members_of};
ghost use Rattle.exchange_graph.specs.Scans.{IsScan, KeepsWalk, scan_places, scan_state, walk_of, position_of};
ghost use Rattle.exchange_graph.specs.SearchAnswers.{IsSearchAnswer};

use crate::arcs::Arcs;
use crate::steps::Steps;
use std::alloc::{AllocError, Global};
use std::sync::ledger::Ledger;

// `order` lists the places, the `filled` reached ones first and in the order in which they were reached; `position`
// tells where in it each place stands. `depth` is how many arcs lead to a reached place, and `before` the place that
// the last of these comes from. `looks` is how many places the last search for a shortest walk looked at, and
// `all_looks` counts each look from the first one on, whichever call makes it: no look goes without it.
#[derive(Drop)]
pub struct Scan {
    pub order: Vec<usize>,
    pub position: Vec<usize>,
    pub reached: Vec<bool>,
    pub depth: Vec<usize>,
    pub before: Vec<usize>,
    pub walk: Vec<usize>,
    pub filled: usize,
    pub looks: usize,
    pub all_looks: u64,
}

impl Scan {
    /// Room for a search over the places below n.
    pub fn open(alloc: Global, n: usize) -> Result<Self, AllocError>
        ensures stored { IfOk result (λ s. IsScan s) }
        ensures places { IfOk result (λ s. scan_places s ≡ n) }
        ensures looks { IfOk result (λ s. s.looks ≡ 0) }
        ensures all_looks { IfOk result (λ s. s.all_looks ≡ 0) }
    {
        let mut order = Vec::with_capacity(alloc, n)?;
        let mut position = Vec::with_capacity(alloc, n)?;
        let mut reached = Vec::with_capacity(alloc, n)?;
        let mut depth = Vec::with_capacity(alloc, n)?;
        let mut before = Vec::with_capacity(alloc, n)?;
        let mut walk = Vec::with_capacity(alloc, n)?;
        for place in 0..n {
            order.push(place)?;
            position.push(place)?;
            reached.push(false)?;
            depth.push(0)?;
            before.push(place)?;
            walk.push(place)?;
        }
        Ok(Scan {
            order,
            position,
            reached,
            depth,
            before,
            walk,
            filled: 0,
            looks: 0,
            all_looks: 0,
        })
    }

    /// Puts a place that waits at the end of the reached ones.
    pub fn put(&mut self, place: usize, from: usize, depth: usize)
        requires stored { IsScan self.old }
        requires place { place < scan_places self.old }
        requires waits { members_of self.old.reached.items place ≡ false }
        requires room { self.old.filled ≤ position_of self.old place }
        requires from { from < scan_places self.old }
        ensures put { IsPut (scan_state self.old) (scan_state self.new) (position_of self.old place)
            self.old.filled from depth }
        ensures filled { self.new.filled ≡ self.old.filled + 1 }
        ensures kept { KeepsWalk self.old self.new }
        ensures all_looks { self.new.all_looks ≡ self.old.all_looks }
        ensures stored { IsScan self.new }
    {
        let at = self.position[place];
        let filled = self.filled;
        let other = self.order[filled];
        self.order[at] = other;
        self.position[other] = at;
        self.order[filled] = place;
        self.position[place] = filled;
        self.reached[place] = true;
        self.depth[place] = depth;
        self.before[place] = from;
        self.filled = filled + 1;
    }

    /// Reaches no place: takes back those that are reached, and goes over no other.
    pub fn clear(&mut self)
        requires { IsScan self.old }
        ensures reached { (y : ℕ) → y < scan_places self.old → members_of self.new.reached.items y ≡ false }
        ensures filled { self.new.filled ≡ 0 }
        ensures kept { KeepsWalk self.old self.new }
        ensures all_looks { self.new.all_looks ≡ self.old.all_looks }
        ensures stored { IsScan self.new }
    {
        for at in 0..self.filled {
            let place = self.order[at];
            self.reached[place] = false;
        }
        self.filled = 0;
    }

    /// Starts over: reaches the starts alone.
    pub fn start(&mut self, starts: &[bool])
        requires stored { IsScan self.old }
        requires starts { length starts.now ≡ scan_places self.old }
        ensures search { (arc : ℕ → ℕ → Bool) → IsSearch arc (scan_places self.old) (scan_state self.new) 0
            self.new.filled }
        ensures starts { HasStarts (scan_places self.old) (members_of starts.now) (scan_state self.new) }
        ensures kept { KeepsWalk self.old self.new }
        ensures all_looks { self.new.all_looks ≡ self.old.all_looks }
        ensures stored { IsScan self.new }
    {
        self.clear();
        for (place, is_start) in starts.iter().enumerate() {
            if *is_start {
                self.put(place, place, 0);
            }
        }
    }

    // Starts over: reaches one place alone.
    fn start_at(&mut self, place: usize)
        requires stored { IsScan self.old }
        requires place { place < scan_places self.old }
        ensures search { (arc : ℕ → ℕ → Bool) → IsSearch arc (scan_places self.old) (scan_state self.new) 0
            self.new.filled }
        ensures starts { HasStarts (scan_places self.old) (only place) (scan_state self.new) }
        ensures kept { KeepsWalk self.old self.new }
        ensures all_looks { self.new.all_looks ≡ self.old.all_looks }
        ensures stored { IsScan self.new }
    {
        self.clear();
        self.put(place, place, 0);
    }

    /// Looks at the place at `head` of the order: reaches all that it leads to.
    pub fn look<A: Arcs>(&mut self, arcs: &A, head: usize)
        requires stored { IsScan self.old }
        requires places { A.places arcs.now ≡ scan_places self.old }
        requires head { head < self.old.filled }
        requires search { IsSearch (A.leads arcs.now) (scan_places self.old) (scan_state self.old) head
            self.old.filled }
        ensures search { IsSearch (A.leads arcs.now) (scan_places self.old) (scan_state self.new) (head + 1)
            self.new.filled }
        ensures grown { IsGrown (scan_places self.old) (scan_state self.old) (scan_state self.new) self.old.filled }
        ensures kept { KeepsWalk self.old self.new }
        ensures all_looks { self.new.all_looks ≡ counted_on self.old.all_looks 1 }
        ensures stored { IsScan self.new }
    {
        let place = self.order[head];
        let depth = self.depth[place] + 1;
        self.all_looks = self.all_looks.saturating_add(1);
        let mut from = 0;
        while let Some((to, next)) = arcs.next_arc(place, from) {
            if !self.reached[to] {
                self.put(to, place, depth);
            }
            from = next;
        }
    }

    /// Writes down the walk to a place, from its end backwards.
    pub fn trace(&mut self, end: usize, depth: usize)
        requires stored { IsScan self.old }
        requires end { end < scan_places self.old }
        requires depth { depth < scan_places self.old }
        ensures last { walk_of self.new depth ≡ end }
        ensures back { (i : ℕ) → i < depth → walk_of self.new i
            ≡ slice_index self.old.before.items (walk_of self.new (i + 1)) }
        ensures kept { self.new ≡ record self.old { walk = self.new.walk } }
        ensures stored { IsScan self.new }
    {
        let mut at = depth;
        let mut place = end;
        self.walk[at] = place;
        while at > 0 {
            at -= 1;
            place = self.before[place];
            self.walk[at] = place;
        }
    }

    /// Reaches all that the starts lead to.
    pub fn reach<A: Arcs>(&mut self, arcs: &A, starts: &[bool])
        requires stored { IsScan self.old }
        requires places { A.places arcs.now ≡ scan_places self.old }
        requires starts { length starts.now ≡ scan_places self.old }
        ensures reached { IsReachedSet (A.leads arcs.now) (scan_places self.old) (members_of starts.now)
            (members_of self.new.reached.items) }
        ensures kept { KeepsWalk self.old self.new }
        ensures all_looks { self.new.all_looks
            ≡ counted_on self.old.all_looks (size_on (members_of self.new.reached.items) (scan_places self.old)) }
        ensures stored { IsScan self.new }
    {
        self.start(starts);
        let mut head = 0;
        while head < self.filled {
            self.look(arcs, head);
            head += 1;
        }
    }

    // Goes on from the places that are reached, all of them starts: the least number of arcs from one to an end.
    fn follow<A: Arcs, L: Ledger>(
        &mut self,
        arcs: &A,
        ends: &[bool],
        steps: &mut Steps<L>,
    ) -> Option<usize>
        requires stored { IsScan self.old }
        requires places { A.places arcs.now ≡ scan_places self.old }
        requires ends { length ends.now ≡ scan_places self.old }
        requires search { IsSearch (A.leads arcs.now) (scan_places self.old) (scan_state self.old) 0 self.old.filled }
        ensures answer { (starts : ℕ → Bool) → HasStarts (scan_places self.old) starts (scan_state self.old) →
            IsSearchAnswer (A.leads arcs.now) (scan_places self.old) starts (members_of ends.now) (walk_of self.new)
            (members_of self.new.reached.items) self.new.looks result }
        ensures listed { IfNone result ((i : ℕ) → i < self.new.filled →
            members_of self.new.reached.items (slice_index self.new.order.items i) ≡ true) }
        ensures counted { AreLooksTold (scan_places self.old) self.new.looks steps.old steps.new self.old.all_looks
            self.new.all_looks }
        ensures walk { IfNone result (self.new.walk ≡ self.old.walk) }
        ensures stored { IsScan self.new }
        ensures places { scan_places self.new ≡ scan_places self.old }
    {
        let mut head = 0;
        while head < self.filled {
            let place = self.order[head];
            if ends[place] {
                let depth = self.depth[place];
                self.trace(place, depth);
                self.looks = head;
                return Some(depth);
            }
            steps.tick();
            self.look(arcs, head);
            head += 1;
        }
        self.looks = self.filled;
        None
    }

    /// The least number of arcs from a start to an end.
    pub fn shortest<A: Arcs, L: Ledger>(
        &mut self,
        arcs: &A,
        starts: &[bool],
        ends: &[bool],
        steps: &mut Steps<L>,
    ) -> Option<usize>
        requires stored { IsScan self.old }
        requires places { A.places arcs.now ≡ scan_places self.old }
        requires starts { length starts.now ≡ scan_places self.old }
        requires ends { length ends.now ≡ scan_places self.old }
        ensures answer { IsSearchAnswer (A.leads arcs.now) (scan_places self.old) (members_of starts.now)
            (members_of ends.now) (walk_of self.new) (members_of self.new.reached.items) self.new.looks result }
        ensures counted { AreLooksTold (scan_places self.old) self.new.looks steps.old steps.new self.old.all_looks
            self.new.all_looks }
        ensures walk { IfNone result (self.new.walk ≡ self.old.walk) }
        ensures stored { IsScan self.new }
        ensures places { scan_places self.new ≡ scan_places self.old }
    {
        self.start(starts);
        self.follow(arcs, ends, steps)
    }

    /// The least number of arcs from one start to an end. It goes over no places but those that it reaches, and those
    /// that were reached before.
    pub fn shortest_from<A: Arcs, L: Ledger>(
        &mut self,
        arcs: &A,
        start: usize,
        ends: &[bool],
        steps: &mut Steps<L>,
    ) -> Option<usize>
        requires stored { IsScan self.old }
        requires places { A.places arcs.now ≡ scan_places self.old }
        requires start { start < scan_places self.old }
        requires ends { length ends.now ≡ scan_places self.old }
        ensures answer { IsSearchAnswer (A.leads arcs.now) (scan_places self.old) (only start) (members_of ends.now)
            (walk_of self.new) (members_of self.new.reached.items) self.new.looks result }
        ensures listed { IfNone result ((i : ℕ) → i < self.new.filled →
            members_of self.new.reached.items (slice_index self.new.order.items i) ≡ true) }
        ensures counted { AreLooksTold (scan_places self.old) self.new.looks steps.old steps.new self.old.all_looks
            self.new.all_looks }
        ensures walk { IfNone result (self.new.walk ≡ self.old.walk) }
        ensures stored { IsScan self.new }
        ensures places { scan_places self.new ≡ scan_places self.old }
    {
        self.start_at(start);
        self.follow(arcs, ends, steps)
    }
}
