//! Strongly connected components: the path-based algorithm of Gabow (2000); and what each leads to: the transitive
//! closure of their order, a row for each one when it is closed (Purdom 1970).

ghost use Rattle.std.specs.Prelude.{◌≡◌, ◌≢◌, ℕ, ◌+◌, ◌-◌, ◌<◌, ◌≤◌, Bool, true, false, IfOk, IfSome, IfNone, slice_index};
ghost use Rattle.exchange_graph.specs.Marks.{members_of};
ghost use Rattle.bit_table.specs.Bits.{bit_in};
ghost use Rattle.minimiser_lattice.specs.Paths.{Closes, IsOnPath, IsFinished, IsGoing, AreMergedGroups, IsNumbered, IsQuotient, IsToldOf, last_of};
ghost use Rattle.minimiser_lattice.specs.Components.{HasArrays, IsRowLed, leads_in, component_places, path_state, component_number};

use bit_table::BitTable;
use exchange_graph::Arcs;
use out_of_memory::NoMemory;
use std::alloc::Global;

// The components of arcs, each a greatest set of places that reach each other, found along a path. The places that are
// seen and not done stand on `stack`, in groups of places that reach each other, each of which leads to the next one;
// `base` tells where each group begins. `path` tells the positions of the places some of whose arcs are left, and
// `next` of each place the turn from which they are. An arc back to a lower group makes one group of all above it. Where
// a group is finished, it is a component: its places are done, and its row of `strict` tells to which others it leads.
#[derive(Drop)]
pub struct Components {
    pub seen: Vec<bool>,
    pub done: Vec<bool>,
    pub number: Vec<usize>,
    pub position: Vec<usize>,
    pub next: Vec<usize>,
    pub stack: Vec<usize>,
    pub base: Vec<usize>,
    pub path: Vec<usize>,
    pub strict: BitTable,
    pub height: usize,
    pub groups: usize,
    pub depth: usize,
    pub count: usize,
}

impl Components {
    /// Room for the components of the places below n.
    pub fn open(alloc: Global, n: usize) -> Result<Self, NoMemory>
        ensures stored { IfOk result (λ c. HasArrays c) }
        ensures places { IfOk result (λ c. component_places c ≡ n) }
        ensures numbers { IfOk result (λ c. (x : ℕ) → component_number c x ≡ 0) }
    {
        Ok(Components {
            seen: vec![in alloc; false; n]?,
            done: vec![in alloc; false; n]?,
            number: vec![in alloc; 0; n]?,
            position: vec![in alloc; 0; n]?,
            next: vec![in alloc; 0; n]?,
            stack: vec![in alloc; 0; n]?,
            base: vec![in alloc; 0; n]?,
            path: vec![in alloc; 0; n]?,
            strict: BitTable::open(alloc, n, n)?,
            height: 0,
            groups: 0,
            depth: 0,
            count: 0,
        })
    }

    /// Whether component k is l, or leads to it.
    pub fn leads(&self, k: usize, l: usize) -> bool
        requires stored { HasArrays self.now }
        requires k { k < component_places self.now }
        requires l { l < component_places self.now }
        ensures { result ≡ leads_in (bit_in self.now.strict) k l }
    {
        k == l || self.strict.get(k, l)
    }

    // No place is seen.
    fn clear(&mut self)
        requires { HasArrays self.old }
        ensures going { (arc : ℕ → ℕ → Bool) → (turn : ℕ → ℕ → ℕ) →
            IsGoing arc turn (component_places self.old) (path_state self.new) }
        ensures depth { self.new.depth ≡ 0 }
        ensures stored { HasArrays self.new }
        ensures places { component_places self.new ≡ component_places self.old }
    {
        self.seen.fill(false);
        self.done.fill(false);
        self.strict.clear();
        self.height = 0;
        self.groups = 0;
        self.depth = 0;
        self.count = 0;
    }

    // Puts a place that was not seen on the stack, as a group of its own, and on the path.
    fn enter(&mut self, place: usize)
        requires stored { HasArrays self.old }
        requires place { place < component_places self.old }
        requires height { self.old.height < component_places self.old }
        requires groups { self.old.groups < component_places self.old }
        requires depth { self.old.depth < component_places self.old }
        ensures entered { IsOnPath (path_state self.old) (path_state self.new) place }
        ensures stored { HasArrays self.new }
        ensures places { component_places self.new ≡ component_places self.old }
    {
        self.seen[place] = true;
        self.position[place] = self.height;
        self.next[place] = 0;
        self.stack[self.height] = place;
        self.base[self.groups] = self.height;
        self.path[self.depth] = self.height;
        self.height += 1;
        self.groups += 1;
        self.depth += 1;
    }

    // Makes one group of the place at position `at` and all above it.
    fn merge(&mut self, at: usize)
        requires stored { HasArrays self.old }
        requires some { 0 < self.old.groups }
        requires fits { self.old.groups ≤ component_places self.old }
        requires first { slice_index self.old.base.items 0 ≡ 0 }
        requires rises { (g h : ℕ) → g < h → h < self.old.groups →
            slice_index self.old.base.items g < slice_index self.old.base.items h }
        ensures merged { AreMergedGroups (path_state self.old) self.new.groups at }
        ensures kept { self.new ≡ record self.old { groups = self.new.groups } }
        ensures stored { HasArrays self.new }
    {
        while self.base[self.groups - 1] > at {
            self.groups -= 1;
        }
    }

    // Goes on with the arcs of the last place of the path, up to one that leads to a place that is not seen. `None`:
    // there is none.
    fn advance<A: Arcs>(&mut self, arcs: &A) -> Option<usize>
        requires stored { HasArrays self.old }
        requires places { A.places arcs.now ≡ component_places self.old }
        requires going { IsGoing (A.leads arcs.now) (A.turn arcs.now) (component_places self.old)
            (path_state self.old) }
        requires some { 0 < self.old.depth }
        ensures going { IsGoing (A.leads arcs.now) (A.turn arcs.now) (component_places self.old) (path_state self.new) }
        ensures found { IfSome result (λ to. (to < component_places self.old) × ((path_state self.new).seen to ≡ false)
            × (A.leads arcs.now (last_of (path_state self.new)) to ≡ true)) }
        ensures finished { IfNone result (IsFinished (A.leads arcs.now) (A.turn arcs.now) (component_places self.old)
            (path_state self.new)) }
        ensures seen { self.new.seen ≡ self.old.seen }
        ensures depth { self.new.depth ≡ self.old.depth }
        ensures stored { HasArrays self.new }
    {
        let place = self.stack[self.path[self.depth - 1]];
        let mut from = self.next[place];
        while let Some((to, next)) = arcs.next_arc(place, from) {
            if !self.seen[to] {
                self.next[place] = from;
                return Some(to);
            }
            if !self.done[to] {
                let at = self.position[to];
                self.merge(at);
            }
            from = next;
        }
        self.next[place] = from;
        None
    }

    // Numbers the places of the stack from position `from` on.
    fn number_group(&mut self, from: usize)
        requires stored { HasArrays self.old }
        requires from { from ≤ self.old.height }
        requires fits { self.old.height ≤ component_places self.old }
        requires below { (i : ℕ) → i < self.old.height → slice_index self.old.stack.items i < component_places
            self.old }
        ensures numbered { IsNumbered (path_state self.old) (members_of self.new.done.items)
            (component_number self.new) from }
        ensures kept { self.new ≡ record self.old { done = self.new.done; number = self.new.number } }
        ensures stored { HasArrays self.new }
    {
        for position in from..self.height {
            let place = self.stack[position];
            self.number[place] = self.count;
            self.done[place] = true;
        }
    }

    // The component that is being closed leads to the one with the number `other`.
    fn lead(&mut self, other: usize)
        requires stored { HasArrays self.old }
        requires own { self.old.count < component_places self.old }
        requires other { other < component_places self.old }
        ensures led { IsRowLed (bit_in self.old.strict) (bit_in self.new.strict) (component_places self.old)
            self.old.count other }
        ensures kept { self.new ≡ record self.old { strict = self.new.strict } }
        ensures stored { HasArrays self.new }
    {
        let own = self.count;
        if other == own || self.strict.get(own, other) {
            return;
        }
        self.strict.join(own, other);
        self.strict.set(own, other);
    }

    // Puts what a place leads to into the row of the component that is being closed.
    fn absorb<A: Arcs>(&mut self, arcs: &A, place: usize)
        requires stored { HasArrays self.old }
        requires places { A.places arcs.now ≡ component_places self.old }
        requires closing { Closes (A.leads arcs.now) (component_places self.old) (path_state self.old) }
        requires place { place < component_places self.old }
        requires done { (path_state self.old).done place ≡ true }
        requires number { (path_state self.old).number place ≡ self.old.count }
        ensures closing { Closes (A.leads arcs.now) (component_places self.old) (path_state self.new) }
        ensures told { (y : ℕ) → y < component_places self.old → A.leads arcs.now place y ≡ true →
            IsToldOf (path_state self.new) y }
        ensures row { (l : ℕ) → l < component_places self.old → bit_in self.old.strict self.old.count l ≡ true →
            bit_in self.new.strict self.old.count l ≡ true }
        ensures kept { self.new ≡ record self.old { strict = self.new.strict } }
        ensures stored { HasArrays self.new }
    {
        let mut from = 0;
        while let Some((to, next)) = arcs.next_arc(place, from) {
            let other = self.number[to];
            self.lead(other);
            from = next;
        }
    }

    // Closes the last group, which begins with the last place of the path, as a component.
    fn close<A: Arcs>(&mut self, arcs: &A)
        requires stored { HasArrays self.old }
        requires places { A.places arcs.now ≡ component_places self.old }
        requires going { IsGoing (A.leads arcs.now) (A.turn arcs.now) (component_places self.old)
            (path_state self.old) }
        requires some { 0 < self.old.depth }
        requires finished { IsFinished (A.leads arcs.now) (A.turn arcs.now) (component_places self.old)
            (path_state self.old) }
        requires begins { (path_state self.old).base (self.old.groups - 1)
            ≡ (path_state self.old).path (self.old.depth - 1) }
        ensures going { IsGoing (A.leads arcs.now) (A.turn arcs.now) (component_places self.old) (path_state self.new) }
        ensures depth { self.new.depth + 1 ≡ self.old.depth }
        ensures seen { self.new.seen ≡ self.old.seen }
        ensures stored { HasArrays self.new }
    {
        let from = self.path[self.depth - 1];
        self.number_group(from);
        for position in from..self.height {
            let place = self.stack[position];
            self.absorb(arcs, place);
        }
        self.height = from;
        self.groups -= 1;
        self.depth -= 1;
        self.count += 1;
    }

    // Takes the last place of the path, which is finished, off it.
    fn finish<A: Arcs>(&mut self, arcs: &A)
        requires stored { HasArrays self.old }
        requires places { A.places arcs.now ≡ component_places self.old }
        requires going { IsGoing (A.leads arcs.now) (A.turn arcs.now) (component_places self.old)
            (path_state self.old) }
        requires some { 0 < self.old.depth }
        requires finished { IsFinished (A.leads arcs.now) (A.turn arcs.now) (component_places self.old)
            (path_state self.old) }
        ensures going { IsGoing (A.leads arcs.now) (A.turn arcs.now) (component_places self.old) (path_state self.new) }
        ensures depth { self.new.depth + 1 ≡ self.old.depth }
        ensures seen { self.new.seen ≡ self.old.seen }
        ensures stored { HasArrays self.new }
    {
        if self.base[self.groups - 1] == self.path[self.depth - 1] {
            self.close(arcs);
        } else {
            self.depth -= 1;
        }
    }

    // Goes on until nothing is left on the path.
    fn explore<A: Arcs>(&mut self, arcs: &A)
        requires stored { HasArrays self.old }
        requires places { A.places arcs.now ≡ component_places self.old }
        requires going { IsGoing (A.leads arcs.now) (A.turn arcs.now) (component_places self.old)
            (path_state self.old) }
        ensures going { IsGoing (A.leads arcs.now) (A.turn arcs.now) (component_places self.old) (path_state self.new) }
        ensures depth { self.new.depth ≡ 0 }
        ensures seen { (y : ℕ) → members_of self.old.seen.items y ≡ true → members_of self.new.seen.items y ≡ true }
        ensures stored { HasArrays self.new }
        ensures places { component_places self.new ≡ component_places self.old }
    {
        while self.depth > 0 {
            match self.advance(arcs) {
                Some(place) => self.enter(place),
                None => self.finish(arcs),
            }
        }
    }

    /// Finds the components of the arcs.
    pub fn fill<A: Arcs>(&mut self, arcs: &A)
        requires stored { HasArrays self.old }
        requires places { A.places arcs.now ≡ component_places self.old }
        ensures quotient { IsQuotient (A.leads arcs.now) (component_places self.old) (component_number self.new)
            self.new.count
            (bit_in self.new.strict) }
        ensures stored { HasArrays self.new }
        ensures places { component_places self.new ≡ component_places self.old }
    {
        self.clear();
        for root in 0..self.seen.len() {
            if !self.seen[root] {
                self.enter(root);
                self.explore(arcs);
            }
        }
    }
}
