//! The listing of the components: a topological sort (Kahn 1962) that takes at each step the one with the least place
//! of those that may come next.

ghost use Rattle.std.specs.Prelude.{◌≡◌, ◌≢◌, ℕ, ◌+◌, ◌<◌, ◌≤◌, Bool, true, false, length, vec_len, IfOk, IfSome, IfNone, slice_index};
ghost use Rattle.exchange_graph.specs.Marks.{members_of};
ghost use Rattle.closed_sets.specs.Tables.{Tells};
ghost use Rattle.closed_sets.specs.Blocks.{IsListing};
ghost use Rattle.bit_table.specs.Bits.{bit_in};
ghost use Rattle.minimiser_lattice.specs.Paths.{IsNumbering};
ghost use Rattle.minimiser_lattice.specs.Components.{HasArrays, component_number, component_places};
ghost use Rattle.minimiser_lattice.specs.Listings.{AllWait, HasPlaces, HasStandings, AreMarkedTails, IsOpenedListing, middle_of, standing_of, reached_table};
ghost use Rattle.minimiser_lattice.specs.declared.standing.Standing.TheVariants.{Listed};

use crate::components::Components;
use crate::ready::Ready;
use crate::standing::Standing;
use crate::tails::{mark_ends, mark_starts};
use out_of_memory::NoMemory;
use std::alloc::Global;

// The listing of components, each item of an array standing for a component or for a block. A component may be of both
// tails, so each has its own marks.
#[derive(Drop)]
pub struct Listing {
    pub first: Vec<bool>,
    pub last: Vec<bool>,
    pub standing: Vec<Standing>,
    pub ready: Ready,
    pub rank: Vec<usize>,
    pub listed: Vec<usize>,
    pub blocks: usize,
}

impl Listing {
    /// Room for n components. All are marked as of the first part, so that there is no block.
    pub fn open(alloc: Global, n: usize) -> Result<Self, NoMemory>
        ensures opened { IfOk result (λ l. IsOpenedListing l n) }
        ensures first { IfOk result (λ l. (k : ℕ) → k < n → members_of l.first.items k ≡ true) }
        ensures blocks { IfOk result (λ l. l.blocks ≡ 0) }
        ensures none { IfOk result (λ l. (j : ℕ) → slice_index l.listed.items j ≡ 0) }
    {
        Ok(Listing {
            first: vec![in alloc; true; n]?,
            last: vec![in alloc; false; n]?,
            standing: vec![in alloc; Standing::Tail; n]?,
            ready: Ready::open(alloc, n)?,
            rank: vec![in alloc; 0; n]?,
            listed: vec![in alloc; 0; n]?,
            blocks: 0,
        })
    }

    /// Marks what a start leads to, and what leads to an end. The others wait.
    pub fn mark(&mut self, components: &Components, starts: &[bool], ends: &[bool])
        requires opened { IsOpenedListing self.old (component_places components.now) }
        requires stored { HasArrays components.now }
        requires starts { length starts.now ≡ component_places components.now }
        requires ends { length ends.now ≡ component_places components.now }
        requires numbering { IsNumbering (component_places components.now) (component_number components.now)
            components.now.count
            (bit_in components.now.strict) }
        ensures marked { AreMarkedTails (component_places components.now) (component_number components.now)
            components.now.count
            (bit_in components.now.strict) (members_of starts.now) (members_of ends.now)
            (members_of self.new.first.items) (members_of self.new.last.items) }
        ensures wait { AllWait components.now.count (middle_of self.new) (standing_of self.new) }
        ensures blocks { self.new.blocks ≡ 0 }
        ensures opened { IsOpenedListing self.new (component_places components.now) }
    {
        self.clear(components);
        mark_starts(&mut self.first, components, starts);
        mark_ends(&mut self.last, components, ends);
        self.let_others_wait(components);
    }

    // Forgets the marks and the blocks.
    fn clear(&mut self, components: &Components)
        requires opened { IsOpenedListing self.old (component_places components.now) }
        requires count { components.now.count ≤ component_places components.now }
        ensures first { (k : ℕ) → k < components.now.count → members_of self.new.first.items k ≡ false }
        ensures last { (k : ℕ) → k < components.now.count → members_of self.new.last.items k ≡ false }
        ensures blocks { self.new.blocks ≡ 0 }
        ensures opened { IsOpenedListing self.new (component_places components.now) }
    {
        self.blocks = 0;
        for k in 0..components.count {
            self.first[k] = false;
            self.last[k] = false;
        }
    }

    // Lets each component of neither tail wait.
    fn let_others_wait(&mut self, components: &Components)
        requires opened { IsOpenedListing self.old (component_places components.now) }
        requires count { components.now.count ≤ component_places components.now }
        ensures wait { AllWait components.now.count (middle_of self.old) (standing_of self.new) }
        ensures kept { self.new ≡ record self.old { standing = self.new.standing } }
        ensures opened { IsOpenedListing self.new (component_places components.now) }
    {
        for k in 0..components.count {
            let in_tail = self.first[k] || self.last[k];
            self.standing[k] = if in_tail {
                Standing::Tail
            } else {
                Standing::Waiting
            };
        }
    }

    // Lists component k as the next block.
    fn put(&mut self, k: usize)
        requires standing { k < vec_len self.old.standing }
        requires rank { k < vec_len self.old.rank }
        requires listed { self.old.blocks < vec_len self.old.listed }
        ensures standing { standing_of self.new k ≡ Listed }
        ensures standing_others { (l : ℕ) → l ≢ k → standing_of self.new l ≡ standing_of self.old l }
        ensures rank { slice_index self.new.rank.items k ≡ self.old.blocks }
        ensures rank_others { (l : ℕ) → l ≢ k → slice_index self.new.rank.items l ≡ slice_index self.old.rank.items l }
        ensures listed { slice_index self.new.listed.items self.old.blocks ≡ k }
        ensures listed_others { (j : ℕ) → j ≢ self.old.blocks →
            slice_index self.new.listed.items j ≡ slice_index self.old.listed.items j }
        ensures kept { self.new ≡ record self.old {
          standing = self.new.standing;
          rank = self.new.rank;
          listed = self.new.listed;
          blocks = self.old.blocks + 1;
        } }
        ensures lengths { (vec_len self.new.standing ≡ vec_len self.old.standing)
            × (vec_len self.new.rank ≡ vec_len self.old.rank) × (vec_len self.new.listed ≡ vec_len self.old.listed) }
    {
        self.standing[k] = Standing::Listed;
        self.rank[k] = self.blocks;
        self.listed[self.blocks] = k;
        self.blocks += 1;
    }

    /// Lists the components of the middle: at each step the one with the least place of those that are ready.
    pub fn list(&mut self, components: &Components)
        requires opened { IsOpenedListing self.old (component_places components.now) }
        requires stored { HasArrays components.now }
        requires numbering { IsNumbering (component_places components.now) (component_number components.now)
            components.now.count
            (bit_in components.now.strict) }
        requires wait { AllWait components.now.count (middle_of self.old) (standing_of self.old) }
        requires blocks { self.old.blocks ≡ 0 }
        ensures listing { (arc : ℕ → ℕ → Bool) (starts ends : ℕ → Bool) →
            Tells arc (component_places components.now) starts ends
            (reached_table (bit_in components.now.strict) (component_number components.now))
            (λ x. middle_of self.old (component_number components.now x)) →
            IsListing arc (component_places components.now) starts ends (λ x.
            slice_index self.new.rank.items (component_number components.now x)) self.new.blocks }
        ensures has { HasPlaces components.now.count (middle_of self.old) (λ k. slice_index self.new.rank.items k)
            (λ j. slice_index self.new.listed.items j) self.new.blocks }
        ensures standings { HasStandings components.now.count (middle_of self.old) (standing_of self.new)
            (λ j. slice_index self.new.listed.items j) self.new.blocks }
        ensures fits { self.new.blocks ≤ component_places components.now }
        ensures kept { self.new ≡ record self.old {
          standing = self.new.standing;
          ready = self.new.ready;
          rank = self.new.rank;
          listed = self.new.listed;
          blocks = self.new.blocks;
        } }
        ensures opened { IsOpenedListing self.new (component_places components.now) }
    {
        self.ready.begin(components, &self.standing);
        while let Some(place) = self.ready.take(components, &self.standing) {
            let k = components.number[place];
            self.put(k);
            self.ready.release(components, &self.standing, k);
        }
    }

    /// The block of component k, if it has one.
    pub fn block_of(&self, k: usize) -> Option<usize>
        requires k { k < vec_len self.now.rank }
        requires fits { self.now.blocks ≤ vec_len self.now.listed }
        requires ranks { (j : ℕ) → j < self.now.blocks →
            slice_index self.now.rank.items (slice_index self.now.listed.items j) ≡ j }
        ensures some { IfSome result (λ j. (j < self.now.blocks) × (slice_index self.now.listed.items j ≡ k)) }
        ensures none { IfNone result ((j : ℕ) → j < self.now.blocks → slice_index self.now.listed.items j ≢ k) }
    {
        let block = self.rank[k];
        if block < self.blocks && self.listed[block] == k {
            Some(block)
        } else {
            None
        }
    }
}
