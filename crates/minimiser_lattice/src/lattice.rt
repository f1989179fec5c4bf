//! The parts of a directed graph: what is reached from its starts, what reaches its ends, and the blocks between. Where
//! no end is reached, the sets that hold the starts, no end and all that their arcs lead to are the first part with the
//! ideals of the order of the blocks (Birkhoff 1937). Where they are the minimisers of a submodular function, this is
//! its decomposition (Murota 2000, chapter 2).

ghost use Rattle.std.specs.Prelude.{◌≡◌, ℕ, ◌<◌, Bool, length, IfOk, IfSome, IfNone};
ghost use Rattle.residue_theory.specs.Ranges.{HasNone, IsLeast};
ghost use Rattle.exchange_graph.specs.Marks.{members_of};
ghost use Rattle.closed_sets.specs.Closed.{NoEndReached};
ghost use Rattle.closed_sets.specs.Rules.{KeepsPlaceRules};
ghost use Rattle.minimiser_lattice.specs.Parts.{IsLattice, part_in};
ghost use Rattle.minimiser_lattice.specs.Views.{KeptLattice, parts_in};

use crate::components::Components;
use crate::covers::Covers;
use crate::listing::Listing;
use exchange_graph::Arcs;
use out_of_memory::NoMemory;
use std::alloc::Global;
use std::marker::Model;

/// Where a place stands: it is reached from a start, or it reaches an end, or it is of a block, the blocks being
/// numbered from 0.
#[derive(Clone, Copy, PartialEq, Eq, Debug)]
pub enum Part {
    First,
    Block(usize),
    Last,
}

/// The parts of arcs and their order, in memory that is taken once. It can be filled again and again; before the first
/// time it tells that all places are of the first part, and that there is no block.
#[derive(Drop)]
pub struct Lattice {
    components: Components,
    listing: Listing,
    covers: Covers,
}

impl Model for Lattice {
    ghost use Rattle.minimiser_lattice.specs.Views.{AreKeptArrays, KeptLattice, kept_lattice};

    ghost Value = { KeptLattice };

    ghost view = { λ l. kept_lattice l.components l.listing l.covers };

    ghost invariant = { λ l. AreKeptArrays l.components l.listing l.covers };
}

impl Lattice {
    /// Room for the parts of the places below n, all of which are of the first part until it is filled. It takes all the
    /// memory that the lattice will use.
    pub fn open(alloc: Global, n: usize) -> Result<Self, NoMemory>
        ensures places { IfOk result (λ l. l.places ≡ n) }
        ensures first { IfOk result (λ l. (x : ℕ) → x < n → part_in (parts_in l) x ≡ Part.First) }
        ensures blocks { IfOk result (λ l. (parts_in l).blocks ≡ 0) }
    {
        Ok(Lattice {
            components: Components::open(alloc, n)?,
            listing: Listing::open(alloc, n)?,
            covers: Covers::open(alloc, n)?,
        })
    }

    /// Finds the parts of the arcs: the first one is what is reached from the starts, the last one what reaches an end,
    /// and two other places share a block where each reaches the other. Blocks are numbered so that each stands after
    /// those below it, which are those that it reaches; where several could stand next, the one with the least place
    /// does. A place of both the first part and the last, where an end is reached from a start, is told as of the
    /// first.
    ///
    /// It is told each arc twice, and once more each arc along which it first comes to a place.
    pub fn fill<A: Arcs>(&mut self, arcs: &A, starts: &[bool], ends: &[bool])
        requires places { A.places arcs.now ≡ self.old.places }
        requires starts { length starts.now ≡ self.old.places }
        requires ends { length ends.now ≡ self.old.places }
        ensures lattice { IsLattice (A.leads arcs.now) self.old.places (members_of starts.now) (members_of ends.now)
            (parts_in self.new) }
        ensures rules { NoEndReached (A.leads arcs.now) self.old.places (members_of starts.now) (members_of ends.now) →
            KeepsPlaceRules (A.leads arcs.now) self.old.places (members_of starts.now) (members_of ends.now)
            (parts_in self.new).first (parts_in self.new).last (parts_in self.new).block (parts_in self.new).blocks
            (parts_in self.new).covers }
        ensures places { self.new.places ≡ self.old.places }
    {
        self.components.fill(arcs);
        self.listing.mark(&self.components, starts, ends);
        self.listing.list(&self.components);
        self.covers.fill(&self.components, &self.listing);
    }

    /// Where a place stands.
    pub fn part_of(&self, place: usize) -> Part
        requires { place < self.now.places }
        ensures { result ≡ part_in (parts_in self.now) place }
    {
        let k = self.components.number[place];
        if self.listing.first[k] {
            Part::First
        } else if self.listing.last[k] {
            Part::Last
        } else {
            Part::Block(self.listing.rank[k])
        }
    }

    /// How many blocks there are.
    pub fn blocks(&self) -> usize
        ensures { result ≡ (parts_in self.now).blocks }
    {
        self.listing.blocks
    }

    /// Whether block k is another one than l and below it.
    pub fn below(&self, k: usize, l: usize) -> bool
        requires k { k < (parts_in self.now).blocks }
        requires l { l < (parts_in self.now).blocks }
        ensures { result ≡ (parts_in self.now).below k l }
    {
        let (low, high) = (self.listing.listed[k], self.listing.listed[l]);
        self.components.strict.get(high, low)
    }

    /// Whether block k is below block l with none between.
    pub fn covers(&self, k: usize, l: usize) -> bool
        requires k { k < (parts_in self.now).blocks }
        requires l { l < (parts_in self.now).blocks }
        ensures { result ≡ (parts_in self.now).covers l k }
    {
        self.covers.table.get(l, k)
    }

    /// The first block from `from` on that is below block l with none between.
    pub fn next_cover(&self, l: usize, from: usize) -> Option<usize>
        requires { l < (parts_in self.now).blocks }
        ensures none { IfNone result (HasNone ((parts_in self.now).covers l) from l) }
        ensures least { IfSome result (IsLeast ((parts_in self.now).covers l) from l) }
    {
        self.covers.table.next(l, from, l)
    }
}
