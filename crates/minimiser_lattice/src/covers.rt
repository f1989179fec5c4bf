//! The transitive reduction of the order of the blocks, that is its covers (Aho, Garey and Ullman 1972).

ghost use Rattle.std.specs.Prelude.{◌≡◌, ◌≢◌, ℕ, ◌<◌, ◌≤◌, false, vec_len, IfOk};
ghost use Rattle.bit_table.specs.Bits.{IsJoined, bit_in};
ghost use Rattle.minimiser_lattice.specs.Components.{HasArrays, component_places};
ghost use Rattle.minimiser_lattice.specs.Listings.{listed_of};
ghost use Rattle.minimiser_lattice.specs.Covers.{AreListedCovers, HasCoverRoom, IsCoverPut, IsCoverRow, IsGathered, HasBlocksListed, lower_count};

use crate::components::Components;
use crate::listing::Listing;
use bit_table::BitTable;
use out_of_memory::NoMemory;
use std::alloc::Global;

// Which blocks are right below which: bit i of row j of the table says it of block i and block j. While a row is found,
// `lower` lists the components that the block's leads to, and the one row of `between` tells to which of those there is
// a third one on the way.
#[derive(Drop)]
pub struct Covers {
    pub table: BitTable,
    pub between: BitTable,
    pub lower: Vec<usize>,
}

impl Covers {
    /// Room for the covers of n components.
    pub fn open(alloc: Global, n: usize) -> Result<Self, NoMemory>
        ensures { IfOk result (λ c. HasCoverRoom c n) }
    {
        Ok(Covers {
            table: BitTable::open(alloc, n, n)?,
            between: BitTable::open(alloc, 1, n)?,
            lower: vec![in alloc; 0; n]?,
        })
    }

    // Puts component m into the list.
    fn enter(&mut self, at: usize, m: usize)
        requires { at < vec_len self.old.lower }
        ensures here { lower_count self.new at ≡ m }
        ensures others { (i : ℕ) → i ≢ at → lower_count self.new i ≡ lower_count self.old i }
        ensures kept { self.new ≡ record self.old { lower = self.new.lower } }
        ensures length { vec_len self.new.lower ≡ vec_len self.old.lower }
    {
        self.lower[at] = m;
    }

    // Lists the components that component l leads to, by rising number, and tells how many they are.
    fn gather(&mut self, components: &Components, l: usize) -> usize
        requires room { HasCoverRoom self.old (component_places components.now) }
        requires stored { HasArrays components.now }
        requires l { l < component_places components.now }
        ensures gathered { IsGathered (bit_in components.now.strict) l l (lower_count self.new) result }
        ensures fits { result ≤ component_places components.now }
        ensures kept { self.new ≡ record self.old { lower = self.new.lower } }
        ensures room { HasCoverRoom self.new (component_places components.now) }
    {
        let mut filled = 0;
        let mut from = 0;
        while let Some(m) = components.strict.next(l, from, l) {
            self.enter(filled, m);
            filled += 1;
            from = m + 1;
        }
        filled
    }

    // Component m, to which no other one is on the way, is right below block j: its own block is, where it has one. What
    // it leads to has a third one on the way.
    fn put(&mut self, components: &Components, listing: &Listing, j: usize, m: usize)
        requires room { HasCoverRoom self.old (component_places components.now) }
        requires listed { HasBlocksListed components.now listing.now }
        requires j { j < listing.now.blocks }
        requires m { m < component_places components.now }
        ensures joined { IsJoined (bit_in self.old.between) (bit_in self.new.between) (bit_in components.now.strict m)
            (component_places components.now) 0 }
        ensures put { IsCoverPut (bit_in self.old.table) (bit_in self.new.table) (component_places components.now)
            (listed_of listing.now) listing.now.blocks j m }
        ensures lower { self.new.lower ≡ self.old.lower }
        ensures room { HasCoverRoom self.new (component_places components.now) }
    {
        self.between.join_other(0, &components.strict, m);
        if let Some(i) = listing.block_of(m) {
            self.table.set(j, i);
        }
    }

    // Finds which blocks are right below block j, from the greatest component that it leads to: one on whose way there
    // is none is right below, and all that it leads to has it on the way.
    fn fill_row(&mut self, components: &Components, listing: &Listing, j: usize)
        requires room { HasCoverRoom self.old (component_places components.now) }
        requires listed { HasBlocksListed components.now listing.now }
        requires j { j < listing.now.blocks }
        requires empty { (i : ℕ) → i < component_places components.now → bit_in self.old.table j i ≡ false }
        ensures row { IsCoverRow (component_places components.now) (bit_in components.now.strict)
            (listed_of listing.now)
            listing.now.blocks (bit_in self.new.table) j }
        ensures others { (k i : ℕ) → i < component_places components.now → k ≢ j →
            bit_in self.new.table k i ≡ bit_in self.old.table k i }
        ensures room { HasCoverRoom self.new (component_places components.now) }
    {
        self.between.clear_row(0);
        let mut left = self.gather(components, listing.listed[j]);
        while left > 0 {
            left -= 1;
            let m = self.lower[left];
            if !self.between.get(0, m) {
                self.put(components, listing, j, m);
            }
        }
    }

    /// Finds which blocks are right below which.
    pub fn fill(&mut self, components: &Components, listing: &Listing)
        requires room { HasCoverRoom self.old (component_places components.now) }
        requires listed { HasBlocksListed components.now listing.now }
        ensures covers { AreListedCovers (component_places components.now) (bit_in components.now.strict)
            (listed_of listing.now)
            listing.now.blocks (bit_in self.new.table) }
        ensures room { HasCoverRoom self.new (component_places components.now) }
    {
        self.table.clear();
        for j in 0..listing.blocks {
            self.fill_row(components, listing, j);
        }
    }
}
