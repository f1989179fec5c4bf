//! The components that wait to be listed, kept apart: the ready ones in a heap by their least places (Williams 1964), and
//! each other one in the row of one that holds it back, so that it is looked at again once that one is listed.

ghost use Rattle.std.specs.Prelude.{◌≡◌, ◌≢◌, ℕ, ◌+◌, ◌<◌, ◌≤◌, true, false, length, vec_len, IfOk, IfSome, IfNone};
ghost use Rattle.std.specs.BinaryHeap.{heap_len};
ghost use Rattle.residue_theory.specs.Sums.{size_on};
ghost use Rattle.bit_table.specs.Bits.{bit_in};
ghost use Rattle.minimiser_lattice.specs.Paths.{IsNumbering};
ghost use Rattle.minimiser_lattice.specs.Components.{HasArrays, component_number, component_places};
ghost use Rattle.minimiser_lattice.specs.Standings.{IsFreeToStand, IsWaiting, NoneWaitsBelow, standing_in};
ghost use Rattle.minimiser_lattice.specs.Ready.{AreApartIn, HasRoomFor, IsLeastPlace, IsPutReady, AreSettledStandings, held_of, least_of};
ghost use Rattle.minimiser_lattice.specs.declared.standing.Standing.{Standing};
ghost use Rattle.minimiser_lattice.specs.declared.standing.Standing.TheVariants.{Listed};

use crate::components::Components;
use crate::standing::{Standing, is_waiting};
use bit_table::BitTable;
use out_of_memory::NoMemory;
use std::alloc::Global;
use std::collections::BinaryHeap;

// The least place of each component, and whether it is held back; `waits` has bit k of row l set where component k waits
// for l; and the heap has the ready ones, each by its key, which is the greater the lesser its least place is.
#[derive(Drop)]
pub struct Ready {
    pub least: Vec<usize>,
    pub held: Vec<bool>,
    pub waits: BitTable,
    pub keys: BinaryHeap<usize>,
}

// The first component from `from` on that waits and to which k leads.
fn holder(components: &Components, standing: &[Standing], k: usize, from: usize) -> Option<usize>
    requires stored { HasArrays components.now }
    requires standing { length standing.now ≡ component_places components.now }
    requires k { k < component_places components.now }
    requires none { NoneWaitsBelow (bit_in components.now.strict) (standing_in standing.now) k from }
    ensures from_on { IfSome result (λ l. from ≤ l) }
    ensures below { IfSome result (λ l. l < k) }
    ensures leads { IfSome result (λ l. bit_in components.now.strict k l ≡ true) }
    ensures waiting { IfSome result (λ l. IsWaiting (standing_in standing.now) l) }
    ensures before { IfSome result (λ l. NoneWaitsBelow (bit_in components.now.strict) (standing_in standing.now) k l) }
    ensures none { IfNone result (NoneWaitsBelow (bit_in components.now.strict) (standing_in standing.now) k k) }
{
    let mut at = from;
    while let Some(l) = components.strict.next(k, at, k) {
        if is_waiting(standing, l) {
            return Some(l);
        }
        at = l + 1;
    }
    None
}

impl Ready {
    /// Room for n components.
    pub fn open(alloc: Global, n: usize) -> Result<Self, NoMemory>
        ensures { IfOk result (λ r. HasRoomFor r n) }
    {
        Ok(Ready {
            least: vec![in alloc; 0; n]?,
            held: vec![in alloc; true; n]?,
            waits: BitTable::open(alloc, n, n)?,
            keys: BinaryHeap::with_capacity(alloc, n)?,
        })
    }

    // Finds the least place of each component.
    fn seat(&mut self, components: &Components)
        requires room { HasRoomFor self.old (component_places components.now) }
        requires stored { HasArrays components.now }
        requires numbering { IsNumbering (component_places components.now) (component_number components.now)
            components.now.count
            (bit_in components.now.strict) }
        ensures least { (k : ℕ) → k < components.now.count →
            IsLeastPlace (component_number components.now) (component_places components.now) k (least_of self.new k) }
        ensures kept { self.new ≡ record self.old { least = self.new.least } }
        ensures room { HasRoomFor self.new (component_places components.now) }
    {
        let mut place = components.number.len();
        while place > 0 {
            place -= 1;
            let k = components.number[place];
            self.put_least(k, place);
        }
    }

    // The least place of component k is this.
    fn put_least(&mut self, k: usize, place: usize)
        requires { k < vec_len self.old.least }
        ensures here { least_of self.new k ≡ place }
        ensures others { (l : ℕ) → l ≢ k → least_of self.new l ≡ least_of self.old l }
        ensures kept { self.new ≡ record self.old { least = self.new.least } }
        ensures length { vec_len self.new.least ≡ vec_len self.old.least }
    {
        self.least[k] = place;
    }

    // Each component is held back.
    fn hold_all(&mut self)
        ensures held { (k : ℕ) → k < vec_len self.old.held → held_of self.new k ≡ true }
        ensures kept { self.new ≡ record self.old { held = self.new.held } }
        ensures length { vec_len self.new.held ≡ vec_len self.old.held }
    {
        self.held.fill(true);
    }

    // No component waits for another one, and none is ready.
    fn clear(&mut self, components: &Components)
        requires room { HasRoomFor self.old (component_places components.now) }
        requires stored { HasArrays components.now }
        requires numbering { IsNumbering (component_places components.now) (component_number components.now)
            components.now.count
            (bit_in components.now.strict) }
        ensures apart { (standing : ℕ → Standing) → AreApartIn components.now standing (λ k. 0 ≤ k) self.new }
        ensures held { (k : ℕ) → k < component_places components.now → held_of self.new k ≡ true }
    {
        self.hold_all();
        self.waits.clear();
        self.keys.clear();
        self.seat(components);
    }

    // Component k leads to none that waits: its key goes into the heap, which has room for it.
    fn make_ready(&mut self, components: &Components, k: usize)
        requires room { HasRoomFor self.old (component_places components.now) }
        requires k { k < components.now.count }
        requires count { components.now.count ≤ component_places components.now }
        requires held { held_of self.old k ≡ true }
        requires few { heap_len self.old.keys + size_on (held_of self.old) components.now.count ≤ components.now.count }
        requires least { least_of self.old k < component_places components.now }
        ensures ready { IsPutReady (component_places components.now) k self.old self.new }
        ensures least_kept { self.new.least ≡ self.old.least }
        ensures room { HasRoomFor self.new (component_places components.now) }
    {
        self.held[k] = false;
        let key = self.least.len() - 1 - self.least[k];
        let _pushed = self.keys.push(key);
    }

    // Lets component k wait for the first one that it leads to and that waits, or makes it ready.
    fn settle(&mut self, components: &Components, standing: &[Standing], k: usize, from: usize)
        requires room { HasRoomFor self.old (component_places components.now) }
        requires stored { HasArrays components.now }
        requires standing { length standing.now ≡ component_places components.now }
        requires k { k < components.now.count }
        requires count { components.now.count ≤ component_places components.now }
        requires held { held_of self.old k ≡ true }
        requires few { heap_len self.old.keys + size_on (held_of self.old) components.now.count ≤ components.now.count }
        requires least { least_of self.old k < component_places components.now }
        requires none { NoneWaitsBelow (bit_in components.now.strict) (standing_in standing.now) k from }
        ensures settled { AreSettledStandings (bit_in components.now.strict) (standing_in standing.now)
            (component_places components.now) k
            from self.old self.new }
        ensures least { self.new.least ≡ self.old.least }
        ensures room { HasRoomFor self.new (component_places components.now) }
    {
        match holder(components, standing, k, from) {
            Some(l) => self.waits.set(l, k),
            None => self.make_ready(components, k),
        }
    }

    /// Takes the components that wait apart.
    pub fn begin(&mut self, components: &Components, standing: &[Standing])
        requires room { HasRoomFor self.old (component_places components.now) }
        requires stored { HasArrays components.now }
        requires standing { length standing.now ≡ component_places components.now }
        requires numbering { IsNumbering (component_places components.now) (component_number components.now)
            components.now.count
            (bit_in components.now.strict) }
        ensures { AreApartIn components.now (standing_in standing.now) (λ _. ⊥) self.new }
    {
        self.clear(components);
        for k in 0..components.count {
            if is_waiting(standing, k) {
                self.settle(components, standing, k, 0);
            }
        }
    }

    /// Takes the least place whose component is ready out of the heap. Its component is to be listed.
    pub fn take(&mut self, components: &Components, standing: &[Standing]) -> Option<usize>
        requires stored { HasArrays components.now }
        requires standing { length standing.now ≡ component_places components.now }
        requires numbering { IsNumbering (component_places components.now) (component_number components.now)
            components.now.count
            (bit_in components.now.strict) }
        requires apart { AreApartIn components.now (standing_in standing.now) (λ _. ⊥) self.old }
        ensures below { IfSome result (λ x. x < component_places components.now) }
        ensures ready { IfSome result (λ x. IsFreeToStand (bit_in components.now.strict) (standing_in standing.now)
            (component_number components.now x)) }
        ensures least { IfSome result (λ x. (j : ℕ) → j < x → IsFreeToStand (bit_in components.now.strict)
            (standing_in standing.now) (component_number components.now j) → ⊥) }
        ensures none { IfNone result ((j : ℕ) → j < component_places components.now → IsFreeToStand
            (bit_in components.now.strict)
            (standing_in standing.now) (component_number components.now j) → ⊥) }
        ensures apart { IfSome result (λ x. (more : ℕ → Standing) → more (component_number components.now x) ≡ Listed →
            ((l : ℕ) → l ≢ component_number components.now x → more l ≡ standing_in standing.now l) →
            AreApartIn components.now more (λ k. bit_in self.new.waits (component_number components.now x) k ≡ true)
            self.new) }
        ensures room { HasRoomFor self.new (component_places components.now) }
    {
        while let Some(key) = self.keys.pop() {
            let place = components.number.len() - 1 - key;
            if is_waiting(standing, components.number[place]) {
                return Some(place);
            }
        }
        None
    }

    /// Component l is listed: those that waited for it are looked at again.
    pub fn release(&mut self, components: &Components, standing: &[Standing], l: usize)
        requires stored { HasArrays components.now }
        requires standing { length standing.now ≡ component_places components.now }
        requires numbering { IsNumbering (component_places components.now) (component_number components.now)
            components.now.count
            (bit_in components.now.strict) }
        requires l { l < component_places components.now }
        requires listed { standing_in standing.now l ≡ Listed }
        requires apart { AreApartIn components.now (standing_in standing.now) (λ k. bit_in self.old.waits l k ≡ true)
            self.old }
        ensures { AreApartIn components.now (standing_in standing.now) (λ _. ⊥) self.new }
    {
        let mut from = 0;
        while let Some(k) = self.waits.next(l, from, components.count) {
            if self.held[k] {
                self.settle(components, standing, k, l + 1);
            }
            from = k + 1;
        }
    }
}
