//! Marks of places, with a queue of those that are marked.

ghost use Rattle.std.specs.Prelude.{◌≡◌, ℕ, ◌<◌, ◌||◌, Bool, true, false, length, vec_len, [], IfOk, OnOk};
ghost use Rattle.residue_theory.specs.Sets.{has, only};
ghost use Rattle.part_rules.specs.Listed.{marked, AreReached};
ghost use Rattle.part_search.specs.Neighbours.{listed};
ghost use Rattle.part_search.specs.Markings.{IsQueue, AreMarkedToo, IsMarking};

use crate::neighbours::Neighbours;
use std::alloc::{AllocError, Global};

// `queue` holds the marked places in the order in which they were marked.
#[derive(Drop)]
pub struct Marking {
    pub marks: Vec<bool>,
    pub queue: Vec<usize>,
}

impl Marking {
    // So many places, of which none is marked.
    fn open(alloc: Global, places: usize) -> Result<Self, AllocError>
        ensures count { IfOk result (λ s. vec_len s.marks ≡ places) }
        ensures none { IfOk result (λ s. (y : ℕ) → marked s.marks.items y ≡ false) }
        ensures queued { IfOk result (λ s. IsQueue s.marks.items s.queue.items) }
    {
        Ok(Marking {
            marks: vec![in alloc; false; places]?,
            queue: Vec::new(alloc),
        })
    }

    // Marks a place, if it is not marked yet.
    fn put(&mut self, place: usize) -> Result<(), AllocError>
        requires queued { IsQueue self.old.marks.items self.old.queue.items }
        requires place { place < vec_len self.old.marks }
        ensures { OnOk result (AreMarkedToo (only place) self.old.marks.items self.old.queue.items
            self.new.marks.items self.new.queue.items) }
    {
        if !self.marks[place] {
            self.queue.push(place)?;
            self.marks[place] = true;
        }
        Ok(())
    }

    /// The starts are marked, and no other place.
    pub fn start(alloc: Global, starts: &[bool]) -> Result<Self, AllocError>
        ensures count { IfOk result (λ s. vec_len s.marks ≡ length starts.now) }
        ensures same { IfOk result (λ s. (y : ℕ) → y < length starts.now → marked s.marks.items y
            ≡ marked starts.now y) }
        ensures queued { IfOk result (λ s. IsQueue s.marks.items s.queue.items) }
    {
        let mut marking = Marking::open(alloc, starts.len())?;
        for (place, is_start) in starts.iter().enumerate() {
            if *is_start {
                marking.put(place)?;
            }
        }
        Ok(marking)
    }

    // Marks the places of a list.
    fn look(&mut self, list: &[usize]) -> Result<(), AllocError>
        requires queued { IsQueue self.old.marks.items self.old.queue.items }
        requires below { (y : ℕ) → has list.now y ≡ true → y < vec_len self.old.marks }
        ensures { OnOk result (AreMarkedToo (has list.now) self.old.marks.items self.old.queue.items
            self.new.marks.items self.new.queue.items) }
    {
        for place in list {
            self.put(*place)?;
        }
        Ok(())
    }

    /// Marks all that the marked places reach.
    pub fn reach(&mut self, neighbours: &Neighbours) -> Result<(), AllocError>
        requires queued { IsQueue self.old.marks.items self.old.queue.items }
        requires count { vec_len neighbours.now.lists ≡ vec_len self.old.marks }
        requires below { (x y : ℕ) → listed neighbours.now.lists.items x y ≡ true → y < vec_len self.old.marks }
        ensures { OnOk result (AreReached (listed neighbours.now.lists.items) (vec_len self.old.marks)
            (marked self.old.marks.items) self.new.marks.items) }
    {
        let mut head = 0;
        while head < self.queue.len() {
            let place = self.queue[head];
            self.look(&neighbours.lists[place])?;
            head += 1;
        }
        Ok(())
    }
}
