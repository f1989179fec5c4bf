//! Sweeps: a walk is searched from one start after another, and what was reached in vain is left out for good, so that
//! all searches together look at each place of it once.

ghost use Rattle.std.specs.Prelude.{◌≡◌, ℕ, ◌+◌, ◌<◌, ◌≤◌, Bool, true, false, length, vec_len, slice_index, IfOk, IfSome, IfNone};
ghost use Rattle.residue_theory.specs.Sets.{either, only};
ghost use Rattle.residue_theory.specs.Sums.{size_on};
ghost use Rattle.search_laws.specs.Outside.{IsReachedInVain, leads_outside};
ghost use Rattle.exchange_graph.specs.Counts.{AreLooksTold};
ghost use Rattle.exchange_graph.specs.Marks.{members_of};
ghost use Rattle.exchange_graph.specs.Scans.{walk_of};
ghost use Rattle.exchange_graph.specs.SearchAnswers.{HasLeftOut, IsAnswerInTurn, IsSearchAnswer};
ghost use Rattle.exchange_graph.specs.Sweeps.{AreLookedAtInVain, IsLeftOut};
ghost use Rattle.exchange_graph.specs.SweepStates.{HasFoundFrom, HasPassed, HasSweptOn, HasMarks, IsSweeping};
ghost use Rattle.exchange_graph.specs.SweepStates.{left_by, sweep_places};

use crate::arcs::Arcs;
use crate::outside::Outside;
use crate::scan::Scan;
use crate::steps::Steps;
use std::alloc::{AllocError, Global};
use std::sync::ledger::Ledger;

// A scan, the marks of what was reached in vain, which stays left out, and the start with which the next sweep begins:
// those before it are left out, or are starts no more.
#[derive(Drop)]
pub struct Sweep {
    pub scan: Scan,
    pub left: Vec<bool>,
    pub next: usize,
}

impl Sweep {
    /// Room for sweeps over the places below n. Nothing is left out.
    pub fn open(alloc: Global, n: usize) -> Result<Self, AllocError>
        ensures stored { IfOk result (λ s. HasMarks s) }
        ensures places { IfOk result (λ s. sweep_places s ≡ n) }
        ensures left { IfOk result (λ s. (y : ℕ) → left_by s y ≡ false) }
        ensures next { IfOk result (λ s. s.next ≡ 0) }
        ensures looks { IfOk result (λ s. s.scan.looks ≡ 0) }
        ensures all_looks { IfOk result (λ s. s.scan.all_looks ≡ 0) }
    {
        Ok(Sweep {
            scan: Scan::open(alloc, n)?,
            left: vec![in alloc; false; n]?,
            next: 0,
        })
    }

    // Leaves out what the last search reached.
    fn leave(&mut self)
        requires stored { HasMarks self.old }
        requires listed { (i : ℕ) → i < self.old.scan.filled →
            members_of self.old.scan.reached.items (slice_index self.old.scan.order.items i) ≡ true }
        ensures left { (y : ℕ) → y < sweep_places self.old →
            left_by self.new y ≡ either (left_by self.old) (members_of self.old.scan.reached.items) y }
        ensures kept { self.new ≡ record self.old { left = self.new.left } }
        ensures stored { HasMarks self.new }
    {
        for at in 0..self.scan.filled {
            let place = self.scan.order[at];
            self.left[place] = true;
        }
    }

    // Counts the looks of the searches before the last one too.
    fn count(&mut self, before: usize)
        requires stored { HasMarks self.old }
        requires few { self.old.scan.looks + before ≤ sweep_places self.old }
        ensures kept { self.new ≡ record self.old {
          scan = record self.old.scan {
            looks = self.old.scan.looks + before;
          };
        } }
        ensures stored { HasMarks self.new }
    {
        self.scan.looks += before;
    }

    // Searches for a walk from one start, outside what is left out.
    fn search_from<A: Arcs, L: Ledger>(
        &mut self,
        arcs: &A,
        start: usize,
        ends: &[bool],
        steps: &mut Steps<L>,
    ) -> Option<usize>
        requires stored { HasMarks self.old }
        requires places { A.places arcs.now ≡ sweep_places self.old }
        requires ends { length ends.now ≡ sweep_places self.old }
        requires start { start < sweep_places self.old }
        ensures answer { IsSearchAnswer (leads_outside (A.leads arcs.now) (left_by self.old)) (sweep_places self.old)
            (only start) (members_of ends.now) (walk_of self.new.scan) (members_of self.new.scan.reached.items)
            self.new.scan.looks result }
        ensures listed { IfNone result ((i : ℕ) → i < self.new.scan.filled →
            members_of self.new.scan.reached.items (slice_index self.new.scan.order.items i) ≡ true) }
        ensures counted { AreLooksTold (sweep_places self.old) self.new.scan.looks steps.old steps.new
            self.old.scan.all_looks self.new.scan.all_looks }
        ensures walk { IfNone result (self.new.scan.walk ≡ self.old.scan.walk) }
        ensures left { self.new.left ≡ self.old.left }
        ensures next { self.new.next ≡ self.old.next }
        ensures stored { HasMarks self.new }
        ensures places { sweep_places self.new ≡ sweep_places self.old }
    {
        let outside = Outside {
            arcs,
            left: self.left.as_slice(),
        };
        self.scan.shortest_from(&outside, start, ends, steps)
    }

    // Searches for a walk from a place where it is a start that is not left out. Where there is none, what is reached
    // is left out too.
    fn search_at<A: Arcs, L: Ledger>(
        &mut self,
        arcs: &A,
        start: usize,
        starts: &[bool],
        ends: &[bool],
        steps: &mut Steps<L>,
    ) -> Option<usize>
        requires stored { HasMarks self.old }
        requires places { A.places arcs.now ≡ sweep_places self.old }
        requires starts { length starts.now ≡ sweep_places self.old }
        requires ends { length ends.now ≡ sweep_places self.old }
        requires start { start < sweep_places self.old }
        requires vain { IsReachedInVain (A.leads arcs.now) (sweep_places self.old) (members_of starts.now)
            (members_of ends.now) (left_by self.old) }
        requires few { self.old.scan.looks ≤ size_on (left_by self.old) (sweep_places self.old) }
        ensures found { IfSome result (HasFoundFrom (A.leads arcs.now) (sweep_places self.old) (members_of starts.now)
            (members_of ends.now) start self.old self.new) }
        ensures passed { IfNone result (HasPassed (A.leads arcs.now) (sweep_places self.old) (members_of starts.now)
            (members_of ends.now) start self.old self.new) }
        ensures looked { (before : ℕ → Bool) → IsSweeping (A.leads arcs.now) (sweep_places self.old)
            (members_of starts.now)
            (members_of ends.now) before self.old → AreLookedAtInVain (A.leads arcs.now) (sweep_places self.old)
            (members_of starts.now) (members_of ends.now) before self.new.scan.looks }
        ensures swept { HasSweptOn self.old self.new steps.old steps.new }
        ensures stored { HasMarks self.new }
    {
        if !starts[start] || self.left[start] {
            return None;
        }
        let before = self.scan.looks;
        match self.search_from(arcs, start, ends, steps) {
            Some(length) => {
                self.count(before);
                Some(length)
            }
            None => {
                self.leave();
                self.count(before);
                None
            }
        }
    }

    /// The number of arcs of a walk from a start to an end that is a shortest one from that start. The starts are tried
    /// one after another, but for those that are left out.
    pub fn search<A: Arcs, L: Ledger>(
        &mut self,
        arcs: &A,
        starts: &[bool],
        ends: &[bool],
        steps: &mut Steps<L>,
    ) -> Option<usize>
        requires stored { HasMarks self.old }
        requires places { A.places arcs.now ≡ sweep_places self.old }
        requires starts { length starts.now ≡ sweep_places self.old }
        requires ends { length ends.now ≡ sweep_places self.old }
        requires left { IsLeftOut (A.leads arcs.now) (sweep_places self.old) (members_of starts.now)
            (members_of ends.now)
            (left_by self.old) self.old.next }
        ensures answer { IsAnswerInTurn (A.leads arcs.now) (sweep_places self.old) (members_of starts.now)
            (members_of ends.now) (walk_of self.new.scan) (left_by self.new) self.new.next result }
        ensures left { HasLeftOut (A.leads arcs.now) (sweep_places self.old) (members_of starts.now)
            (members_of ends.now)
            (left_by self.old) (left_by self.new) self.new.next self.new.scan.looks result }
        ensures counted { AreLooksTold (sweep_places self.old) self.new.scan.looks steps.old steps.new
            self.old.scan.all_looks self.new.scan.all_looks }
        ensures walk { IfNone result (self.new.scan.walk ≡ self.old.scan.walk) }
        ensures stored { HasMarks self.new }
        ensures places { sweep_places self.new ≡ sweep_places self.old }
    {
        self.scan.looks = 0;
        let places = self.left.len();
        for start in self.next.min(places)..places {
            if let Some(length) = self.search_at(arcs, start, starts, ends, steps) {
                self.next = start;
                return Some(length);
            }
        }
        None
    }
}
