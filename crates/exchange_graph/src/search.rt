//! Shortest walks and reached sets, by breadth-first search.

ghost use Rattle.std.specs.Prelude.{◌≡◌, ℕ, ◌<◌, ◌↔◌, Bool, false, length, IfOk, IfNone, IsNone};
ghost use Rattle.residue_theory.specs.Sums.{size_on};
ghost use Rattle.closed_sets.specs.Closed.{IsReachedSet, NoEndReached};
ghost use Rattle.exchange_graph.specs.Counts.{AreLooksTold, counted_on};
ghost use Rattle.exchange_graph.specs.Marks.{members_of};
ghost use Rattle.exchange_graph.specs.Results.{Found, reached_of, step_of, vain_of};
ghost use Rattle.exchange_graph.specs.SearchAnswers.{HasLeftOut, IsAnswerInTurn, IsSearchAnswer};
ghost use Rattle.exchange_graph.specs.Sweeps.{IsLeftOut};

use crate::arcs::Arcs;
use crate::steps::Steps;
use crate::sweep::Sweep;
use out_of_memory::NoMemory;
use std::alloc::Global;
use std::marker::Model;
use std::sync::ledger::Ledger;

/// A search for a shortest walk, in memory that is taken once. It can be used again and again.
#[derive(Drop)]
pub struct Search {
    sweep: Sweep,
}

impl Model for Search {
    ghost use Rattle.exchange_graph.specs.SweepStates.{HasMarks, sweep_places};
    ghost use Rattle.exchange_graph.specs.Results.{Found};

    ghost Value = { Found };

    ghost view = { λ s. record {
      places = sweep_places s.sweep;
      marks = s.sweep.scan.reached.items;
      vain = s.sweep.left.items;
      next = s.sweep.next;
      walk = s.sweep.scan.walk.items;
      looks = s.sweep.scan.looks;
      all_looks = s.sweep.scan.all_looks;
    } };

    ghost invariant = { λ s. HasMarks s.sweep };
}

impl Search {
    /// A search over the places below n, which leaves out none. It takes all the memory that the search will use.
    pub fn open(alloc: Global, n: usize) -> Result<Self, NoMemory>
        ensures places { IfOk result (λ s. s.places ≡ n) }
        ensures vain { IfOk result (λ s. (y : ℕ) → vain_of s y ≡ false) }
        ensures next { IfOk result (λ s. s.next ≡ 0) }
        ensures looks { IfOk result (λ s. s.looks ≡ 0) }
        ensures all_looks { IfOk result (λ s. s.all_looks ≡ 0) }
    {
        Ok(Search {
            sweep: Sweep::open(alloc, n)?,
        })
    }

    /// The least number of arcs of a walk from a start to an end, or `None` where none leads from one to the other.
    /// After `Some`, `step` tells such a walk; after `None`, `reached` tells what is reached from the starts.
    ///
    /// It looks at each place at most once, ticks once for each look, and tells by `looks` how many there were. Where
    /// it finds an end k arcs away it has looked at each place that is nearer to a start, at none that is farther than
    /// k, and at no end; where it finds none, at each place that is reached.
    pub fn shortest<A: Arcs, L: Ledger>(
        &mut self,
        arcs: &A,
        starts: &[bool],
        ends: &[bool],
        steps: &mut Steps<L>,
    ) -> Option<usize>
        requires places { A.places arcs.now ≡ self.old.places }
        requires starts { length starts.now ≡ self.old.places }
        requires ends { length ends.now ≡ self.old.places }
        ensures none { IsNone result ↔ NoEndReached (A.leads arcs.now) self.old.places (members_of starts.now)
            (members_of ends.now) }
        ensures answer { IsSearchAnswer (A.leads arcs.now) self.old.places (members_of starts.now)
            (members_of ends.now) (step_of self.new) (reached_of self.new) self.new.looks result }
        ensures counted { AreLooksTold self.old.places self.new.looks steps.old steps.new self.old.all_looks
            self.new.all_looks }
        ensures walk { IfNone result (self.new.walk ≡ self.old.walk) }
        ensures vain { self.new.vain ≡ self.old.vain }
        ensures next { self.new.next ≡ self.old.next }
        ensures places { self.new.places ≡ self.old.places }
    {
        self.sweep.scan.shortest(arcs, starts, ends, steps)
    }

    /// The number of arcs of a walk from a start to an end that is a shortest one from that start, or `None` where none
    /// leads from a start to an end. After `Some`, `step` tells such a walk; after `None`, `reached_in_vain` tells what is
    /// reached from the starts.
    ///
    /// It searches from one start after another, and begins with the one at which the last walk began. What a start
    /// reaches in vain is left out for good, in this call and in those that follow: so the arcs, the starts and the ends
    /// may change between calls only so that what is left out is still reached in vain, and holds the starts before
    /// the one that comes next. It looks at no end, at no place that is left out, and at each other one at most once; it
    /// ticks once for each look, and tells by `looks` how many there were.
    pub fn shortest_in_turn<A: Arcs, L: Ledger>(
        &mut self,
        arcs: &A,
        starts: &[bool],
        ends: &[bool],
        steps: &mut Steps<L>,
    ) -> Option<usize>
        requires places { A.places arcs.now ≡ self.old.places }
        requires starts { length starts.now ≡ self.old.places }
        requires ends { length ends.now ≡ self.old.places }
        requires left { IsLeftOut (A.leads arcs.now) self.old.places (members_of starts.now) (members_of ends.now)
            (vain_of self.old) self.old.next }
        ensures none { IsNone result ↔ NoEndReached (A.leads arcs.now) self.old.places (members_of starts.now)
            (members_of ends.now) }
        ensures answer { IsAnswerInTurn (A.leads arcs.now) self.old.places (members_of starts.now)
            (members_of ends.now) (step_of self.new) (vain_of self.new) self.new.next result }
        ensures left { HasLeftOut (A.leads arcs.now) self.old.places (members_of starts.now) (members_of ends.now)
            (vain_of self.old) (vain_of self.new) self.new.next self.new.looks result }
        ensures counted { AreLooksTold self.old.places self.new.looks steps.old steps.new self.old.all_looks
            self.new.all_looks }
        ensures walk { IfNone result (self.new.walk ≡ self.old.walk) }
        ensures places { self.new.places ≡ self.old.places }
    {
        self.sweep.search(arcs, starts, ends, steps)
    }

    /// Finds all that is reached from the starts: `reached` tells it. The walk of the last search that found one stays.
    /// Each reached place is looked at once; no tick tells of these looks, but `all_looks` does.
    pub fn reach<A: Arcs>(&mut self, arcs: &A, starts: &[bool])
        requires places { A.places arcs.now ≡ self.old.places }
        requires starts { length starts.now ≡ self.old.places }
        ensures reached { IsReachedSet (A.leads arcs.now) self.old.places (members_of starts.now)
            (reached_of self.new) }
        ensures looks { self.new.looks ≡ self.old.looks }
        ensures walk { self.new.walk ≡ self.old.walk }
        ensures all_looks { self.new.all_looks
            ≡ counted_on self.old.all_looks (size_on (reached_of self.new) self.old.places) }
        ensures vain { self.new.vain ≡ self.old.vain }
        ensures next { self.new.next ≡ self.old.next }
        ensures places { self.new.places ≡ self.old.places }
    {
        self.sweep.scan.reach(arcs, starts);
    }

    /// The k-th place of the walk that was found last, from its start, which is place 0, to its end.
    pub fn step(&self, k: usize) -> usize
        requires { k < self.now.places }
        ensures { result ≡ step_of self.now k }
    {
        self.sweep.scan.walk[k]
    }

    /// Whether x is reached from a start, after a search that found no walk.
    pub fn reached(&self, x: usize) -> bool
        requires { x < self.now.places }
        ensures { result ≡ reached_of self.now x }
    {
        self.sweep.scan.reached[x]
    }

    /// Whether x was reached in vain, and is left out for good: after searches in turn that found no walk, whether it is
    /// reached from a start.
    pub fn reached_in_vain(&self, x: usize) -> bool
        requires { x < self.now.places }
        ensures { result ≡ vain_of self.now x }
    {
        self.sweep.left[x]
    }

    /// How many places the last search for a shortest walk looked at: 0 before the first one.
    pub fn looks(&self) -> usize
        ensures { result ≡ self.now.looks }
    {
        self.sweep.scan.looks
    }

    /// How many looks there have been since the search was opened, those of `reach` too. At the greatest `u64` it
    /// stays.
    pub fn all_looks(&self) -> u64
        ensures { result ≡ self.now.all_looks }
    {
        self.sweep.scan.all_looks
    }
}
