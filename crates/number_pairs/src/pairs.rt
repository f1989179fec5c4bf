//! Pairs of numbers, found from either side.

ghost use Rattle.std.specs.Prelude.{◌≡◌, ◌≢◌, ℕ, ◌<◌, ◌≤◌, length, Some, None, IfOk, IfSome, IfNone, OnOk, OnErr};
ghost use Rattle.number_pairs.specs.Pairs.{PairLists, IsOneToOne, left_at, right_at, no_pairs, paired, parted};
ghost use Rattle.number_pairs.specs.Pairs.{left_inserted, left_removed, right_inserted, right_removed, with_pair_room};

use crate::moves::{lower, raise};
use out_of_memory::NoMemory;
use std::alloc::Global;
use std::marker::Model;

/// Pairs of a left number, below one bound, and a right number, below another. No number is in two pairs of its side:
/// the pairs are a partial injection of the left numbers to the right ones, and so are they the other way round.
#[derive(Drop)]
pub struct NumberPairs {
    rights: Vec<Option<usize>>,
    lefts: Vec<Option<usize>>,
    left_room: usize,
    right_room: usize,
}

impl Model for NumberPairs {
    ghost use Rattle.std.specs.Prelude.{vec_capacity};
    ghost use Rattle.number_pairs.specs.Pairs.{PairLists, ArePairsStored};

    ghost Value = { PairLists };

    ghost view = { λ p. record {
      rights = p.rights.items;
      lefts = p.lefts.items;
      left_room = p.left_room;
      right_room = p.right_room;
    } };

    ghost invariant = { λ p. ArePairsStored (record {
      rights = p.rights.items;
      lefts = p.lefts.items;
      left_room = p.left_room;
      right_room = p.right_room;
    }) (vec_capacity p.rights) (vec_capacity p.lefts) };
}

impl NumberPairs {
    /// No pair, of so many left numbers and so many right ones.
    pub fn open(alloc: Global, lefts: usize, rights: usize) -> Result<NumberPairs, NoMemory>
        ensures { IfOk result (λ p. p ≡ no_pairs lefts rights) }
    {
        Ok(NumberPairs {
            rights: vec![in alloc; None; lefts]?,
            lefts: vec![in alloc; None; rights]?,
            left_room: 0,
            right_room: 0,
        })
    }

    /// Takes room for at least so many left numbers and right ones.
    pub fn room(&mut self, lefts: usize, rights: usize) -> Result<(), NoMemory>
        ensures ok { OnOk result (self.new ≡ with_pair_room self.old lefts rights) }
        ensures err { OnErr result (self.new ≡ self.old) }
    {
        self.rights
            .reserve(lefts.saturating_sub(self.rights.len()))?;
        self.lefts.reserve(rights.saturating_sub(self.lefts.len()))?;
        self.left_room = self.left_room.max(lefts);
        self.right_room = self.right_room.max(rights);
        Ok(())
    }

    /// Tells a proof that no number is in two pairs. It does nothing when it runs.
    pub fn are_one_to_one(&self)
        ensures { IsOneToOne self.now }
    {
        // a proof knows what the type keeps once a field is read
        let _ = &self.rights;
    }

    /// The right number of a left one, if it is in a pair.
    pub fn right_of(&self, left: usize) -> Option<usize>
        requires { left < length self.now.rights }
        ensures right { result ≡ right_at self.now left }
        ensures below { IfSome result (λ right. right < length self.now.lefts) }
        ensures pair { IfSome result (λ right. left_at self.now right ≡ Some left) }
        ensures none { IfNone result ((right : ℕ) → left_at self.now right ≢ Some left) }
    {
        self.rights[left]
    }

    /// The left number of a right one, if it is in a pair.
    pub fn left_of(&self, right: usize) -> Option<usize>
        requires { right < length self.now.lefts }
        ensures left { result ≡ left_at self.now right }
        ensures below { IfSome result (λ left. left < length self.now.rights) }
        ensures pair { IfSome result (λ left. right_at self.now left ≡ Some right) }
        ensures none { IfNone result ((left : ℕ) → right_at self.now left ≢ Some right) }
    {
        self.lefts[right]
    }

    /// Makes a pair of two numbers that are in none.
    pub fn link(&mut self, left: usize, right: usize)
        requires left { left < length self.old.rights }
        requires right { right < length self.old.lefts }
        requires left_free { right_at self.old left ≡ None }
        requires right_free { left_at self.old right ≡ None }
        ensures { self.new ≡ paired self.old left right }
    {
        self.rights[left] = Some(right);
        self.lefts[right] = Some(left);
    }

    /// Takes a pair away.
    pub fn unlink(&mut self, left: usize, right: usize)
        requires { right_at self.old left ≡ Some right }
        ensures { self.new ≡ parted self.old left right }
    {
        self.rights[left] = None;
        self.lefts[right] = None;
    }

    /// Makes the left numbers from `at` on greater by one, so that `at` is a new one, in no pair. It takes no memory.
    pub fn insert_left(&mut self, at: usize)
        requires at { at ≤ length self.old.rights }
        requires room { length self.old.rights < self.old.left_room }
        ensures { self.new ≡ left_inserted self.old at }
    {
        raise(&mut self.lefts, at);
        let _ = self.rights.insert(at, None);
    }

    /// Takes the left number `at`, which is in no pair, out of the numbers: the later ones are smaller by one.
    pub fn remove_left(&mut self, at: usize)
        requires at { at < length self.old.rights }
        requires free { right_at self.old at ≡ None }
        ensures { self.new ≡ left_removed self.old at }
    {
        self.rights.remove(at);
        lower(&mut self.lefts, at);
    }

    /// Makes the right numbers from `at` on greater by one, so that `at` is a new one, in no pair. It takes no memory.
    pub fn insert_right(&mut self, at: usize)
        requires at { at ≤ length self.old.lefts }
        requires room { length self.old.lefts < self.old.right_room }
        ensures { self.new ≡ right_inserted self.old at }
    {
        raise(&mut self.rights, at);
        let _ = self.lefts.insert(at, None);
    }

    /// Takes the right number `at`, which is in no pair, out of the numbers: the later ones are smaller by one.
    pub fn remove_right(&mut self, at: usize)
        requires at { at < length self.old.lefts }
        requires free { left_at self.old at ≡ None }
        ensures { self.new ≡ right_removed self.old at }
    {
        self.lefts.remove(at);
        lower(&mut self.rights, at);
    }
}
