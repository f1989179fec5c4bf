//! A table of bits in words of 64, so that a row is looked through a word at a time.

ghost use Rattle.std.specs.Prelude.{◌≡◌, ℕ, ◌<◌, ◌≤◌, ◌+◌, ◌*◌, ◌/◌, Bool, true, false, length, IfOk, IfSome, IfNone};
ghost use Rattle.residue_theory.specs.Ranges.{HasNone, IsLeast};
ghost use Rattle.bit_table.specs.Bits.{bit_in, IsBitSet, IsJoined, IsRowCleared, IsRowEmptied};

use out_of_memory::NoMemory;
use std::alloc::Global;
use std::marker::Model;

/// Rows of bits, each in words of 64. Rows, and the bits of a row, are counted from 0.
#[derive(Drop)]
pub struct BitTable {
    rows: usize,
    size: usize,
    width: usize,
    // those of the rows up to the last one that was set or joined
    words: Vec<u64>,
    // no bit of a row is set behind so many of its words: an empty row costs next to nothing
    used: Vec<usize>,
}

impl Model for BitTable {
    ghost use Rattle.std.specs.Prelude.{vec_capacity};
    ghost use Rattle.bit_table.specs.Bits.{Bits, AreKeptBits};

    ghost Value = { Bits };

    ghost view = { λ t. record { rows = t.rows; size = t.size; width = t.width; words = t.words.items } };

    ghost invariant = { λ t. AreKeptBits t.rows t.size t.width (vec_capacity t.words) t.words.items t.used.items };
}

impl BitTable {
    /// So many rows of so many bits, none of them set.
    pub fn open(alloc: Global, rows: usize, size: usize) -> Result<Self, NoMemory>
        ensures rows { IfOk result (λ t. t.rows ≡ rows) }
        ensures size { IfOk result (λ t. t.size ≡ size) }
        ensures empty { IfOk result (λ t. (x y : ℕ) → bit_in t x y ≡ false) }
    {
        let width = size / 64 + 1;
        let Some(length) = rows.checked_mul(width) else {
            return Err(NoMemory);
        };
        Ok(BitTable {
            rows,
            size,
            width,
            words: Vec::with_capacity(alloc, length)?,
            used: vec![in alloc; 0; rows]?,
        })
    }

    /// Takes all bits back.
    pub fn clear(&mut self)
        ensures empty { (x y : ℕ) → bit_in self.new x y ≡ false }
        ensures rows { self.new.rows ≡ self.old.rows }
        ensures size { self.new.size ≡ self.old.size }
    {
        for x in 0..self.rows {
            self.empty_row(x);
        }
    }

    // Makes each word of a row 0.
    fn empty_row(&mut self, x: usize)
        requires { x < self.old.rows }
        ensures emptied { IsRowEmptied self.old.words self.new.words self.old.width x }
        ensures cleared { IsRowCleared (bit_in self.old) (bit_in self.new) self.old.size x }
        ensures kept { self.new ≡ record self.old { words = self.new.words } }
        ensures length { length self.new.words ≤ self.old.rows * self.old.width }
    {
        let first = x * self.width;
        let used = self.used[x];
        for i in 0..used {
            self.words[first + i] = 0;
        }
        self.used[x] = 0;
    }

    /// Takes all bits of a row back.
    pub fn clear_row(&mut self, x: usize)
        requires { x < self.old.rows }
        ensures cleared { IsRowCleared (bit_in self.old) (bit_in self.new) self.old.size x }
        ensures rows { self.new.rows ≡ self.old.rows }
        ensures size { self.new.size ≡ self.old.size }
    {
        self.empty_row(x);
    }

    /// Whether the bit is set.
    pub fn get(&self, x: usize, y: usize) -> bool
        requires x { x < self.now.rows }
        requires y { y < self.now.size }
        ensures { result ≡ bit_in self.now x y }
    {
        y / 64 < self.used[x] && self.get_used(x, y)
    }

    // Whether the bit is set, in a word that is used.
    fn get_used(&self, x: usize, y: usize) -> bool
        requires { x * self.now.width + y / 64 < length self.now.words }
        ensures { result ≡ bit_in self.now x y }
    {
        (self.words[x * self.width + y / 64] >> (y % 64)) & 1 == 1
    }

    /// The least bit of row x from `from` on and below `end` that is set.
    pub fn next(&self, x: usize, from: usize, end: usize) -> Option<usize>
        requires x { x < self.now.rows }
        requires end { end ≤ self.now.size }
        ensures none { IfNone result (HasNone (bit_in self.now x) from end) }
        ensures least { IfSome result (IsLeast (bit_in self.now x) from end) }
    {
        let behind = end.min(self.used[x].saturating_mul(64));
        let mut at = from;
        while at < behind {
            let word = self.words[x * self.width + at / 64] >> (at % 64);
            if word != 0 {
                let next = at + word.trailing_zeros() as usize;
                return if next < end { Some(next) } else { None };
            }
            at = at.saturating_add(64 - at % 64);
        }
        None
    }

    // Makes the words of row x, and of those before it, where they are not there yet.
    fn make_row(&mut self, x: usize)
        requires { x < self.old.rows }
        ensures made { x * self.new.width + self.new.width ≤ length self.new.words }
        ensures bits { (i j : ℕ) → bit_in self.new i j ≡ bit_in self.old i j }
        ensures rows { self.new.rows ≡ self.old.rows }
        ensures size { self.new.size ≡ self.old.size }
    {
        let end = x * self.width + self.width;
        while self.words.len() < end {
            let next = self.words.len().saturating_add(self.width).min(end);
            self.words.resize(next, 0).unwrap();
        }
    }

    /// Sets a bit.
    pub fn set(&mut self, x: usize, y: usize)
        requires x { x < self.old.rows }
        requires y { y < self.old.size }
        ensures set { IsBitSet (bit_in self.old) (bit_in self.new) self.old.size x y }
        ensures rows { self.new.rows ≡ self.old.rows }
        ensures size { self.new.size ≡ self.old.size }
    {
        self.make_row(x);
        self.set_made(x, y);
    }

    // The same, in a row that is made.
    fn set_made(&mut self, x: usize, y: usize)
        requires x { x < self.old.rows }
        requires y { y < self.old.size }
        requires made { x * self.old.width + self.old.width ≤ length self.old.words }
        ensures set { IsBitSet (bit_in self.old) (bit_in self.new) self.old.size x y }
        ensures rows { self.new.rows ≡ self.old.rows }
        ensures size { self.new.size ≡ self.old.size }
    {
        self.words[x * self.width + y / 64] |= 1 << (y % 64);
        self.used[x] = self.used[x].max(y / 64 + 1);
    }

    /// Sets in row x all bits that are set in row y.
    pub fn join(&mut self, x: usize, y: usize)
        requires x { x < self.old.rows }
        requires y { y < self.old.rows }
        ensures joined { IsJoined (bit_in self.old) (bit_in self.new) (bit_in self.old y) self.old.size x }
        ensures rows { self.new.rows ≡ self.old.rows }
        ensures size { self.new.size ≡ self.old.size }
    {
        self.make_row(x);
        self.join_made(x, y);
    }

    // The same, where row x is made.
    fn join_made(&mut self, x: usize, y: usize)
        requires x { x < self.old.rows }
        requires y { y < self.old.rows }
        requires made { x * self.old.width + self.old.width ≤ length self.old.words }
        ensures joined { IsJoined (bit_in self.old) (bit_in self.new) (bit_in self.old y) self.old.size x }
        ensures rows { self.new.rows ≡ self.old.rows }
        ensures size { self.new.size ≡ self.old.size }
    {
        let (into, from) = (x * self.width, y * self.width);
        let used = self.used[y];
        for i in 0..used {
            let word = self.words[from + i];
            self.words[into + i] |= word;
        }
        self.used[x] = self.used[x].max(used);
    }

    /// Sets in row x all bits that are set in row y of another table with rows of the same size.
    pub fn join_other(&mut self, x: usize, other: &BitTable, y: usize)
        requires x { x < self.old.rows }
        requires y { y < other.now.rows }
        requires same_size { other.now.size ≡ self.old.size }
        ensures joined { IsJoined (bit_in self.old) (bit_in self.new) (bit_in other.now y) self.old.size x }
        ensures rows { self.new.rows ≡ self.old.rows }
        ensures size { self.new.size ≡ self.old.size }
    {
        self.make_row(x);
        self.join_other_made(x, other, y);
    }

    // The same, where row x is made.
    fn join_other_made(&mut self, x: usize, other: &BitTable, y: usize)
        requires x { x < self.old.rows }
        requires y { y < other.now.rows }
        requires same_size { other.now.size ≡ self.old.size }
        requires made { x * self.old.width + self.old.width ≤ length self.old.words }
        ensures joined { IsJoined (bit_in self.old) (bit_in self.new) (bit_in other.now y) self.old.size x }
        ensures rows { self.new.rows ≡ self.old.rows }
        ensures size { self.new.size ≡ self.old.size }
    {
        let (into, from) = (x * self.width, y * other.width);
        let used = other.used[y];
        for i in 0..used {
            self.words[into + i] |= other.words[from + i];
        }
        self.used[x] = self.used[x].max(used);
    }
}
