//! Matchings of a bipartite graph: rows, columns and the symbol places that join them.

ghost use Rattle.std.specs.Prelude.{◌≡◌, ◌<◌, ◌≤◌, ℕ, true, false, None, IfOk, IfSome, IfNone, OnOk, OnErr};
ghost use Rattle.std.specs.List.Sorted.{IsStrictlyIncreasing};
ghost use Rattle.limits.specs.Limits.{column_limit, grown};
ghost use Rattle.sparse_t.specs.Lists.{AreAllBelow};
ghost use Rattle.sparse_t.specs.Incidences.{incidence_rows, touches};
ghost use Rattle.bipartite_matching.specs.Matchings.{Matching, IsMatching, HasPair, IsRowMatched, IsRowFree, mate_at};
ghost use Rattle.bipartite_matching.specs.Matchings.{empty_matching, with_pair, matching_without, with_row_in, with_row_out};
ghost use Rattle.bipartite_matching.specs.Matchings.{with_column_in, with_column_out};

use limits::grown;
use number_pairs::NumberPairs;
use out_of_memory::NoMemory;
use sparse_t::{Pattern, RoomyPattern};
use std::alloc::Global;
use std::marker::Model;

/// A set of symbol places of a pattern, no two of them in one row or in one column. It keeps a copy of the pattern, which
/// gains and loses rows and columns in room that is taken before. Rows and columns are counted from 0.
#[derive(Drop)]
pub struct Match {
    pattern: RoomyPattern,
    pairs: NumberPairs,
    row_room: usize,
    column_room: usize,
}

impl Model for Match {
    ghost use Rattle.bipartite_matching.specs.Matchings.{Matching, IsTwoSided};

    ghost Value = { Matching };

    ghost view = { λ m. record {
      pattern = m.pattern.pattern;
      mates = m.pairs.lefts;
      row_room = m.row_room;
      column_room = m.column_room;
    } };

    ghost invariant = { λ m. IsTwoSided (record {
      pattern = m.pattern.pattern;
      mates = m.pairs.lefts;
      row_room = m.row_room;
      column_room = m.column_room;
    }) m.pattern m.pairs };
}

impl Match {
    /// No place of the pattern, with no room for more rows and columns.
    pub fn open(alloc: Global, t: &Pattern) -> Result<Match, NoMemory>
        ensures empty { IfOk result (λ m. m ≡ empty_matching t.now) }
        ensures matching { IfOk result (λ m. IsMatching m) }
    {
        let pattern = RoomyPattern::of(alloc, t)?;
        let pairs = NumberPairs::open(alloc, t.rows(), t.cols())?;
        Ok(Match {
            pattern,
            pairs,
            row_room: 0,
            column_room: 0,
        })
    }

    /// Tells a proof that it is a matching. It does nothing when it runs.
    pub fn is_matching(&self)
        ensures { IsMatching self.now }
    {
        // a proof knows what the type keeps once a field is read
        let _ = &self.pairs;
    }

    /// The pattern of which this is a matching.
    pub fn pattern(&self) -> &RoomyPattern
        ensures pattern { result.now.pattern ≡ self.now.pattern }
        ensures matching { IsMatching self.now }
    {
        &self.pattern
    }

    /// The column that the row is matched with, if there is one.
    pub fn mate_of_row(&self, row: usize) -> Option<usize>
        requires { row < incidence_rows self.now.pattern }
        ensures some { IfSome result (λ col. HasPair self.now row col) }
        ensures none { IfNone result (IsRowFree self.now row) }
        ensures matching { IsMatching self.now }
    {
        self.pairs.right_of(row)
    }

    /// The row that the column is matched with, if there is one.
    pub fn mate_of_col(&self, col: usize) -> Option<usize>
        requires { col < self.now.pattern.width }
        ensures mate { result ≡ mate_at self.now col }
        ensures matching { IsMatching self.now }
    {
        self.pairs.left_of(col)
    }

    /// Matches a row with a column that it touches, where neither is matched.
    pub fn link(&mut self, row: usize, col: usize)
        requires row { row < incidence_rows self.old.pattern }
        requires col { col < self.old.pattern.width }
        requires touches { touches self.old.pattern row col ≡ true }
        requires row_free { IsRowFree self.old row }
        requires col_free { mate_at self.old col ≡ None }
        ensures pair { self.new ≡ with_pair self.old row col }
        ensures matching { IsMatching self.new }
    {
        self.pairs.are_one_to_one();
        self.pairs.link(row, col);
    }

    /// Parts a row, which is matched, from its column.
    pub fn unlink(&mut self, row: usize)
        requires { IsRowMatched self.old row }
        ensures pair { (col : ℕ) → HasPair self.old row col → self.new ≡ matching_without self.old col }
        ensures matching { IsMatching self.new }
    {
        let col = self.pairs.right_of(row).unwrap();
        self.pairs.unlink(row, col);
    }

    /// Takes room for at least so many rows and columns, and where it grows at least an eighth more. It changes nothing else.
    pub fn room(&mut self, rows: usize, cols: usize) -> Result<(), NoMemory>
        ensures pattern { self.new.pattern ≡ self.old.pattern }
        ensures mates { self.new.mates ≡ self.old.mates }
        ensures grown_rows { OnOk result (self.new.row_room ≡ grown self.old.row_room rows) }
        ensures grown_cols { OnOk result (self.new.column_room ≡ grown self.old.column_room cols) }
        ensures rows { OnOk result (rows ≤ self.new.row_room) }
        ensures cols { OnOk result (cols ≤ self.new.column_room) }
        ensures more_rows { self.old.row_room ≤ self.new.row_room }
        ensures more_cols { self.old.column_room ≤ self.new.column_room }
        ensures err { OnErr result (self.new ≡ self.old) }
        ensures matching { IsMatching self.new }
    {
        let rows = grown(self.row_room, rows);
        let cols = grown(self.column_room, cols);
        self.pattern.room(rows, cols)?;
        self.pairs.room(rows, cols)?;
        self.row_room = rows;
        self.column_room = cols;
        Ok(())
    }

    /// Puts a row into the pattern as row `at`: the columns that it touches, rising. It is in no pair, and each pair stays.
    /// It takes no memory.
    pub fn insert_row(&mut self, at: usize, columns: &[u32])
        requires at { at ≤ incidence_rows self.old.pattern }
        requires rising { IsStrictlyIncreasing columns.now }
        requires below { AreAllBelow self.old.pattern.width columns.now }
        requires few { incidence_rows self.old.pattern < column_limit }
        requires rows { incidence_rows self.old.pattern < self.old.row_room }
        requires cols { self.old.pattern.width ≤ self.old.column_room }
        ensures row { self.new ≡ with_row_in self.old at columns.now }
        ensures matching { IsMatching self.new }
    {
        self.pattern.insert_row(at, columns);
        self.pairs.insert_left(at);
    }

    /// Takes row `at`, which is in no pair, out of the pattern. Each pair stays.
    pub fn remove_row(&mut self, at: usize)
        requires at { at < incidence_rows self.old.pattern }
        requires free { IsRowFree self.old at }
        ensures row { self.new ≡ with_row_out self.old at }
        ensures matching { IsMatching self.new }
    {
        self.pairs.are_one_to_one();
        self.pattern.remove_row(at);
        self.pairs.remove_left(at);
    }

    /// Puts a column that no row touches into the pattern as column `at`. Each pair stays. It takes no memory.
    pub fn insert_column(&mut self, at: usize)
        requires at { at ≤ self.old.pattern.width }
        requires few { self.old.pattern.width < column_limit }
        requires rows { incidence_rows self.old.pattern ≤ self.old.row_room }
        requires cols { self.old.pattern.width < self.old.column_room }
        ensures column { self.new ≡ with_column_in self.old at }
        ensures matching { IsMatching self.new }
    {
        self.pattern.insert_column(at);
        self.pairs.insert_right(at);
    }

    /// Takes column `at`, which no row touches, out of the pattern. Each pair stays.
    pub fn remove_column(&mut self, at: usize)
        requires at { at < self.old.pattern.width }
        requires bare { (row : ℕ) → row < incidence_rows self.old.pattern → touches self.old.pattern row at ≡ false }
        ensures column { self.new ≡ with_column_out self.old at }
        ensures matching { IsMatching self.new }
    {
        self.pattern.remove_column(at);
        self.pairs.remove_right(at);
    }
}
