//! What a source was asked for, and how it answered.

ghost use Rattle.std.specs.Prelude.{◌≡◌};
ghost use Rattle.port_io.specs.Asking.{asked_for, gave, nothing_asked};

/// What a source was asked for so far, and how it answered. The counts of 64 bits stay at their last value.
#[derive(Clone, Copy)]
pub struct Asked {
    /// The bytes that it gave.
    pub taken: u64,
    /// The longest buffer that one read handed in.
    pub longest: usize,
    /// The furthest byte that a read could have given: the bytes given before it and the length of
    /// its buffer.
    pub furthest: u64,
    /// The reads that gave nothing, as at the end.
    pub ends: u64,
    /// The last read failed.
    pub failed: bool,
}

impl Asked {
    /// Before the first read.
    pub fn nothing() -> Asked
        ensures { result ≡ nothing_asked }
    {
        Asked {
            taken: 0,
            longest: 0,
            furthest: 0,
            ends: 0,
            failed: false,
        }
    }

    /// Counts a read into a buffer of this length, which failed unless `give` follows.
    pub fn ask(&mut self, space: usize)
        ensures { self.new ≡ asked_for self.old space }
    {
        self.longest = self.longest.max(space);
        self.furthest = self.furthest.max(self.taken.saturating_add(space as u64));
        self.failed = true;
    }

    /// Counts the bytes that a read gave.
    pub fn give(&mut self, count: usize)
        ensures { self.new ≡ gave self.old count }
    {
        self.taken = self.taken.saturating_add(count as u64);
        if count == 0 {
            self.ends = self.ends.saturating_add(1);
        }
        self.failed = false;
    }
}
