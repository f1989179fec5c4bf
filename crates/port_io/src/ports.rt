//! The two traits.

ghost use Rattle.std.specs.Prelude.{◌≡◌, ℕ, ◌+◌, ◌≤◌, ◌<◌, List, Bool, false, length, not, take, Option, Result, IfOk, IsOk, OnOk, OnErr, IsTrue, is_ok};
ghost use Rattle.std.specs.Io.KnownBytes.{Keeps};
ghost use Rattle.port_io.specs.Causes.{HasCause, one_more};
ghost use Rattle.port_io.specs.Asking.{asked_for, given};
ghost use Rattle.port_io.specs.Bytes.{Took, Appended, Ended};
ghost use Rattle.port_io.specs.declared.ports.Failed.{Failed};
ghost use Rattle.port_io.specs.declared.asking.Asked.{Asked};

use thiserror::Error;

/// A call that a source or a sink refused.
#[derive(Debug, PartialEq, Eq, Drop, Error)]
#[error("the call failed")]
pub struct Failed;

/// Where bytes come from.
pub trait Source {
    /// The bytes that are left, where the source tells them.
    ghost left: { Self → Option (List ℕ) };

    /// How often it has failed: a count of 64 bits that stays at its last value.
    ghost faults: { Self → ℕ };

    /// What it was asked for so far, and how it answered.
    ghost asked: { Self → Asked };

    /// Its calls are known never to fail.
    ghost never_fails: { Self → Type 0 };

    /// What else is known of a read: the source before, the length of the buffer, the answer and
    /// the source after.
    ghost read_gives: { Self → ℕ → Result ℕ Failed → Self → Type 0 };

    /// Takes the next bytes into the front of the buffer, and answers how many: at most as many as
    /// the buffer has places, and 0 for a buffer with places only at the end.
    fn read(&mut self, buffer: &mut [u8]) -> Result<usize, Failed>
        ensures within { IfOk result (λ n. n ≤ length buffer.old) }
        ensures taken { IfOk result (λ n. Took (left self.old) (left self.new) (take n buffer.new)) }
        ensures end { IfOk result (λ n. n ≡ 0 → 0 < length buffer.old → Ended (left self.new)) }
        ensures none { OnErr result (Keeps (left self.old) (left self.new)) }
        ensures asked { asked self.new ≡ given (asked_for (asked self.old) (length buffer.old)) result }
        ensures cause { HasCause (faults self.old) (faults self.new) result }
        ensures steady { never_fails self.old → never_fails self.new
            × (faults self.new ≡ faults self.old) × IsOk result }
        ensures gives { read_gives self.old (length buffer.old) result self.new };
}

/// Where bytes go.
pub trait Sink {
    /// The bytes that were written, where the sink tells them.
    ghost written: { Self → Option (List ℕ) };

    /// What was written is flushed.
    ghost flushed: { Self → Bool };

    /// How often it was flushed: a count of 64 bits that stays at its last value.
    ghost flushes: { Self → ℕ };

    /// How often it has failed: a count of 64 bits that stays at its last value.
    ghost faults: { Self → ℕ };

    /// Its last call failed.
    ghost failed: { Self → Bool };

    /// It is known to take this many more bytes without a fault.
    ghost takes: { Self → ℕ → Type 0 };

    /// What else is known of a write: the sink before, the piece, the answer and the sink after.
    ghost write_gives: { Self → List ℕ → Result ℕ Failed → Self → Type 0 };

    /// What else is known of a flush: the sink before, the answer and the sink after.
    ghost flush_gives: { Self → Result (Unit {0}) Failed → Self → Type 0 };

    /// Appends the first bytes of the piece, and answers how many: at least one of a piece that is
    /// not empty.
    fn write(&mut self, piece: &[u8]) -> Result<usize, Failed>
        ensures within { IfOk result (λ n. n ≤ length piece.now) }
        ensures some { IfOk result (λ n. 0 < length piece.now → 0 < n) }
        ensures appended { IfOk result (λ n. Appended (written self.old) (written self.new) (take n piece.now)) }
        ensures unflushed { IfOk result (λ n. 0 < n → flushed self.new ≡ false) }
        ensures none { OnErr result (Keeps (written self.old) (written self.new)) }
        ensures no_flush { flushes self.new ≡ flushes self.old }
        ensures cause { HasCause (faults self.old) (faults self.new) result }
        ensures failed { failed self.new ≡ not (is_ok result) }
        ensures steady { (more : ℕ) → takes self.old (length piece.now + more) → (faults self.new ≡ faults self.old)
            × IsOk result × IfOk result (λ n. (rest : ℕ) → n + rest ≡ length piece.now → takes self.new (rest + more)) }
        ensures gives { write_gives self.old piece.now result self.new };

    /// Hands on what was written.
    fn flush(&mut self) -> Result<(), Failed>
        ensures same { Keeps (written self.old) (written self.new) }
        ensures one_flush { flushes self.new ≡ one_more (flushes self.old) }
        ensures flushed { OnOk result (IsTrue (flushed self.new)) }
        ensures cause { HasCause (faults self.old) (faults self.new) result }
        ensures failed { failed self.new ≡ not (is_ok result) }
        ensures steady { (more : ℕ) → takes self.old more → takes self.new more
            × (faults self.new ≡ faults self.old) × IsOk result }
        ensures gives { flush_gives self.old result self.new };
}
