//! A whole piece.

ghost use Rattle.std.specs.Prelude.{◌≡◌, ℕ, ◌+◌, ◌≤◌, length, take, IsOk, OnOk, OnErr, IfErr};
ghost use Rattle.port_io.specs.Causes.{FailedLast, HasCause};
ghost use Rattle.port_io.specs.Bytes.{Appended};

use crate::ports::Sink;
use thiserror::Error;

/// How many bytes were written before the sink failed.
#[derive(Debug, PartialEq, Eq, Drop, Error)]
#[error("the output cannot be written after {written} bytes")]
pub struct WriteFault {
    pub written: usize,
}

/// Appends the whole piece, or its first `written` bytes where the sink fails: then no further call of it is made. It does
/// not flush.
pub fn write_all<K: Sink>(sink: &mut K, piece: &[u8]) -> Result<(), WriteFault>
    ensures all { OnOk result (Appended (K.written sink.old) (K.written sink.new) piece.now) }
    ensures within { IfErr result (λ fault. fault.written ≤ length piece.now) }
    ensures part { IfErr result (λ fault.
        Appended (K.written sink.old) (K.written sink.new) (take fault.written piece.now)) }
    ensures cause { HasCause (K.faults sink.old) (K.faults sink.new) result }
    ensures last { OnErr result (FailedLast (K.faults sink.old) (K.faults sink.new) (K.failed sink.new)) }
    ensures no_flush { K.flushes sink.new ≡ K.flushes sink.old }
    ensures steady { (more : ℕ) → K.takes sink.old (length piece.now + more) → (K.faults sink.new ≡ K.faults sink.old)
        × IsOk result × K.takes sink.new more }
{
    let mut done = 0;
    while done < piece.len() {
        let Ok(count) = sink.write(&piece[done..]) else {
            return Err(WriteFault { written: done });
        };
        done += count;
    }
    Ok(())
}
