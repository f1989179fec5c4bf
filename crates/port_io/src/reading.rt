//! A whole input.

ghost use Rattle.std.specs.Prelude.{◌≡◌, ◌≢◌, ◌+◌, ◌≤◌, ◌<◌, length, IfOk, OnErr, OnOk};
ghost use Rattle.port_io.specs.Causes.{FailedLast, one_more};
ghost use Rattle.port_io.specs.Asking.{AsksWithin};
ghost use Rattle.port_io.specs.Bytes.{Took, Ended, TookExactly, TookAtMost};
ghost use Rattle.port_io.specs.Pumping.{nothing_pumped};

use crate::ports::Source;
use crate::pump::Pump;
use std::alloc::Global;
use thiserror::Error;

/// Why there is no whole input.
#[derive(Debug, PartialEq, Eq, Drop, Error)]
pub enum ReadError {
    /// The source failed.
    #[error("the input cannot be read")]
    ReadFault,
    /// There are more bytes than the limit, and one more than the limit was taken.
    #[error("the input is too long")]
    TooLong,
    /// There is no memory for the bytes.
    #[error("out of memory")]
    NoMemory,
}

/// All bytes to the end, where there are no more than `limit`. It asks for at most 65,536 bytes at
/// once, and never for one beyond the next `limit + 1`; it meets the end once, and a read that failed is
/// its last: the answer is a fault exactly where one failed. After an error the bytes that were taken stay taken: `limit + 1` at
/// `TooLong`, and else at most `limit`.
pub fn read_all<S: Source>(alloc: Global, source: &mut S, limit: u64) -> Result<Vec<u8>, ReadError>
    requires { limit ≤ 2147483648 }
    ensures within { IfOk result (λ bytes. length bytes.items ≤ limit) }
    ensures all { IfOk result (λ bytes.
        Took (S.left source.old) (S.left source.new) bytes.items × Ended (S.left source.new)) }
    ensures too_long { result ≡ Err ReadError.TooLong →
        TookExactly (limit + 1) (S.left source.old) (S.left source.new) }
    ensures fault_taken { result ≡ Err ReadError.ReadFault → TookAtMost limit (S.left source.old) (S.left source.new) }
    ensures memory_taken { result ≡ Err ReadError.NoMemory → TookAtMost limit (S.left source.old) (S.left source.new) }
    ensures fault { result ≡ Err ReadError.ReadFault →
        FailedLast (S.faults source.old) (S.faults source.new) (S.asked source.new).failed }
    ensures no_fault { result ≢ Err ReadError.ReadFault → S.faults source.new ≡ S.faults source.old }
    ensures later { S.faults source.old ≤ S.faults source.new }
    ensures asked { AsksWithin 65536 (limit + 1) (S.asked source.old) (S.asked source.new) }
    ensures met { OnOk result ((S.asked source.new).ends ≡ one_more (S.asked source.old).ends) }
    ensures unmet { OnErr result ((S.asked source.new).ends ≡ (S.asked source.old).ends) }
    ensures steady { S.never_fails source.old → S.never_fails source.new × (S.faults source.new ≡ S.faults source.old)
        × (result ≢ Err ReadError.ReadFault) }
{
    let Ok(pump) = Pump::new(alloc, limit) else {
        return Err(ReadError::NoMemory);
    };
    pump_all(alloc, source, pump, limit)
}

// All bytes to the end, through a pump that took none so far.
fn pump_all<S: Source>(
    alloc: Global,
    source: &mut S,
    mut pump: Pump,
    limit: u64,
) -> Result<Vec<u8>, ReadError>
    requires { pump ≡ nothing_pumped limit }
    ensures within { IfOk result (λ bytes. length bytes.items ≤ limit) }
    ensures all { IfOk result (λ bytes.
        Took (S.left source.old) (S.left source.new) bytes.items × Ended (S.left source.new)) }
    ensures too_long { result ≡ Err ReadError.TooLong →
        TookExactly (limit + 1) (S.left source.old) (S.left source.new) }
    ensures fault_taken { result ≡ Err ReadError.ReadFault → TookAtMost limit (S.left source.old) (S.left source.new) }
    ensures memory_taken { result ≡ Err ReadError.NoMemory → TookAtMost limit (S.left source.old) (S.left source.new) }
    ensures fault { result ≡ Err ReadError.ReadFault →
        FailedLast (S.faults source.old) (S.faults source.new) (S.asked source.new).failed }
    ensures no_fault { result ≢ Err ReadError.ReadFault → S.faults source.new ≡ S.faults source.old }
    ensures later { S.faults source.old ≤ S.faults source.new }
    ensures asked { AsksWithin 65536 (limit + 1) (S.asked source.old) (S.asked source.new) }
    ensures met { OnOk result ((S.asked source.new).ends ≡ one_more (S.asked source.old).ends) }
    ensures unmet { OnErr result ((S.asked source.new).ends ≡ (S.asked source.old).ends) }
    ensures steady { S.never_fails source.old → S.never_fails source.new × (S.faults source.new ≡ S.faults source.old)
        × (result ≢ Err ReadError.ReadFault) }
{
    let mut bytes = Vec::new(alloc);
    while pump.next(source)? > 0 {
        if bytes.extend_from_slice(pump.piece()).is_err() {
            return Err(ReadError::NoMemory);
        }
    }
    Ok(bytes)
}
