//! An input, piece by piece.

ghost use Rattle.std.specs.Prelude.{◌≡◌, ◌≢◌, ◌+◌, ◌-◌, ◌≤◌, ◌<◌, ◌↔◌, [], false, true, length, min, take, IfOk, IfErr, IsOk, OnErr};
ghost use Rattle.std.specs.Io.KnownBytes.{Keeps};
ghost use Rattle.port_io.specs.Causes.{FailedLast, HasCause, one_more};
ghost use Rattle.port_io.specs.Asking.{AsksWithin, asked_for, given};
ghost use Rattle.port_io.specs.Bytes.{Took, Ended, TookExactly};
ghost use Rattle.port_io.specs.Pumping.{Pumping, nothing_pumped};

use crate::ports::{Failed, Source};
use crate::reading::ReadError;
use std::alloc::{AllocError, Global};
use std::marker::Model;

// The most bytes of one call.
const PIECE: usize = 65_536;

/// Takes an input from a source piece by piece, through a buffer of 65,536 bytes that is made once, up to a limit.
/// Contracts see the piece, how many bytes were taken, the limit, and whether the input ended.
#[derive(Drop)]
pub struct Pump {
    buffer: Vec<u8>,
    filled: usize,
    taken: usize,
    limit: u64,
    ended: bool,
}

impl Model for Pump {
    ghost use Rattle.std.specs.Prelude.{◌≡◌, ◌+◌, ◌≤◌, take, length};
    ghost use Rattle.port_io.specs.Pumping.{Pumping};

    ghost Value = { Pumping };

    ghost view = { λ p. record {
      piece = take p.filled p.buffer.items;
      taken = p.taken;
      limit = p.limit;
      ended = p.ended;
    } };

    ghost invariant = { λ p. (length p.buffer.items ≡ 65536) × (p.filled ≤ 65536) × (p.taken ≤ p.limit + 1)
        × (p.limit ≤ 2147483648) };
}

impl Pump {
    /// A pump of inputs of at most `limit` bytes.
    pub fn new(alloc: Global, limit: u64) -> Result<Pump, AllocError>
        requires { limit ≤ 2147483648 }
        ensures { IfOk result (λ pump. pump ≡ nothing_pumped limit) }
    {
        Ok(Pump {
            buffer: vec![in alloc; 0u8; PIECE]?,
            filled: 0,
            taken: 0,
            limit,
            ended: false,
        })
    }

    /// Takes the next piece, and answers how long it is: 0 at the end alone. It asks the source once, for at most
    /// 65,536 bytes, and for none beyond `limit + 1` in all; and not at all where that many were taken: it is `TooLong`
    /// then, at each later call too. After a refusal the piece is empty, and after `ReadFault` all else is as it was.
    pub fn next<S: Source>(&mut self, source: &mut S) -> Result<usize, ReadError>
        requires { self.old.ended ≡ false }
        ensures piece { IfOk result (λ count. length self.new.piece ≡ count) }
        ensures taken { IfOk result (λ count. Took (S.left source.old) (S.left source.new) self.new.piece) }
        ensures counted { IfOk result (λ count. self.new.taken ≡ self.old.taken + count) }
        ensures within { IfOk result (λ count. self.new.taken ≤ self.old.limit) }
        ensures end { IfOk result (λ count. (self.new.ended ≡ true ↔ count ≡ 0)) }
        ensures all { IfOk result (λ count. count ≡ 0 → Ended (S.left source.new)) }
        ensures too_long { result ≡ Err ReadError.TooLong ↔ self.new.taken ≡ self.old.limit + 1 }
        ensures too_many { result ≡ Err ReadError.TooLong →
            TookExactly (self.new.taken - self.old.taken) (S.left source.old) (S.left source.new) }
        ensures empty { IfErr result (λ why. self.new.piece ≡ []) }
        ensures open { IfErr result (λ why. self.new.ended ≡ false) }
        ensures kept { result ≡ Err ReadError.ReadFault → self.new ≡ record self.old { piece = [] } }
        ensures untaken { result ≡ Err ReadError.ReadFault → Keeps (S.left source.old) (S.left source.new) }
        ensures same_limit { self.new.limit ≡ self.old.limit }
        ensures memory { result ≢ Err ReadError.NoMemory }
        ensures fault { result ≡ Err ReadError.ReadFault →
            FailedLast (S.faults source.old) (S.faults source.new) (S.asked source.new).failed }
        ensures no_fault { result ≢ Err ReadError.ReadFault → S.faults source.new ≡ S.faults source.old }
        ensures later { S.faults source.old ≤ S.faults source.new }
        ensures asked { AsksWithin 65536 (self.old.limit + 1 - self.old.taken) (S.asked source.old)
            (S.asked source.new) }
        ensures met { result ≡ Ok 0 → (S.asked source.new).ends ≡ one_more (S.asked source.old).ends }
        ensures unmet { result ≢ Ok 0 → (S.asked source.new).ends ≡ (S.asked source.old).ends }
        ensures told { IfOk result (λ count. (S.asked source.new).taken ≤ (S.asked source.old).taken + count) }
        ensures steady { S.never_fails source.old → S.never_fails source.new
            × (S.faults source.new ≡ S.faults source.old)
            × (result ≢ Err ReadError.ReadFault) }
    {
        self.filled = 0;
        let left = self.limit as usize + 1 - self.taken;
        if left == 0 {
            return Err(ReadError::TooLong);
        }
        let Ok(count) = read_front(source, &mut self.buffer, left) else {
            return Err(ReadError::ReadFault);
        };
        self.taken += count;
        if count == left {
            return Err(ReadError::TooLong);
        }
        self.filled = count;
        self.ended = count == 0;
        Ok(count)
    }

    /// The piece that the last call of `next` took: nothing before the first one, at the end, and after a refusal.
    pub fn piece(&self) -> &[u8]
        ensures { result.now ≡ self.now.piece }
    {
        &self.buffer[..self.filled]
    }

    /// Whether the input ended: the last call of `next` took nothing.
    pub fn ended(&self) -> bool
        ensures { result ≡ self.now.ended }
    {
        self.ended
    }
}

// Reads once into the front of a buffer, at most so many bytes.
fn read_front<S: Source>(source: &mut S, buffer: &mut [u8], most: usize) -> Result<usize, Failed>
    requires room { 0 < length buffer.old }
    requires some { 0 < most }
    ensures length { length buffer.new ≡ length buffer.old }
    ensures within { IfOk result (λ count. (count ≤ most) × (count ≤ length buffer.old)) }
    ensures taken { IfOk result (λ count. Took (S.left source.old) (S.left source.new) (take count buffer.new)) }
    ensures end { IfOk result (λ count. count ≡ 0 → Ended (S.left source.new)) }
    ensures none { OnErr result (Keeps (S.left source.old) (S.left source.new)) }
    ensures asked { S.asked source.new
        ≡ given (asked_for (S.asked source.old) (min (length buffer.old) most)) result }
    ensures cause { HasCause (S.faults source.old) (S.faults source.new) result }
    ensures steady { S.never_fails source.old → S.never_fails source.new
        × (S.faults source.new ≡ S.faults source.old) × IsOk result }
{
    let want = buffer.len().min(most);
    source.read(&mut buffer[..want])
}
