//! A source and a sink in memory, which fail at the calls that they are told.

ghost use Rattle.std.specs.Prelude.{◌≡◌, ℕ, ◌≤◌, [], length, false, true, not, is_ok, Some, IfOk, OnOk, OnErr, Contains};
ghost use Rattle.port_io.specs.Causes.{one_more};
ghost use Rattle.port_io.specs.Asking.{nothing_asked};
ghost use Rattle.port_io.specs.Memory.{ReadsMemory, WritesMemory, FlushesMemory, TakesMore};

use crate::asking::Asked;
use crate::ports::{Failed, Sink, Source};
use std::alloc::{AllocError, Global};
use std::marker::Model;

/// The calls so far, the numbers of those that fail, how many failed, and whether the last one did.
#[derive(Drop)]
struct Calls {
    made: u64,
    failing: Vec<u64>,
    faults: u64,
    failed: bool,
}

impl Calls {
    fn new(alloc: Global, failing: &[u64]) -> Result<Calls, AllocError>
        ensures made { IfOk result (λ calls. calls.made ≡ 0) }
        ensures failing { IfOk result (λ calls. calls.failing.items ≡ failing.now) }
        ensures faults { IfOk result (λ calls. calls.faults ≡ 0) }
        ensures failed { IfOk result (λ calls. calls.failed ≡ false) }
    {
        Ok(Calls {
            made: 0,
            failing: failing.to_vec(alloc)?,
            faults: 0,
            failed: false,
        })
    }

    // One call more, which fails where its number is listed.
    fn count(&mut self) -> Result<(), Failed>
        ensures made { self.new.made ≡ one_more self.old.made }
        ensures failing { self.new.failing.items ≡ self.old.failing.items }
        ensures fine { OnOk result ((¬ Contains self.old.failing.items self.new.made)
            × (self.new.faults ≡ self.old.faults)) }
        ensures unfine { OnErr result (Contains self.old.failing.items self.new.made
            × (self.new.faults ≡ one_more self.old.faults)) }
        ensures failed { self.new.failed ≡ not (is_ok result) }
    {
        self.made = self.made.saturating_add(1);
        self.failed = false;
        if self.failing.contains(&self.made) {
            return Err(self.fail());
        }
        Ok(())
    }

    // The call fails.
    fn fail(&mut self) -> Failed
        ensures made { self.new.made ≡ self.old.made }
        ensures failing { self.new.failing.items ≡ self.old.failing.items }
        ensures faults { self.new.faults ≡ one_more self.old.faults }
        ensures failed { self.new.failed ≡ true }
    {
        self.faults = self.faults.saturating_add(1);
        self.failed = true;
        Failed
    }
}

/// Gives these bytes.
#[derive(Drop)]
pub struct MemSource {
    bytes: Vec<u8>,
    taken: usize,
    most: usize,
    asked: Asked,
    calls: Calls,
}

impl Model for MemSource {
    ghost use Rattle.std.specs.Prelude.{ℕ, ◌≤◌, length, drop};
    ghost use Rattle.port_io.specs.Memory.{MemorySource};

    ghost Value = { MemorySource };

    ghost view = { λ s. record {
      left = drop s.taken s.bytes.items;
      most = s.most;
      asked = s.asked;
      calls = s.calls.made;
      fails =
          s.calls.failing.items;
      faults = s.calls.faults;
    } };

    ghost invariant = { λ s. (s.taken ≤ length s.bytes.items) × (1 ≤ s.most) };
}

impl MemSource {
    /// A source of these bytes, at most `most` in one call. `fails` lists the numbers of the calls
    /// that fail, counted from 1.
    pub fn new(
        alloc: Global,
        bytes: &[u8],
        most: usize,
        fails: &[u64],
    ) -> Result<MemSource, AllocError>
        requires { 1 ≤ most }
        ensures made { IfOk result (λ source. source ≡ record {
          left = bytes.now;
          most = most;
          asked = nothing_asked;
          calls = 0;
          fails = fails.now;
          faults = 0;
        }) }
        ensures zero { IfOk result (λ source. ⟦<MemSource as Source>⟧.faults source ≡ 0) }
        ensures left { IfOk result (λ source. ⟦<MemSource as Source>⟧.left source ≡ Some bytes.now) }
        ensures steady { IfOk result (λ source. fails.now ≡ [] → ⟦<MemSource as Source>⟧.never_fails source) }
    {
        Ok(MemSource {
            bytes: bytes.to_vec(alloc)?,
            taken: 0,
            most,
            asked: Asked::nothing(),
            calls: Calls::new(alloc, fails)?,
        })
    }
}

impl Source for MemSource {
    ghost left = { λ source. Some source.left };

    ghost faults = { λ source. source.faults };

    ghost asked = { λ source. source.asked };

    ghost never_fails = { λ source. source.fails ≡ [] };

    ghost read_gives = { λ before space result after. ReadsMemory before space result after };

    fn read(&mut self, buffer: &mut [u8]) -> Result<usize, Failed> {
        self.asked.ask(buffer.len());
        self.calls.count()?;
        let rest = &self.bytes[self.taken..];
        let count = buffer.len().min(self.most).min(rest.len());
        buffer[..count].copy_from_slice(&rest[..count]);
        self.taken += count;
        self.asked.give(count);
        Ok(count)
    }
}

/// Keeps what is written to it.
#[derive(Drop)]
pub struct MemSink {
    bytes: Vec<u8>,
    most: usize,
    room: usize,
    flushed: bool,
    flushes: u64,
    calls: Calls,
}

impl Model for MemSink {
    ghost use Rattle.std.specs.Prelude.{ℕ, ◌≤◌, length, vec_capacity};
    ghost use Rattle.port_io.specs.Memory.{MemorySink};

    ghost Value = { MemorySink };

    ghost view = { λ s. record {
      written = s.bytes.items;
      most = s.most;
      room = s.room;
      flushed = s.flushed;
      flushes = s.flushes;
      calls =
          s.calls.made;
      fails = s.calls.failing.items;
      faults = s.calls.faults;
      failed = s.calls.failed;
    } };

    ghost invariant = { λ s. (length s.bytes.items ≤ s.room) × (s.room ≤ vec_capacity s.bytes) × (1 ≤ s.most) };
}

impl MemSink {
    /// A sink with room for `room` bytes, which takes at most `most` in one call. `fails` lists the
    /// numbers of the calls that fail, counted from 1.
    pub fn new(
        alloc: Global,
        most: usize,
        room: usize,
        fails: &[u64],
    ) -> Result<MemSink, AllocError>
        requires { 1 ≤ most }
        ensures made { IfOk result (λ sink. sink ≡ record {
          written = [];
          most = most;
          room = room;
          flushed = false;
          flushes = 0;
          calls = 0;
          fails = fails.now;
          faults = 0;
          failed = false;
        }) }
        ensures zero { IfOk result (λ sink. ⟦<MemSink as Sink>⟧.faults sink ≡ 0) }
        ensures written { IfOk result (λ sink. ⟦<MemSink as Sink>⟧.written sink ≡ Some []) }
        ensures unflushed { IfOk result (λ sink. ⟦<MemSink as Sink>⟧.flushed sink ≡ false) }
        ensures steady { IfOk result (λ sink. fails.now ≡ [] → ⟦<MemSink as Sink>⟧.takes sink room) }
    {
        Ok(MemSink {
            bytes: Vec::with_capacity(alloc, room)?,
            most,
            room,
            flushed: false,
            flushes: 0,
            calls: Calls::new(alloc, fails)?,
        })
    }

    /// What was written.
    pub fn bytes(&self) -> &[u8]
        ensures same { result.now ≡ self.now.written }
        ensures written { ⟦<MemSink as Sink>⟧.written self.now ≡ Some result.now }
    {
        &self.bytes
    }
}

impl Sink for MemSink {
    ghost written = { λ sink. Some sink.written };

    ghost flushed = { λ sink. sink.flushed };

    ghost flushes = { λ sink. sink.flushes };

    ghost faults = { λ sink. sink.faults };

    ghost failed = { λ sink. sink.failed };

    ghost takes = { λ sink more. TakesMore sink more };

    ghost write_gives = { λ before piece result after. WritesMemory before piece result after };

    ghost flush_gives = { λ before result after. FlushesMemory before result after };

    fn write(&mut self, piece: &[u8]) -> Result<usize, Failed> {
        self.calls.count()?;
        if self.bytes.len() == self.room && !piece.is_empty() {
            return Err(self.calls.fail());
        }
        let count = piece.len().min(self.most).min(self.room - self.bytes.len());
        if self.bytes.extend_from_slice(&piece[..count]).is_err() {
            unreachable!();
        }
        self.flushed = self.flushed && count == 0;
        Ok(count)
    }

    fn flush(&mut self) -> Result<(), Failed> {
        self.flushes = self.flushes.saturating_add(1);
        self.calls.count()?;
        self.flushed = true;
        Ok(())
    }
}
