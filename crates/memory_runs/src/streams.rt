//! Streams in memory, and how they are to fail.

ghost use Rattle.std.specs.Prelude.{◌≡◌, [], map, max, IfOk};
ghost use Rattle.std.specs.String.{string_bytes};
ghost use Rattle.memory_runs.specs.Opened.{opened_sink, opened_source};

use crate::words::words_of;
use port_io::{MemSink, MemSource};
use std::alloc::{AllocError, Global};

/// Enough room for each text.
pub const ROOM: usize = 9_000_000;

/// What a run gets: the words of its command line, and streams.
#[derive(Clone, Copy)]
pub struct Streams<'a> {
    pub words: &'a [&'a str],
    pub input: &'a [u8],
    /// The most bytes that the source gives in one call, and that the sink for texts takes in one.
    pub step: usize,
    pub most: usize,
    /// The calls that fail, counted from 1: of the source, of the sink for texts, and of the sink for notes.
    pub source_fails: &'a [u64],
    pub out_fails: &'a [u64],
    pub notes_fail: &'a [u64],
}

/// The words of a command line, and a source, a sink for texts and a sink for notes, all in memory. After a run they tell
/// what it leaves.
#[derive(Drop)]
pub struct Memory {
    pub words: Vec<String>,
    pub source: MemSource,
    pub out: MemSink,
    pub notes: MemSink,
}

impl<'a> Streams<'a> {
    /// These words, and streams over this input that give and take all in one call, of which none fails.
    pub fn calm(words: &'a [&'a str], input: &'a [u8]) -> Streams<'a>
        ensures words { result.words.now ≡ words.now }
        ensures input { result.input.now ≡ input.now }
        ensures steps { (result.step ≡ 9000000) × (result.most ≡ 9000000) }
        ensures calm { (result.source_fails.now ≡ []) × (result.out_fails.now ≡ []) × (result.notes_fail.now ≡ []) }
    {
        Streams {
            words,
            input,
            step: ROOM,
            most: ROOM,
            source_fails: &[],
            out_fails: &[],
            notes_fail: &[],
        }
    }

    /// The streams before the first call, in each call at least one byte; the sinks have room for 9,000,000 bytes.
    pub fn open(&self, alloc: Global) -> Result<Memory, AllocError>
        ensures words { IfOk result (λ memory.
            map string_bytes memory.words.items ≡ map (λ word. word.now) self.now.words.now) }
        ensures source { IfOk result (λ memory.
            memory.source ≡ opened_source self.now.input.now (max self.now.step 1) self.now.source_fails.now) }
        ensures out { IfOk result (λ memory. memory.out ≡ opened_sink (max self.now.most 1) self.now.out_fails.now) }
        ensures notes { IfOk result (λ memory. memory.notes ≡ opened_sink 9000000 self.now.notes_fail.now) }
    {
        Ok(Memory {
            words: words_of(alloc, self.words)?,
            source: MemSource::new(alloc, self.input, self.step.max(1), self.source_fails)?,
            out: MemSink::new(alloc, self.most.max(1), ROOM, self.out_fails)?,
            notes: MemSink::new(alloc, ROOM, ROOM, self.notes_fail)?,
        })
    }
}
