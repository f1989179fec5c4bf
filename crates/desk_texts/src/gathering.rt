//! A sink in memory.

ghost use Rattle.std.specs.Prelude.{◌≡◌, [], Some};

use port_io::{Failed, Sink};
use std::alloc::Global;

/// Gathers in memory what is written to it. A write for which there is no memory fails.
#[derive(Drop)]
pub(crate) struct Gathering {
    bytes: Vec<u8>,
    flushed: bool,
    flushes: u64,
    faults: u64,
    failed: bool,
}

impl Gathering {
    /// A sink to which nothing was written.
    pub(crate) fn new(alloc: Global) -> Gathering
        ensures { ⟦<Gathering as Sink>⟧.written result ≡ Some [] }
    {
        Gathering {
            bytes: Vec::new(alloc),
            flushed: false,
            flushes: 0,
            faults: 0,
            failed: false,
        }
    }

    /// What was written.
    pub(crate) fn into_bytes(self) -> Vec<u8>
        ensures { ⟦<Gathering as Sink>⟧.written self ≡ Some result.items }
    {
        self.bytes
    }
}

impl Sink for Gathering {
    ghost written = { λ sink. Some sink.bytes.items };

    ghost flushed = { λ sink. sink.flushed };

    ghost flushes = { λ sink. sink.flushes };

    ghost faults = { λ sink. sink.faults };

    ghost failed = { λ sink. sink.failed };

    ghost takes = { λ _ _. ⊥ };

    ghost write_gives = { λ _ _ _ _. Unit {0} };

    ghost flush_gives = { λ _ _ _. Unit {0} };

    fn write(&mut self, piece: &[u8]) -> Result<usize, Failed> {
        if self.bytes.extend_from_slice(piece).is_err() {
            self.faults = self.faults.saturating_add(1);
            self.failed = true;
            return Err(Failed);
        }
        self.flushed = self.flushed && piece.is_empty();
        self.failed = false;
        Ok(piece.len())
    }

    fn flush(&mut self) -> Result<(), Failed> {
        self.flushes = self.flushes.saturating_add(1);
        self.flushed = true;
        self.failed = false;
        Ok(())
    }
}
