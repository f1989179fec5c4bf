//! Sources and sinks over std's readers and writers, as the process's own streams. They tell the bytes
//! that the reader has left or the writer has got where std tells them, as of a list in memory, and
//! none of the process's own streams, and count a fault for each call that was refused.

ghost use Rattle.std.specs.Prelude.{◌≡◌, ◌≤◌, ℕ, false, IfOk};
ghost use Rattle.port_io.specs.Asking.{nothing_asked};

use crate::asking::Asked;
use crate::ports::{Failed, Sink, Source};
use std::io::{Read, Write};

/// A source over one of std's readers, as standard input.
#[derive(Drop)]
pub struct StdSource<R> {
    stream: R,
    asked: Asked,
    faults: u64,
}

impl<R: Read + Drop> StdSource<R> {
    /// A source with no fault yet.
    pub fn new(stream: R) -> StdSource<R>
        ensures zero { ⟦<StdSource<R> as Source>⟧.faults result ≡ 0 }
        ensures left { ⟦<StdSource<R> as Source>⟧.left result ≡ R.remaining stream }
        ensures unasked { ⟦<StdSource<R> as Source>⟧.asked result ≡ nothing_asked }
    {
        StdSource {
            stream,
            asked: Asked::nothing(),
            faults: 0,
        }
    }
}

impl<R: Read + Drop> Source for StdSource<R> {
    ghost left = { λ source. R.remaining source.stream };

    ghost faults = { λ source. source.faults };

    ghost asked = { λ source. source.asked };

    ghost never_fails = { λ _. ⊥ };

    ghost read_gives = { λ _ _ _ _. Unit {0} };

    fn read(&mut self, buffer: &mut [u8]) -> Result<usize, Failed> {
        self.asked.ask(buffer.len());
        let Ok(count) = self.stream.read(buffer) else {
            self.faults = self.faults.saturating_add(1);
            return Err(Failed);
        };
        self.asked.give(count);
        Ok(count)
    }
}

/// A sink over one of std's writers, as standard output or standard error.
#[derive(Drop)]
pub struct StdSink<W> {
    stream: W,
    flushed: bool,
    flushes: u64,
    faults: u64,
    failed: bool,
}

impl<W: Write + Drop> StdSink<W> {
    /// A sink with no fault yet.
    pub fn new(stream: W) -> StdSink<W>
        ensures zero { ⟦<StdSink<W> as Sink>⟧.faults result ≡ 0 }
        ensures written { ⟦<StdSink<W> as Sink>⟧.written result ≡ W.contents stream }
        ensures unflushed { ⟦<StdSink<W> as Sink>⟧.flushed result ≡ false }
        ensures no_flush { ⟦<StdSink<W> as Sink>⟧.flushes result ≡ 0 }
        ensures fine { ⟦<StdSink<W> as Sink>⟧.failed result ≡ false }
    {
        StdSink {
            stream,
            flushed: false,
            flushes: 0,
            faults: 0,
            failed: false,
        }
    }
}

impl<W: Write + Drop> Sink for StdSink<W> {
    ghost written = { λ sink. W.contents sink.stream };

    ghost flushed = { λ sink. sink.flushed };

    ghost flushes = { λ sink. sink.flushes };

    ghost faults = { λ sink. sink.faults };

    ghost failed = { λ sink. sink.failed };

    ghost takes = { λ _ _. ⊥ };

    ghost write_gives = { λ _ _ _ _. Unit {0} };

    ghost flush_gives = { λ _ _ _. Unit {0} };

    fn write(&mut self, piece: &[u8]) -> Result<usize, Failed> {
        match self.stream.write(piece) {
            Ok(count) if count > 0 || piece.is_empty() => {
                self.flushed = self.flushed && count == 0;
                self.failed = false;
                Ok(count)
            }
            _ => {
                self.faults = self.faults.saturating_add(1);
                self.failed = true;
                Err(Failed)
            }
        }
    }

    fn flush(&mut self) -> Result<(), Failed> {
        self.flushes = self.flushes.saturating_add(1);
        if self.stream.flush().is_err() {
            self.faults = self.faults.saturating_add(1);
            self.failed = true;
            return Err(Failed);
        }
        self.flushed = true;
        self.failed = false;
        Ok(())
    }
}

#[cfg(test)]
mod tests {
    use super::*;
    use std::io;
    use std::io::ErrorKind;
    use std::test::Fail;

    /// Fails at its second call, and moves at most two bytes in each other one; from the fifth on
    /// it moves none.
    #[derive(Drop)]
    struct Unsteady {
        calls: u64,
    }

    impl Unsteady {
        fn call(&mut self, bytes: usize) -> io::Result<usize>
            ensures { IfOk result (λ n. n ≤ bytes) }
        {
            self.calls = self.calls.saturating_add(1);
            match self.calls {
                2 => Err(io::Error::from(ErrorKind::Other)),
                0..5 => Ok(bytes.min(2)),
                _ => Ok(0),
            }
        }
    }

    impl Read for Unsteady {
        fn read(&mut self, buffer: &mut [u8]) -> io::Result<usize> {
            let count = self.call(buffer.len())?;
            buffer[..count].fill(b'a');
            Ok(count)
        }
    }

    impl Write for Unsteady {
        fn write(&mut self, piece: &[u8]) -> io::Result<usize> {
            self.call(piece.len())
        }

        fn flush(&mut self) -> io::Result<()> {
            self.call(0)?;
            Ok(())
        }
    }

    #[test]
    fn a_source_counts_its_faults(rt: HostRuntime) -> Result<(), Fail> {
        let mut source = StdSource::new(Unsteady { calls: 0 });
        let mut buffer = [0; 3];
        for (want, faults) in [
            (Some(2), 0),
            (None, 1),
            (Some(2), 1),
            (Some(2), 1),
            (Some(0), 1),
        ] {
            assert_eq!(rt; source.read(&mut buffer).ok(), want);
            assert_eq!(rt; source.faults, faults);
        }
        assert_eq!(rt; buffer, [b'a', b'a', 0]);
        Ok(())
    }

    #[test]
    fn a_sink_counts_its_faults(rt: HostRuntime) -> Result<(), Fail> {
        let mut sink = StdSink::new(Unsteady { calls: 0 });
        for (want, faults) in [
            (Some(2), 0),
            (None, 1),
            (Some(2), 1),
            (Some(2), 1),
            (None, 2),
        ] {
            assert_eq!(rt; sink.write(b"abc").ok(), want);
            assert_eq!(rt; sink.faults, faults);
        }
        assert!(rt; !sink.flushed);
        assert!(rt; sink.flush().is_ok());
        assert!(rt; sink.flushed);
        assert_eq!(rt; sink.write(b"").ok(), Some(0));
        assert!(rt; sink.flushed);
        Ok(())
    }

    /// Takes all that is written, and fails at its first flushes.
    #[derive(Drop)]
    struct Stuck {
        failures: u64,
        flushes: u64,
    }

    impl Write for Stuck {
        fn write(&mut self, piece: &[u8]) -> io::Result<usize> {
            Ok(piece.len())
        }

        fn flush(&mut self) -> io::Result<()> {
            self.flushes = self.flushes.saturating_add(1);
            if self.flushes <= self.failures {
                return Err(io::Error::from(ErrorKind::Other));
            }
            Ok(())
        }
    }

    #[test]
    fn a_sink_is_flushed_where_its_stream_is(rt: HostRuntime) -> Result<(), Fail> {
        for (failures, faults) in [(0, 0), (1, 1), (9, 3)] {
            let mut sink = StdSink::new(Stuck {
                failures,
                flushes: 0,
            });
            for call in 1..4 {
                assert_eq!(rt; sink.write(b"abc").ok(), Some(3));
                assert_eq!(rt; sink.flush().is_ok(), call > failures, "at {failures}");
                assert_eq!(rt; sink.flushed, call > failures, "at {failures}");
                assert_eq!(rt; sink.stream.flushes, call, "at {failures}");
            }
            assert_eq!(rt; sink.flushes, 3);
            assert_eq!(rt; sink.faults, faults, "at {failures}");
        }
        Ok(())
    }

    #[test]
    fn bytes_go_through(rt: HostRuntime) -> Result<(), Fail> {
        let mut source = StdSource::new(b"abcde".as_slice());
        let mut buffer = [0; 3];
        assert_eq!(rt; source.read(&mut buffer).ok(), Some(3));
        assert_eq!(rt; buffer, *b"abc");
        assert_eq!(rt; source.read(&mut buffer).ok(), Some(2));
        assert_eq!(rt; source.asked.taken, 5);
        assert_eq!(rt; source.asked.longest, 3);
        assert_eq!(rt; source.asked.furthest, 6);
        let mut sink = StdSink::new(Vec::new(rt.alloc()));
        assert_eq!(rt; sink.write(b"abc").ok(), Some(3));
        assert_eq!(rt; sink.stream.as_slice(), b"abc".as_slice());
        Ok(())
    }

    #[test]
    fn the_real_streams_fit(rt: HostRuntime) -> Result<(), Fail> {
        let mut source = StdSource::new(rt.stdin());
        assert_eq!(rt; source.read(&mut []).ok(), Some(0));
        let mut sink = StdSink::new(rt.stdout());
        assert!(rt; sink.flush().is_ok());
        let mut notes = StdSink::new(rt.stderr());
        assert!(rt; notes.flush().is_ok());
        Ok(())
    }
}
