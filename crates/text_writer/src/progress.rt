//! Bytes that are given to a sink until it fails.

ghost use Rattle.std.specs.Prelude.{◌≡◌, true, false, OnOk, IfErr};
ghost use Rattle.text_writer.specs.Giving.{Gives, nothing_given};

use port_io::{Sink, WriteFault, write_all};

/// How many bytes a sink took so far, and whether a call of it has failed: then no call is made any more.
#[derive(Clone, Copy)]
pub(crate) struct Progress {
    handed: usize,
    failed: bool,
}

impl Progress {
    /// Before the first byte.
    pub(crate) fn nothing() -> Progress
        ensures { result ≡ nothing_given }
    {
        Progress {
            handed: 0,
            failed: false,
        }
    }

    /// Gives these bytes to the sink, if no call has failed.
    pub(crate) fn give<K: Sink>(&mut self, out: &mut K, bytes: &[u8])
        ensures { Gives K.Sink out.old self.old out.new self.new bytes.now }
    {
        if self.failed {
            return;
        }
        match write_all(out, bytes) {
            Ok(()) => self.handed = self.handed.saturating_add(bytes.len()),
            Err(fault) => {
                self.handed = self.handed.saturating_add(fault.written);
                self.failed = true;
            }
        }
    }

    /// The fault, if a call has failed.
    pub(crate) fn outcome(self) -> Result<(), WriteFault>
        ensures fine { OnOk result (self.failed ≡ false) }
        ensures failed { IfErr result (λ fault. (self.failed ≡ true) × (fault.written ≡ self.handed)) }
    {
        if self.failed {
            return Err(WriteFault {
                written: self.handed,
            });
        }
        Ok(())
    }
}
