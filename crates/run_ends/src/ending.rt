//! How a run ends that wrote a text.

ghost use Rattle.std.specs.Prelude.{ℕ, List};
ghost use Rattle.run_ends.specs.Runs.{HasDelivered};
ghost use Rattle.run_ends.specs.Ways.{HasText};
ghost use Rattle.text_writer.specs.Giving.{IsWritten};

use crate::status::Status;
use port_io::{Sink, WriteFault};

/// Flushes a sink to which a text was written, and ends as it is to end. Where the text was not written whole, no call is
/// made.
pub fn finish<K: Sink>(out: &mut K, wrote: Result<(), WriteFault>, end: Status) -> Status
    requires { HasText end }
    ensures { (first : K) (text : List ℕ) → IsWritten K.Sink first out.old text wrote →
        HasDelivered K.Sink end text first out.new result }
{
    match wrote {
        Err(_) => Status::WriteFault,
        Ok(()) => match out.flush() {
            Ok(()) => end,
            Err(_) => Status::WriteFault,
        },
    }
}
