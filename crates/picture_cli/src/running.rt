//! The top call.

ghost use Rattle.std.specs.Prelude.{◌≡◌};
ghost use Rattle.port_io.specs.Causes.{Rose};
ghost use Rattle.cert_reader.specs.Limits.{certificate_limit};
ghost use Rattle.run_ends.specs.Answers.{OnlyAnswer};
ghost use Rattle.run_ends.specs.Notes.{HasNoted};
ghost use Rattle.run_ends.specs.Runs.{HasDelivered, HasRunOver};
ghost use Rattle.run_ends.specs.declared.status.Status.TheVariants.{Done};
ghost use Rattle.picture_cli.specs.Answer.{IsPictureAnswer};
ghost use Rattle.picture_cli.specs.Drawings.{drawing_in, drawing_text};

use crate::drawing::{AnyDrawing, read_drawing, write_drawing};
use port_io::{Sink, Source};
use run_ends::{Status, finish, tell};
use std::alloc::Global;

/// Reads a certificate from the source to its end, writes the SVG picture of its form to `out`, and notes in one line
/// why where that was not done.
pub fn run<S: Source, K: Sink, N: Sink>(
    alloc: Global,
    source: &mut S,
    out: &mut K,
    notes: &mut N,
) -> Status
    // a status that is no fault is the answer to what was read, faults have their cause and are told, and where there is
    // no picture no call of `out` is made
    ensures run { HasRunOver S.Source K.Sink certificate_limit IsPictureAnswer source.old source.new out.old out.new
        result }

    // where nothing fails, no other status comes
    ensures only_answer { (Rose (S.faults source.old) (S.faults source.new) → ⊥) →
        (Rose (K.faults out.old) (K.faults out.new) → ⊥) → OnlyAnswer IsPictureAnswer (S.left source.old) result }

    // what is noted, by no call where the whole picture was written
    ensures noted { HasNoted N.Sink notes.old notes.new result }
{
    let status = work(alloc, source, out);
    tell(notes, status);
    status
}

// A run, but for what is noted.
fn work<S: Source, K: Sink>(alloc: Global, source: &mut S, out: &mut K) -> Status
    ensures { HasRunOver S.Source K.Sink certificate_limit IsPictureAnswer source.old source.new out.old out.new
        result }
{
    match read_drawing(alloc, source) {
        Ok(drawing) => deliver(out, &drawing),
        Err(status) => status,
    }
}

// Writes the whole picture, and flushes it.
fn deliver<K: Sink>(out: &mut K, drawing: &AnyDrawing) -> Status
    ensures { HasDelivered K.Sink Done (drawing_text (drawing_in drawing.now)) out.old out.new result }
{
    let wrote = write_drawing(out, drawing);
    finish(out, wrote, Status::Done)
}
