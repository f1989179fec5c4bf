//! Runs over memory.

ghost use Rattle.std.specs.Prelude.{◌≡◌, ◌≤◌, map, Some, IfOk};
ghost use Rattle.std.specs.String.{string_bytes};
ghost use Rattle.run_ends.specs.Answers.{EachTextFits, OnlyAnswer};
ghost use Rattle.report_cli.specs.Answer.{IsAnswer, IsComplete, IsMakeComplete};
ghost use Rattle.answer_laws.specs.InMemory.{AnswersInMemory, IsAnsweredBy, IsCalm};

use port_io::{MemSink, MemSource, Sink};
use report_cli::{Status, run};
use std::alloc::{AllocError, Global};

/// A run over memory with enough room, of whose calls none is to fail: none does, and the run ends with the answer to
/// the whole input, but for want of memory.
pub fn run_in_memory<N: Sink>(
    alloc: Global,
    words: &[String],
    source: &mut MemSource,
    out: &mut MemSink,
    notes: &mut N,
) -> Status
    requires { IsCalm (map string_bytes words.now) source.old out.old }
    ensures source { source.new.faults ≡ source.old.faults }
    ensures out { out.new.faults ≡ out.old.faults }
    ensures answers { AnswersInMemory (map string_bytes words.now) source.old source.new out.old out.new result }
    ensures only_answer { OnlyAnswer (IsAnswer (map string_bytes words.now)) (Some source.old.left) result }
    ensures complete { IsComplete (map string_bytes words.now) (Some source.old.left) result }
    ensures complete_make { IsMakeComplete (map string_bytes words.now) result }
{
    run(alloc, words, source, out, notes)
}

/// How a run on this input ends, where the room is enough for each text that answers it, and the sink, which holds the
/// answer's text. It is an error that there is no memory for the streams.
pub fn answer(
    alloc: Global,
    words: &[String],
    input: &[u8],
    room: usize,
) -> Result<(Status, MemSink), AllocError>
    requires { EachTextFits (IsAnswer (map string_bytes words.now)) (λ size. size ≤ room) input.now }
    ensures answered { IfOk result (λ answer.
        IsAnsweredBy (map string_bytes words.now) input.now answer.0 answer.1.written) }
    ensures only_answer { IfOk result (λ answer.
        OnlyAnswer (IsAnswer (map string_bytes words.now)) (Some input.now) answer.0) }
    ensures complete { IfOk result (λ answer. IsComplete (map string_bytes words.now) (Some input.now) answer.0) }
    ensures complete_make { IfOk result (λ answer. IsMakeComplete (map string_bytes words.now) answer.0) }
{
    let mut source = MemSource::new(alloc, input, 65_536, &[])?;
    let mut out = MemSink::new(alloc, room.max(1), room, &[])?;
    let mut notes = MemSink::new(alloc, 64, 64, &[])?;
    let status = run_in_memory(alloc, words, &mut source, &mut out, &mut notes);
    Ok((status, out))
}
