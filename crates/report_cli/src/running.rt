//! The top call.

ghost use Rattle.std.specs.Prelude.{◌≡◌, ◌≢◌, ℕ, ◌+◌, ◌≤◌, ◌<◌, List, Option, IsTrue, map, Some};
ghost use Rattle.std.specs.String.{string_bytes};
ghost use Rattle.port_io.specs.Asking.{AsksWithin};
ghost use Rattle.port_io.specs.Bytes.{Ended};
ghost use Rattle.port_io.specs.Causes.{FailedLast, IsAtMostOneMore, Rose, one_more};
ghost use Rattle.residue_field.specs.Modulus.{modulus_of};
ghost use Rattle.made_models.specs.MadeModels.{IsSize};
ghost use Rattle.command_line.specs.Words.{AsksFor, AsksForNoInput, AsksToMake, format_of};
ghost use Rattle.run_ends.specs.Answers.{Answered, CutShort, EachTextFits, OnlyAnswer};
ghost use Rattle.run_ends.specs.Runs.{HasDelivered, HasRunOver};
ghost use Rattle.run_ends.specs.Ways.{HasText, ReadsAll, TakesBy, TellsAnswer, WritesNothing};
ghost use Rattle.run_ends.specs.declared.status.Status.{Status};
ghost use Rattle.report_cli.specs.Answer.{EachMadeTextFits, IsAnswer, IsAnswerOf, IsAnswerOver, IsComplete};
ghost use Rattle.report_cli.specs.Answer.{IsMakeAnswer, IsMakeComplete};
ghost use Rattle.report_cli.specs.Fields.{command_modulus};
ghost use Rattle.report_cli.specs.Formats.{limit_of};
ghost use Rattle.report_cli.specs.Makes.{HasMadeOver};
ghost use Rattle.report_cli.specs.Notes.{EachNoteFits, IsNotedOf};
ghost use Rattle.report_cli.specs.Outputs.{IsWritable, end_of, output_text};

use crate::output::Output;
use crate::telling::{status_of, tell_words};
use command_line::{Command, Request, over};
use port_io::{Sink, Source};
use residue_field::{Field, FieldName, Res, Res31};
use run_ends::{Status, finish, tell};
use std::alloc::Global;

/// Runs the command that the words ask for: reads the source to its end, but for `make`, which reads nothing, writes the
/// whole text to `out`, and notes in one line why where that was not done. The first word is the program's own name. Of
/// words that ask for nothing it notes what clap tells of them, or the line `mixed: unknown word` where KIND or FIELD
/// alone is unknown.
pub fn run<S: Source, K: Sink, N: Sink>(
    alloc: Global,
    words: &[String],
    source: &mut S,
    out: &mut K,
    notes: &mut N,
) -> Status
    // what follows holds whatever `notes` does: no clause on the status, the source or `out` has a premise on it

    // a status that is no fault is the answer to what was read
    ensures answered { TellsAnswer result (Answered (IsAnswer (map string_bytes words.now)) (S.left source.old)
        (S.left source.new) (K.written out.old) (K.written out.new) result) }
    ensures ended { (command : Command) → AsksFor (map string_bytes words.now) command →
        ReadsAll result (Ended (S.left source.new)) }
    ensures finished { HasText result → IsTrue (K.flushed out.new) }
    ensures one_flush { HasText result → K.flushes out.new ≡ one_more (K.flushes out.old) }

    // where nothing fails, no other status comes, and an input that keeps each rule is answered, as is `make`
    ensures only_answer { (Rose (S.faults source.old) (S.faults source.new) → ⊥) →
        (Rose (K.faults out.old) (K.faults out.new) → ⊥) →
        OnlyAnswer (IsAnswer (map string_bytes words.now)) (S.left source.old) result }
    ensures complete { (Rose (S.faults source.old) (S.faults source.new) → ⊥) →
        (Rose (K.faults out.old) (K.faults out.new) → ⊥) →
        IsComplete (map string_bytes words.now) (S.left source.old) result }
    ensures complete_make { (Rose (K.faults out.old) (K.faults out.new) → ⊥) →
        IsMakeComplete (map string_bytes words.now) result }

    // faults have their cause: one call failed, and no other was made after it
    ensures read_fault { result ≡ Status.ReadFault →
        FailedLast (S.faults source.old) (S.faults source.new) (S.asked source.new).failed }
    ensures write_fault { result ≡ Status.WriteFault →
        FailedLast (K.faults out.old) (K.faults out.new) (K.failed out.new)
        × CutShort (IsAnswer (map string_bytes words.now)) (S.left source.old) (S.left source.new) (K.written out.old)
        (K.written out.new) }
    ensures fault_flush { result ≡ Status.WriteFault → IsAtMostOneMore (K.flushes out.old) (K.flushes out.new) }

    // and each fault is told
    ensures read_told { result ≢ Status.ReadFault → S.faults source.new ≡ S.faults source.old }
    ensures write_told { result ≢ Status.WriteFault → K.faults out.new ≡ K.faults out.old }

    // what is written, noted and taken: where there is no text no call of `out` is made, and where the whole text was
    // written no call of `notes`
    ensures nothing_written { WritesNothing result (out.new ≡ out.old) }
    ensures nothing_noted { HasText result → notes.new ≡ notes.old }
    ensures noted { IsNotedOf (map string_bytes words.now) (N.written notes.old) (N.written notes.new)
        (N.faults notes.old) (N.faults notes.new) (N.failed notes.new) result }
    ensures taken { (command : Command) → AsksFor (map string_bytes words.now) command →
        TakesBy (limit_of (format_of command)) result (S.left source.old) (S.left source.new) }
    ensures asked { (command : Command) → AsksFor (map string_bytes words.now) command →
        AsksWithin 65536 (limit_of (format_of command) + 1) (S.asked source.old) (S.asked source.new) }
    ensures met_once { IsAtMostOneMore (S.asked source.old).ends (S.asked source.new).ends }
    ensures untouched { AsksForNoInput (map string_bytes words.now) → source.new ≡ source.old }

    // counts of faults: none falls, and none rises over what is known not to fail
    ensures counts_source { S.faults source.old ≤ S.faults source.new }
    ensures counts_out { K.faults out.old ≤ K.faults out.new }
    ensures counts_notes { N.faults notes.old ≤ N.faults notes.new }
    ensures calm_source { S.never_fails source.old → S.faults source.new ≡ S.faults source.old }
    ensures calm_out { (input : List ℕ) → S.left source.old ≡ Some input →
        EachTextFits (IsAnswer (map string_bytes words.now)) (K.takes out.old) input →
        K.faults out.new ≡ K.faults out.old }
    ensures calm_make { (n : ℕ) (field : Option FieldName) → AsksToMake (map string_bytes words.now) n field →
        EachMadeTextFits (IsMakeAnswer (map string_bytes words.now)) (K.takes out.old) →
        K.faults out.new ≡ K.faults out.old }
    ensures calm_notes { EachNoteFits (N.takes notes.old) (map string_bytes words.now) result →
        N.faults notes.new ≡ N.faults notes.old }
{
    match Request::of(alloc, words) {
        Ok(Request::OfInput(command)) => {
            let status = work(alloc, command, source, out);
            tell(notes, status);
            status
        }
        Ok(Request::Make(size, named)) => {
            let status = make(alloc, size, over(named), out);
            tell(notes, status);
            status
        }
        Err(why) => {
            tell_words(notes, &why);
            status_of(&why)
        }
    }
}

// A run of a command over the field that it names, but for what is noted.
fn work<S: Source, K: Sink>(alloc: Global, command: Command, source: &mut S, out: &mut K) -> Status
    ensures { HasRunOver S.Source K.Sink (limit_of (format_of command)) (IsAnswerOf command) source.old source.new
        out.old out.new result }
{
    match command.field() {
        FieldName::Small => work_over::<Res, S, K>(alloc, command, source, out),
        FieldName::Large => work_over::<Res31, S, K>(alloc, command, source, out),
    }
}

// A run of a command over this field, but for what is noted.
fn work_over<F: Field, S: Source, K: Sink>(
    alloc: Global,
    command: Command,
    source: &mut S,
    out: &mut K,
) -> Status
    requires { F.modulus ≡ command_modulus command }
    ensures { HasRunOver S.Source K.Sink (limit_of (format_of command)) (IsAnswerOver F.number F.modulus command)
        source.old source.new out.old out.new result }
{
    match Output::<F>::read(alloc, command, source) {
        Ok(output) => deliver_whole(out, output),
        Err(status) => status,
    }
}

// Writes what is told of the made model of this size over this field.
fn make<K: Sink>(alloc: Global, size: usize, field: FieldName, out: &mut K) -> Status
    requires { IsSize size }
    ensures { HasMadeOver K.Sink (modulus_of field) size out.old out.new result }
{
    match field {
        FieldName::Small => make_over::<Res, K>(alloc, size, out),
        FieldName::Large => make_over::<Res31, K>(alloc, size, out),
    }
}

// The same over a field that has the constants of made models.
fn make_over<F: Field, K: Sink>(alloc: Global, size: usize, out: &mut K) -> Status
    requires size { IsSize size }
    requires constants { 65520 < F.modulus }
    ensures { HasMadeOver K.Sink F.modulus size out.old out.new result }
{
    match Output::<F>::made(alloc, size) {
        Ok(output) => deliver_whole(out, output),
        Err(_) => Status::Memory,
    }
}

// Writes the whole text of an output, which ends here, and flushes it.
fn deliver_whole<F: Field, K: Sink>(out: &mut K, output: Output<F>) -> Status
    requires { IsWritable F.modulus output }
    ensures { HasDelivered K.Sink (end_of output) (output_text F.number output) out.old out.new result }
{
    deliver(out, &output)
}

// Writes the whole text of an output, and flushes it.
fn deliver<F: Field, K: Sink>(out: &mut K, output: &Output<F>) -> Status
    requires { IsWritable F.modulus output.now }
    ensures { HasDelivered K.Sink (end_of output.now) (output_text F.number output.now) out.old out.new result }
{
    let wrote = output.write(out);
    finish(out, wrote, output.status())
}
