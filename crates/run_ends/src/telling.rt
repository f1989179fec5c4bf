//! What is noted of a run.

ghost use Rattle.run_ends.specs.Notes.{HasNoted, limit_text, line_of, line_text, rule_text, status_words};
ghost use Rattle.text_writer.specs.Giving.{IsWritten};
ghost use Rattle.text_writer.specs.Texts.{Puts};

use crate::status::Status;
use port_io::{Sink, WriteFault};
use text_writer::TextWriter;

/// Notes how a run ends, as far as the sink takes it: one line, and no call is made where the whole text was written.
pub fn tell<N: Sink>(notes: &mut N, status: Status)
    ensures { HasNoted N.Sink notes.old notes.new status }
{
    match status {
        Status::NotRegular | Status::Done => {}
        fault => {
            let _ = write_line(notes, fault);
        }
    }
}

// Appends the line of a status to the sink.
fn write_line<N: Sink>(notes: &mut N, status: Status) -> Result<(), WriteFault>
    ensures { IsWritten N.Sink notes.old notes.new (line_of status) result }
{
    let mut writer = TextWriter::new(notes);
    put_line(&mut writer, status);
    writer.finish()
}

// Puts the line of a status.
fn put_line<N: Sink>(out: &mut TextWriter<'_, N>, status: Status)
    ensures { Puts N.Sink out.old out.new (line_of status) }
{
    out.piece(b"mixed: ");
    put_words(out, status);
    out.piece(b"\n");
}

// Puts the words for a status.
fn put_words<N: Sink>(out: &mut TextWriter<'_, N>, status: Status)
    ensures { Puts N.Sink out.old out.new (status_words status) }
{
    match status {
        Status::Done | Status::NotRegular => {}
        Status::Usage => out.piece(b"unknown word"),
        Status::Refused(refused) => refused.put(out),
        Status::TooLong(limit) => put_limit(out, limit),
        Status::BadCertificate(line) => put_refused_line(out, line),
        Status::ReadFault => out.piece(b"read fault"),
        Status::WriteFault => out.piece(b"write fault"),
        Status::Memory => out.piece(b"out of memory"),
        Status::Rejected(rule) => put_rule(out, rule),
    }
}

// Puts the words for an input that is too long.
fn put_limit<N: Sink>(out: &mut TextWriter<'_, N>, limit: u64)
    ensures { Puts N.Sink out.old out.new (limit_text limit) }
{
    out.piece(b"input longer than");
    out.number(b' ', limit);
    out.piece(b" bytes");
}

// Puts the words for a text that is that of no certificate from this line on.
fn put_refused_line<N: Sink>(out: &mut TextWriter<'_, N>, line: u32)
    ensures { Puts N.Sink out.old out.new (line_text line) }
{
    out.piece(b"line");
    out.number(b' ', u64::from(line));
    out.piece(b": not a certificate line");
}

// Puts the words for a certificate that breaks this rule.
fn put_rule<N: Sink>(out: &mut TextWriter<'_, N>, rule: u32)
    ensures { Puts N.Sink out.old out.new (rule_text rule) }
{
    out.piece(b"rejected by rule");
    out.number(b' ', u64::from(rule));
}
