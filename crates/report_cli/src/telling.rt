//! How a run ends whose words ask for nothing.

ghost use Rattle.std.specs.Prelude.{◌≡◌, ◌≤◌, length};
ghost use Rattle.std.specs.String.{string_bytes};
ghost use Rattle.run_ends.specs.Notes.{Noted};
ghost use Rattle.report_cli.specs.Notes.{note_of_words};
ghost use Rattle.report_cli.specs.Statuses.{status_of_words};
ghost use Rattle.text_writer.specs.Giving.{IsWritten};

use command_line::WordsError;
use port_io::{Sink, WriteFault};
use run_ends::{Status, tell};
use text_writer::TextWriter;

/// The status of such a run.
pub fn status_of(why: &WordsError) -> Status
    ensures { result ≡ status_of_words why.now }
{
    match why {
        WordsError::Told(_) | WordsError::UnknownWord => Status::Usage,
        WordsError::NoMemory => Status::Memory,
    }
}

/// Notes why the words ask for nothing, as far as the sink takes it: what clap tells, or one line.
pub fn tell_words<N: Sink>(notes: &mut N, why: &WordsError)
    ensures noted { Noted (N.written notes.old) (N.written notes.new) (N.faults notes.old) (N.faults notes.new)
        (N.failed notes.new) (note_of_words why.now) }
    ensures counts { N.faults notes.old ≤ N.faults notes.new }
    ensures calm { N.takes notes.old (length (note_of_words why.now)) → N.faults notes.new ≡ N.faults notes.old }
{
    match why {
        WordsError::Told(text) => {
            let _ = write_text(notes, text);
        }
        WordsError::UnknownWord => tell(notes, Status::Usage),
        WordsError::NoMemory => tell(notes, Status::Memory),
    }
}

// Appends a text to the sink.
fn write_text<N: Sink>(notes: &mut N, text: &String) -> Result<(), WriteFault>
    ensures { IsWritten N.Sink notes.old notes.new (string_bytes text.now) result }
{
    let mut writer = TextWriter::new(notes);
    writer.piece(text.as_bytes());
    writer.finish()
}
