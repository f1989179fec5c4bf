//! Lists of items, put into a writer.

ghost use Rattle.std.specs.Prelude.{◌≡◌, ℕ, ◌+◌, ◌<◌, ◌^◌, codes};
ghost use Rattle.std.specs.List.{All};
ghost use Rattle.cert_text.specs.Contents.{numbered};
ghost use Rattle.cert_text.specs.Ranges.{AreSmall, AreSmallPairs, HasSmallKeys};
ghost use Rattle.cert_text.specs.Texts.{pairs_text, entries_text, numbers_text, letters_text, lettered, item};
ghost use Rattle.text_writer.specs.Texts.{Puts};

use port_io::Sink;
use residue_field::Field;
use text_writer::TextWriter;

/// Puts the items of rows and their columns.
pub fn put_pairs<K: Sink>(out: &mut TextWriter<'_, K>, pairs: &[(usize, usize)])
    requires { AreSmallPairs pairs.now }
    ensures { Puts K.Sink out.old out.new (pairs_text pairs.now) }
{
    for pair in pairs {
        out.item(pair.0 + 1, pair.1 as u64 + 1);
    }
}

// Puts the item of a column, counted from 1, and the number there.
fn put_entry<F: Field, K: Sink>(out: &mut TextWriter<'_, K>, column: usize, entry: F)
    ensures { Puts K.Sink out.old out.new (item column (F.number entry)) }
{
    out.item(column, u64::from(entry.value()));
}

/// Puts the items of columns and the numbers there.
pub fn put_entries<F: Field, K: Sink>(out: &mut TextWriter<'_, K>, entries: &[(usize, F)])
    requires { HasSmallKeys entries.now }
    ensures { Puts K.Sink out.old out.new (entries_text (numbered F.number entries.now)) }
{
    for entry in entries {
        put_entry(out, entry.0 + 1, entry.1);
    }
}

/// Puts the items of columns, or of blocks.
pub fn put_numbers<K: Sink>(out: &mut TextWriter<'_, K>, numbers: &[usize])
    requires { AreSmall numbers.now }
    ensures { Puts K.Sink out.old out.new (numbers_text numbers.now) }
{
    for number in numbers {
        out.number(b' ', *number as u64 + 1);
    }
}

// Puts a row behind its letter, behind a space.
fn put_lettered<K: Sink>(out: &mut TextWriter<'_, K>, letter: u8, row: u64)
    ensures { Puts K.Sink out.old out.new (lettered letter row) }
{
    out.piece(b" ");
    out.number(letter, row);
}

/// Puts the items of rows, each behind its letter.
pub fn put_letters<K: Sink>(out: &mut TextWriter<'_, K>, letter: u8, rows: &[usize])
    requires { AreSmall rows.now }
    ensures { Puts K.Sink out.old out.new (letters_text letter rows.now) }
{
    for row in rows {
        put_lettered(out, letter, *row as u64 + 1);
    }
}
