//! The lines of matrices and parts, put into a writer.

ghost use Rattle.std.specs.Prelude.{◌≡◌, ℕ, ◌+◌, ◌<◌, ◌^◌, codes};
ghost use Rattle.std.specs.List.{All};
ghost use Rattle.cert_text.specs.Contents.{numbered, numbered_rows};
ghost use Rattle.cert_text.specs.Ranges.{AreSmall, HasSmallKeys, IsSmallPart, IsSmallBlock, AreSmallBlocks};
ghost use Rattle.cert_text.specs.Texts.{head_text, entries_line, columns_line, matrix_text, pattern_text, part_text, tail_line, block_line, blocks_text};
ghost use Rattle.text_writer.specs.Texts.{Puts};

use crate::items::Items;
use crate::lists::{put_entries, put_letters, put_numbers};
use crate::part::{CcfBlock, CcfPart};
use port_io::Sink;
use residue_field::Field;
use text_writer::TextWriter;

// Puts how a numbered line begins.
fn put_head<K: Sink>(out: &mut TextWriter<'_, K>, word: &[u8], number: u64)
    ensures { Puts K.Sink out.old out.new (head_text word.now number) }
{
    out.piece(word);
    out.number(b' ', number);
    out.piece(b":");
}

// Puts the line of a row of a matrix.
fn put_entries_line<F: Field, K: Sink>(
    out: &mut TextWriter<'_, K>,
    word: &[u8],
    number: u64,
    entries: &[(usize, F)],
)
    requires { HasSmallKeys entries.now }
    ensures { Puts K.Sink out.old out.new (entries_line word.now number (numbered F.number entries.now)) }
{
    put_head(out, word, number);
    put_entries(out, entries);
    out.piece(b"\n");
}

// Puts the line of a row of a pattern.
fn put_columns_line<K: Sink>(
    out: &mut TextWriter<'_, K>,
    word: &[u8],
    number: u64,
    columns: &[usize],
)
    requires { AreSmall columns.now }
    ensures { Puts K.Sink out.old out.new (columns_line word.now number columns.now) }
{
    put_head(out, word, number);
    put_numbers(out, columns);
    out.piece(b"\n");
}

/// Puts the lines of the rows of a matrix.
pub fn put_matrix<F: Field, K: Sink>(
    out: &mut TextWriter<'_, K>,
    word: &[u8],
    rows: &[Items<(usize, F)>],
)
    requires { All HasSmallKeys rows.now }
    ensures { Puts K.Sink out.old out.new (matrix_text word.now 1 (numbered_rows F.number rows.now)) }
{
    for (row, entries) in rows.iter().enumerate() {
        put_entries_line(out, word, row as u64 + 1, entries.as_slice());
    }
}

/// Puts the lines of the rows of a pattern.
pub fn put_pattern<K: Sink>(out: &mut TextWriter<'_, K>, word: &[u8], rows: &[Items<usize>])
    requires { All AreSmall rows.now }
    ensures { Puts K.Sink out.old out.new (pattern_text word.now 1 rows.now) }
{
    for (row, columns) in rows.iter().enumerate() {
        put_columns_line(out, word, row as u64 + 1, columns.as_slice());
    }
}

// Puts the columns of a part, a bar, and its rows.
fn put_part<K: Sink>(out: &mut TextWriter<'_, K>, part: &CcfPart)
    requires { IsSmallPart part.now }
    ensures { Puts K.Sink out.old out.new (part_text part.now) }
{
    put_numbers(out, part.columns.as_slice());
    out.piece(b" |");
    put_letters(out, b'q', part.q_rows.as_slice());
    put_letters(out, b't', part.t_rows.as_slice());
}

/// Puts the line of a tail.
pub fn put_tail<K: Sink>(out: &mut TextWriter<'_, K>, word: &[u8], part: &CcfPart)
    requires { IsSmallPart part.now }
    ensures { Puts K.Sink out.old out.new (tail_line word.now part.now) }
{
    out.piece(word);
    put_part(out, part);
    out.piece(b"\n");
}

// Puts the line of a block.
fn put_block<K: Sink>(out: &mut TextWriter<'_, K>, number: u64, block: &CcfBlock)
    requires { IsSmallBlock block.now }
    ensures { Puts K.Sink out.old out.new (block_line number block.now) }
{
    put_head(out, b"block", number);
    put_part(out, &block.part);
    out.piece(b" |");
    put_numbers(out, block.lower.as_slice());
    out.piece(b"\n");
}

/// Puts the lines of blocks.
pub fn put_blocks<K: Sink>(out: &mut TextWriter<'_, K>, blocks: &[CcfBlock])
    requires { AreSmallBlocks blocks.now }
    ensures { Puts K.Sink out.old out.new (blocks_text 1 blocks.now) }
{
    for (place, block) in blocks.iter().enumerate() {
        put_block(out, place as u64 + 1, block);
    }
}
