//! The lines of a reply, put into a writer.

ghost use Rattle.std.specs.Prelude.{◌<◌, ◌+◌};
ghost use Rattle.std.specs.List.{All};
ghost use Rattle.limits.specs.Limits.{column_limit};
ghost use Rattle.desk_texts.specs.Ranges.{ArePartsIn, IsBlockIn};
ghost use Rattle.desk_texts.specs.Texts.{reply_block_line, reply_block_lines, lower_blocks_text, name_text, names_text, number_line};
ghost use Rattle.desk_texts.specs.Texts.{reply_parts_text, refused_line, reply_tail_line};
ghost use Rattle.mixed_layering.specs.Layers.{AreLayersOf};
ghost use Rattle.text_writer.specs.Texts.{Puts};

use answer_texts::put_column_name;
use ccf_builder::{Block, Parts};
use mixed_model::{Layered, Mixed};
use port_io::Sink;
use refusals::Why;
use residue_field::Field;
use text_writer::TextWriter;

/// Puts what is told of a model: a line of its rank, one of the names of the columns of the first tail, one for each
/// block with the names of its columns and the numbers of the blocks right below it, one of the names of the columns of
/// the last tail, and the line `end`. Blocks are counted from 1. (Murota, chapters 2 and 4.)
pub fn put_parts<F: Field, K: Sink>(
    out: &mut TextWriter<'_, K>,
    model: &Mixed<F>,
    layered: &Layered<F>,
    rank: usize,
    parts: &Parts,
)
    requires layers { AreLayersOf model.now layered.now }
    requires parts { ArePartsIn layered.now.q.width parts.now }
    ensures { Puts K.Sink out.old out.new (reply_parts_text model.now layered.now rank parts.now) }
{
    put_number(out, b"rank", rank);
    put_tail(out, b"first", model, layered, parts.first.as_slice());
    put_block_lines(out, model, layered, parts.blocks.as_slice());
    put_tail(out, b"last", model, layered, parts.last.as_slice());
    out.piece(b"end\n");
}

// Puts the line of a number behind a word.
pub(crate) fn put_number<K: Sink>(out: &mut TextWriter<'_, K>, word: &[u8], number: usize)
    ensures { Puts K.Sink out.old out.new (number_line word.now number) }
{
    out.piece(word);
    out.number(b' ', number as u64);
    out.piece(b"\n");
}

// Puts the line of a refusal.
pub(crate) fn put_refused<K: Sink>(out: &mut TextWriter<'_, K>, why: Why)
    ensures { Puts K.Sink out.old out.new (refused_line why) }
{
    out.piece(b"refused ");
    out.text(why.text());
    out.piece(b"\n");
}

// Puts the line of a tail.
fn put_tail<F: Field, K: Sink>(
    out: &mut TextWriter<'_, K>,
    word: &[u8],
    model: &Mixed<F>,
    layered: &Layered<F>,
    columns: &[usize],
)
    requires layers { AreLayersOf model.now layered.now }
    requires columns { All (λ x. x < layered.now.q.width) columns.now }
    ensures { Puts K.Sink out.old out.new (reply_tail_line word.now model.now layered.now columns.now) }
{
    out.piece(word);
    put_names(out, model, layered, columns);
    out.piece(b"\n");
}

// Puts the lines of blocks.
fn put_block_lines<F: Field, K: Sink>(
    out: &mut TextWriter<'_, K>,
    model: &Mixed<F>,
    layered: &Layered<F>,
    blocks: &[Block],
)
    requires layers { AreLayersOf model.now layered.now }
    requires blocks { All (IsBlockIn layered.now.q.width) blocks.now }
    ensures { Puts K.Sink out.old out.new (reply_block_lines model.now layered.now 1 blocks.now) }
{
    for (place, block) in blocks.iter().enumerate() {
        put_block_line(out, model, layered, place as u64 + 1, block);
    }
}

// Puts the line of a block.
fn put_block_line<F: Field, K: Sink>(
    out: &mut TextWriter<'_, K>,
    model: &Mixed<F>,
    layered: &Layered<F>,
    number: u64,
    block: &Block,
)
    requires layers { AreLayersOf model.now layered.now }
    requires block { IsBlockIn layered.now.q.width block.now }
    ensures { Puts K.Sink out.old out.new (reply_block_line model.now layered.now number block.now) }
{
    out.piece(b"block");
    out.number(b' ', number);
    out.piece(b":");
    put_names(out, model, layered, block.columns.as_slice());
    out.piece(b" |");
    put_blocks(out, block.lower.as_slice());
    out.piece(b"\n");
}

// Puts the numbers of blocks, each behind a space.
fn put_blocks<K: Sink>(out: &mut TextWriter<'_, K>, blocks: &[usize])
    requires { All (λ k. k < column_limit) blocks.now }
    ensures { Puts K.Sink out.old out.new (lower_blocks_text blocks.now) }
{
    for block in blocks {
        out.number(b' ', *block as u64 + 1);
    }
}

// Puts the names of columns, each behind a space.
fn put_names<F: Field, K: Sink>(
    out: &mut TextWriter<'_, K>,
    model: &Mixed<F>,
    layered: &Layered<F>,
    columns: &[usize],
)
    requires layers { AreLayersOf model.now layered.now }
    requires columns { All (λ x. x < layered.now.q.width) columns.now }
    ensures { Puts K.Sink out.old out.new (names_text model.now layered.now columns.now) }
{
    for column in columns {
        put_name(out, model, layered, *column);
    }
}

// Puts the name of a column behind a space.
fn put_name<F: Field, K: Sink>(
    out: &mut TextWriter<'_, K>,
    model: &Mixed<F>,
    layered: &Layered<F>,
    column: usize,
)
    requires layers { AreLayersOf model.now layered.now }
    requires column { column < layered.now.q.width }
    ensures { Puts K.Sink out.old out.new (name_text model.now layered.now column) }
{
    let origin = layered.column_origin(column);
    out.piece(b" ");
    put_column_name(out, model, origin);
}
