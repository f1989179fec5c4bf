//! A picture with names that a viewer tells, put into a writer.

ghost use Rattle.std.specs.Prelude.{◌≤◌, ◌<◌, ◌^◌, length};
ghost use Rattle.text_writer.specs.Texts.{Puts};
ghost use Rattle.matrix_picture.specs.Texts.{framed_text, letter_of, outline_size, outline_text};

use crate::entries::put_rows;
use crate::frames::put_frames;
use crate::layout::{Frame, Layout, Row};
use crate::names::put_column_cells;
use crate::picture::{put_closing, put_opening, put_style};
use crate::sizes::put_sizes_below;
use cert_text::Ccf;
use mixed_model::{Layered, Mixed};
use port_io::Sink;
use residue_field::Field;
use text_writer::TextWriter;

/// Puts the picture of a form whose names a viewer tells.
pub fn put_outline<F: Field, K: Sink>(
    out: &mut TextWriter<'_, K>,
    model: &Mixed<F>,
    layered: &Layered<F>,
    ccf: &Ccf<F>,
    layout: &Layout,
)
    ensures { Puts K.Sink out.old out.new (outline_text model.now layered.now ccf.now layout.now) }
{
    let columns = layout.columns();
    let rows = layout.rows();
    let frames = layout.frames();
    put_framed(out, model, layered, ccf, columns, rows, frames);
}

// Puts the picture of a form with these columns, rows and frames.
fn put_framed<F: Field, K: Sink>(
    out: &mut TextWriter<'_, K>,
    model: &Mixed<F>,
    layered: &Layered<F>,
    ccf: &Ccf<F>,
    columns: &[usize],
    rows: &[Row],
    frames: &[Frame],
)
    ensures { Puts K.Sink out.old out.new
        (framed_text model.now layered.now ccf.now (letter_of (length columns.now)) columns.now rows.now frames.now) }
{
    let letter = columns.len() as u64 / 40 + 1;
    put_opening(out);
    put_outline_size(out, letter, columns.len() as u64, rows.len() as u64);
    put_style(out, b"vector-effect:non-scaling-stroke");
    put_column_cells(out, model, layered, letter, columns);
    put_frames(out, letter, frames);
    put_rows(out, model, layered, ccf, columns, rows);
    put_sizes_below(out, rows.len() as u64, ccf);
    put_closing(out);
}

// Puts the attributes of an outline, and the end of its head.
fn put_outline_size<K: Sink>(out: &mut TextWriter<'_, K>, letter: u64, columns: u64, rows: u64)
    requires letter { letter ≤ 2 ^ 59 }
    requires columns { columns < 2 ^ 63 }
    requires rows { rows < 2 ^ 63 }
    ensures { Puts K.Sink out.old out.new (outline_size letter columns rows) }
{
    out.piece(b" width=\"1000\" font-size=");
    out.number(b'"', letter);
    out.piece(b"\" viewBox=\"");
    out.number(b'-', 6 * letter);
    out.piece(b" ");
    out.number(b'-', 4 * letter);
    out.number(b' ', columns + 10 * letter);
    out.number(b' ', rows + 8 * letter);
    out.piece(b"\">\n");
}
