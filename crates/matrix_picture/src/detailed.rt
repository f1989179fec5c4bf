//! A picture with names beside columns and rows, put into a writer.

ghost use Rattle.std.specs.Prelude.{◌≤◌, length};
ghost use Rattle.text_writer.specs.Texts.{Puts};
ghost use Rattle.matrix_picture.specs.Texts.{detailed_size, detailed_text, legend_line, legend_text, placed_text};

use crate::entries::{put_dot, put_rows, row_head};
use crate::frames::{put_frames, put_place};
use crate::layout::{Frame, Layout, Row};
use crate::names::{put_column_names, put_row_names};
use crate::picture::{put_closing, put_opening, put_style};
use crate::sizes::put_sizes_below;
use cert_text::Ccf;
use mixed_model::{Layered, Mixed};
use port_io::Sink;
use residue_field::Field;
use text_writer::TextWriter;

/// Puts the picture with names beside columns and rows of a form that has at most 64 columns and 64 rows.
pub fn put_detailed<F: Field, K: Sink>(
    out: &mut TextWriter<'_, K>,
    model: &Mixed<F>,
    layered: &Layered<F>,
    ccf: &Ccf<F>,
    layout: &Layout,
)
    requires columns { length layout.now.columns ≤ 64 }
    requires rows { length layout.now.rows ≤ 64 }
    ensures { Puts K.Sink out.old out.new (detailed_text model.now layered.now ccf.now layout.now) }
{
    let columns = layout.columns();
    let rows = layout.rows();
    let frames = layout.frames();
    put_placed(out, model, layered, ccf, columns, rows, frames);
}

// Puts the picture with names of a form with these columns, rows and frames.
fn put_placed<F: Field, K: Sink>(
    out: &mut TextWriter<'_, K>,
    model: &Mixed<F>,
    layered: &Layered<F>,
    ccf: &Ccf<F>,
    columns: &[usize],
    rows: &[Row],
    frames: &[Frame],
)
    requires columns { length columns.now ≤ 64 }
    requires rows { length rows.now ≤ 64 }
    ensures { Puts K.Sink out.old out.new
        (placed_text model.now layered.now ccf.now columns.now rows.now frames.now) }
{
    put_opening(out);
    put_detailed_size(out, columns.len() as u64, rows.len() as u64);
    put_style(out, b"stroke-width:.06");
    put_frames(out, 1, frames);
    put_rows(out, model, layered, ccf, columns, rows);
    out.piece(b"<g font-size=\".75\">\n");
    put_column_names(out, model, layered, columns);
    put_row_names(out, model, layered, columns.len() as u64, rows);
    put_legend(out, rows.len() as u64);
    put_sizes_below(out, rows.len() as u64 + 3, ccf);
    out.piece(b"</g>\n");
    put_closing(out);
}

// Puts the attributes of a picture with names, and the end of its head.
fn put_detailed_size<K: Sink>(out: &mut TextWriter<'_, K>, columns: u64, rows: u64)
    requires columns { columns ≤ 64 }
    requires rows { rows ≤ 64 }
    ensures { Puts K.Sink out.old out.new (detailed_size columns rows) }
{
    out.piece(b" font-size=\"1\" width=");
    out.number(b'"', 20 * (columns + 20));
    out.piece(b"\" height=");
    out.number(b'"', 20 * (rows + 18));
    out.piece(b"\" viewBox=\"-6 -14");
    out.number(b' ', columns + 20);
    out.number(b' ', rows + 18);
    out.piece(b"\">\n");
}

// Puts the two lines of the legend, below the rows.
fn put_legend<K: Sink>(out: &mut TextWriter<'_, K>, rows: u64)
    requires { rows ≤ 64 }
    ensures { Puts K.Sink out.old out.new (legend_text rows) }
{
    put_legend_line(
        out,
        Row::Constants(0),
        rows + 1,
        b"a constant, in a row of P",
    );
    put_legend_line(out, Row::Symbols(0), rows + 2, b"a symbol, in a row of T");
}

// Puts a mark and what it stands for.
fn put_legend_line<K: Sink>(out: &mut TextWriter<'_, K>, row: Row, top: u64, word: &[u8])
    ensures { Puts K.Sink out.old out.new (legend_line row top word.now) }
{
    out.piece(row_head(row));
    put_dot(out, 0, top);
    out.piece(b"\"/>\n<text");
    put_place(out, 1, top);
    out.piece(b" dx=\".4em\" dy=\"1em\">");
    out.piece(word);
    out.piece(b"</text>\n");
}
