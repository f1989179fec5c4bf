//! The names of columns and rows, put into a writer. A name has letters, digits, `_`, `.`, and perhaps a `*` in front
//! (docs/formats.md), so nothing in it asks to be escaped.

ghost use Rattle.std.specs.Prelude.{◌≡◌, ◌++◌, codes, slice_get};
ghost use Rattle.text_writer.specs.Texts.{Puts};
ghost use Rattle.matrix_picture.specs.Names.{equation_name, equation_behind, name_of_column, name_of_row, origin_name};
ghost use Rattle.matrix_picture.specs.Texts.{column_cell_text, column_cells_text, column_name_text, column_names_text};
ghost use Rattle.matrix_picture.specs.Texts.{row_name_text, row_names_text};
ghost use Rattle.mixed_model.specs.Names.{name_at};

use crate::frames::put_place;
use crate::layout::Row;
use mixed_model::{Layered, Mixed, Origin};
use port_io::Sink;
use residue_field::Field;
use text_writer::TextWriter;

/// Puts the names of columns, each above its place.
pub fn put_column_names<F: Field, K: Sink>(
    out: &mut TextWriter<'_, K>,
    model: &Mixed<F>,
    layered: &Layered<F>,
    columns: &[usize],
)
    ensures { Puts K.Sink out.old out.new (column_names_text model.now layered.now 0 columns.now) }
{
    for (left, column) in columns.iter().enumerate() {
        put_column_name(out, model, layered, left as u64, *column);
    }
}

// Puts the name of a column above its place.
fn put_column_name<F: Field, K: Sink>(
    out: &mut TextWriter<'_, K>,
    model: &Mixed<F>,
    layered: &Layered<F>,
    left: u64,
    column: usize,
)
    ensures { Puts K.Sink out.old out.new (column_name_text left (name_of_column model.now layered.now column)) }
{
    out.piece(b"<text transform=\"translate");
    out.number(b'(', left);
    out.piece(b" 0)rotate(-90)\" dx=\".4em\" dy=\".95em\">");
    put_name_of_column(out, model, layered, column);
    out.piece(b"</text>\n");
}

/// Puts a cell for each column above its place, `letter` units high, with its name.
pub fn put_column_cells<F: Field, K: Sink>(
    out: &mut TextWriter<'_, K>,
    model: &Mixed<F>,
    layered: &Layered<F>,
    letter: u64,
    columns: &[usize],
)
    ensures { Puts K.Sink out.old out.new (column_cells_text model.now layered.now letter 0 columns.now) }
{
    for (left, column) in columns.iter().enumerate() {
        put_column_cell(out, model, layered, letter, left as u64, *column);
    }
}

// Puts the cell of a column, with its name.
fn put_column_cell<F: Field, K: Sink>(
    out: &mut TextWriter<'_, K>,
    model: &Mixed<F>,
    layered: &Layered<F>,
    letter: u64,
    left: u64,
    column: usize,
)
    ensures { Puts K.Sink out.old out.new
        (column_cell_text letter left (name_of_column model.now layered.now column)) }
{
    out.piece(b"<path class=\"n\" d=\"");
    out.number(b'M', left);
    out.piece(b" 0v");
    out.number(b'-', letter);
    out.piece(b"h1V0z\"><title>");
    put_name_of_column(out, model, layered, column);
    out.piece(b"</title></path>\n");
}

// Puts the name of a column.
fn put_name_of_column<F: Field, K: Sink>(
    out: &mut TextWriter<'_, K>,
    model: &Mixed<F>,
    layered: &Layered<F>,
    column: usize,
)
    ensures { Puts K.Sink out.old out.new (name_of_column model.now layered.now column) }
{
    let origin = origin_of(layered, column);
    put_origin_name(out, model, origin);
}

/// Puts the names of the equations of rows, each right of all columns, of which there are `right`.
pub fn put_row_names<F: Field, K: Sink>(
    out: &mut TextWriter<'_, K>,
    model: &Mixed<F>,
    layered: &Layered<F>,
    right: u64,
    rows: &[Row],
)
    ensures { Puts K.Sink out.old out.new (row_names_text model.now layered.now right 0 rows.now) }
{
    for (top, row) in rows.iter().enumerate() {
        put_row_name(out, model, layered, right, top as u64, *row);
    }
}

// Puts the name of the equation of a row.
fn put_row_name<F: Field, K: Sink>(
    out: &mut TextWriter<'_, K>,
    model: &Mixed<F>,
    layered: &Layered<F>,
    right: u64,
    top: u64,
    row: Row,
)
    ensures { Puts K.Sink out.old out.new (row_name_text right top (name_of_row model.now layered.now row)) }
{
    out.piece(b"<text");
    put_place(out, right, top);
    out.piece(b" dx=\".4em\" dy=\"1em\">");
    put_name_of_row(out, model, layered, row);
    out.piece(b"</text>\n");
}

/// Puts the name of the equation from which a row comes.
pub fn put_name_of_row<F: Field, K: Sink>(
    out: &mut TextWriter<'_, K>,
    model: &Mixed<F>,
    layered: &Layered<F>,
    row: Row,
)
    ensures { Puts K.Sink out.old out.new (name_of_row model.now layered.now row) }
{
    let equation = equation_of(layered, row);
    put_equation_name(out, model, equation);
}

// The origin of a column.
fn origin_of<F: Field>(layered: &Layered<F>, column: usize) -> Option<Origin>
    ensures { result ≡ slice_get layered.now.column_origins column }
{
    layered.are_layers();
    if column < layered.q.cols() {
        Some(layered.column_origin(column))
    } else {
        None
    }
}

// The equation from which a row comes.
fn equation_of<F: Field>(layered: &Layered<F>, row: Row) -> Option<usize>
    ensures { result ≡ equation_behind layered.now row }
{
    match row {
        Row::Constants(row) => constants_equation(layered, row),
        Row::Symbols(row) => symbols_equation(layered, row),
    }
}

// The equation from which a row of constants comes.
fn constants_equation<F: Field>(layered: &Layered<F>, row: usize) -> Option<usize>
    ensures { result ≡ slice_get layered.now.q_origins row }
{
    layered.are_layers();
    if row < layered.q.rows() {
        Some(layered.q_origin(row))
    } else {
        None
    }
}

// The equation from which a row of symbols comes.
fn symbols_equation<F: Field>(layered: &Layered<F>, row: usize) -> Option<usize>
    ensures { result ≡ slice_get layered.now.t_origins row }
{
    layered.are_layers();
    if row < layered.t.rows() {
        Some(layered.t_origin(row))
    } else {
        None
    }
}

// Puts the name of a column with this origin.
fn put_origin_name<F: Field, K: Sink>(
    out: &mut TextWriter<'_, K>,
    model: &Mixed<F>,
    origin: Option<Origin>,
)
    ensures { Puts K.Sink out.old out.new (origin_name model.now origin) }
{
    match origin {
        None => {}
        Some(Origin::Unknown(unknown)) => put_name_of_unknown(out, model, unknown),
        Some(Origin::Split(equation)) => put_name_of_auxiliary(out, model, equation),
    }
}

// Puts the name of an auxiliary column.
fn put_name_of_auxiliary<F: Field, K: Sink>(
    out: &mut TextWriter<'_, K>,
    model: &Mixed<F>,
    equation: usize,
)
    ensures { Puts K.Sink out.old out.new (codes "*" ++ name_at model.now.equations equation) }
{
    out.piece(b"*");
    put_name_of_equation(out, model, equation);
}

// Puts the name of an equation, where there is one.
fn put_equation_name<F: Field, K: Sink>(
    out: &mut TextWriter<'_, K>,
    model: &Mixed<F>,
    equation: Option<usize>,
)
    ensures { Puts K.Sink out.old out.new (equation_name model.now equation) }
{
    match equation {
        None => {}
        Some(equation) => put_name_of_equation(out, model, equation),
    }
}

// Puts name `equation` of the equations.
fn put_name_of_equation<F: Field, K: Sink>(
    out: &mut TextWriter<'_, K>,
    model: &Mixed<F>,
    equation: usize,
)
    ensures { Puts K.Sink out.old out.new (name_at model.now.equations equation) }
{
    if equation < model.equations() {
        out.text(model.equation_name(equation));
    }
}

// Puts name `unknown` of the unknowns.
fn put_name_of_unknown<F: Field, K: Sink>(
    out: &mut TextWriter<'_, K>,
    model: &Mixed<F>,
    unknown: usize,
)
    ensures { Puts K.Sink out.old out.new (name_at model.now.unknowns unknown) }
{
    if unknown < model.unknowns() {
        out.text(model.unknown_name(unknown));
    }
}
