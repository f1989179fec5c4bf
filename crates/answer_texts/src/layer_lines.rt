//! The lines of a layered matrix, put into a writer.

ghost use Rattle.std.specs.Prelude.{◌≡◌, ℕ, ◌+◌, ◌++◌, ◌<◌, codes, length, slice_index};
ghost use Rattle.cert_text.specs.Texts.{numbers_text};
ghost use Rattle.dense_q.specs.Tables.{height, row_at};
ghost use Rattle.limits.specs.Limits.{column_limit};
ghost use Rattle.mixed_layering.specs.Layers.{AreLayersOf};
ghost use Rattle.answer_texts.specs.LayerTexts.{line_head, column_name, column_line, column_lines, q_entry_text};
ghost use Rattle.answer_texts.specs.LayerTexts.{row_entries_text, q_line, t_line, named_row_lines, columns_text, layer_text};
ghost use Rattle.answer_texts.specs.Columns.{IsOriginIn};
ghost use Rattle.sparse_t.specs.Incidences.{columns_at};
ghost use Rattle.text_writer.specs.Texts.{Puts};
ghost use Rattle.mixed_model.specs.Names.{name_at};

use mixed_model::{Layered, Mixed, Origin};
use port_io::Sink;
use residue_field::Field;
use row_entries::EntryMat;
use text_writer::TextWriter;

/// Puts the whole text of the layered matrix of a model.
pub fn put_layers<F: Field, K: Sink>(
    out: &mut TextWriter<'_, K>,
    model: &Mixed<F>,
    layered: &Layered<F>,
)
    requires { AreLayersOf model.now layered.now }
    ensures { Puts K.Sink out.old out.new (layer_text model.now layered.now) }
{
    put_columns(out, model, layered);
    put_q_lines(out, model, layered);
    put_t_lines(out, model, layered);
}

// Puts the number of columns, and their lines.
fn put_columns<F: Field, K: Sink>(
    out: &mut TextWriter<'_, K>,
    model: &Mixed<F>,
    layered: &Layered<F>,
)
    requires { AreLayersOf model.now layered.now }
    ensures { Puts K.Sink out.old out.new (columns_text model.now layered.now) }
{
    out.piece(b"columns");
    out.number(b' ', layered.q.cols() as u64);
    out.piece(b"\n");
    put_column_lines(out, model, layered);
}

// Puts the lines of the columns.
fn put_column_lines<F: Field, K: Sink>(
    out: &mut TextWriter<'_, K>,
    model: &Mixed<F>,
    layered: &Layered<F>,
)
    requires { AreLayersOf model.now layered.now }
    ensures { Puts K.Sink out.old out.new (column_lines model.now 1 layered.now.column_origins) }
{
    for column in 0..layered.q.cols() {
        let origin = layered.column_origin(column);
        put_column_line(out, model, column as u64 + 1, origin);
    }
}

// Puts the line of a column.
fn put_column_line<F: Field, K: Sink>(
    out: &mut TextWriter<'_, K>,
    model: &Mixed<F>,
    number: u64,
    origin: Origin,
)
    requires { IsOriginIn model.now origin }
    ensures { Puts K.Sink out.old out.new (column_line model.now number origin) }
{
    put_head(out, b'c', number);
    put_column_name(out, model, origin);
    out.piece(b"\n");
}

// Puts how a line begins.
fn put_head<K: Sink>(out: &mut TextWriter<'_, K>, letter: u8, number: u64)
    ensures { Puts K.Sink out.old out.new (line_head letter number) }
{
    out.number(letter, number);
    out.piece(b" ");
}

/// Puts the name of a column: that of its unknown, or a star and that of its split equation.
pub fn put_column_name<F: Field, K: Sink>(
    out: &mut TextWriter<'_, K>,
    model: &Mixed<F>,
    origin: Origin,
)
    requires { IsOriginIn model.now origin }
    ensures { Puts K.Sink out.old out.new (column_name model.now origin) }
{
    match origin {
        Origin::Unknown(unknown) => put_unknown_name(out, model, unknown),
        Origin::Split(equation) => put_auxiliary_name(out, model, equation),
    }
}

/// Puts the name of an unknown.
pub fn put_unknown_name<F: Field, K: Sink>(
    out: &mut TextWriter<'_, K>,
    model: &Mixed<F>,
    unknown: usize,
)
    requires { unknown < length model.now.unknowns }
    ensures { Puts K.Sink out.old out.new (name_at model.now.unknowns unknown) }
{
    out.text(model.unknown_name(unknown));
}

/// Puts the name of an equation.
pub fn put_equation_name<F: Field, K: Sink>(
    out: &mut TextWriter<'_, K>,
    model: &Mixed<F>,
    equation: usize,
)
    requires { equation < length model.now.equations }
    ensures { Puts K.Sink out.old out.new (name_at model.now.equations equation) }
{
    out.text(model.equation_name(equation));
}

// Puts the name of the auxiliary column of an equation.
fn put_auxiliary_name<F: Field, K: Sink>(
    out: &mut TextWriter<'_, K>,
    model: &Mixed<F>,
    equation: usize,
)
    requires { equation < length model.now.equations }
    ensures { Puts K.Sink out.old out.new (codes "*" ++ name_at model.now.equations equation) }
{
    out.piece(b"*");
    put_equation_name(out, model, equation);
}

// Puts the lines of the Q rows.
fn put_q_lines<F: Field, K: Sink>(
    out: &mut TextWriter<'_, K>,
    model: &Mixed<F>,
    layered: &Layered<F>,
)
    requires { AreLayersOf model.now layered.now }
    ensures { Puts K.Sink out.old out.new
        (named_row_lines q_line model.now.equations layered.now.q_origins 0 layered.now.q.rows) }
{
    for row in 0..layered.q.rows() {
        put_q_line(out, model, layered, row);
    }
}

// Puts the line of a Q row.
fn put_q_line<F: Field, K: Sink>(
    out: &mut TextWriter<'_, K>,
    model: &Mixed<F>,
    layered: &Layered<F>,
    row: usize,
)
    requires layers { AreLayersOf model.now layered.now }
    requires row { row < height layered.now.q }
    requires few { row < column_limit }
    ensures { Puts K.Sink out.old out.new (q_line (row + 1)
        (name_at model.now.equations (slice_index layered.now.q_origins row)) (row_at layered.now.q row)) }
{
    put_head(out, b'q', row as u64 + 1);
    put_equation_name(out, model, layered.q_origin(row));
    put_entries(out, &layered.q, row);
    out.piece(b"\n");
}

// Puts the entries of a row of constants.
fn put_entries<F: Field, K: Sink>(out: &mut TextWriter<'_, K>, matrix: &EntryMat<F>, row: usize)
    requires { row < height matrix.now }
    ensures { Puts K.Sink out.old out.new (row_entries_text 1 (row_at matrix.now row)) }
{
    // there are at most 8,192 columns, so that the sums below fit
    matrix.is_matrix();
    let mut from = 0;
    while let Some(entry) = matrix.next(row, from) {
        put_entry(out, entry.0 + 1, entry.1);
        from = entry.0 + 1;
    }
}

// Puts an entry of a row, counted from column 1, and nothing where it is 0.
fn put_entry<F: Field, K: Sink>(out: &mut TextWriter<'_, K>, column: usize, entry: F)
    ensures { Puts K.Sink out.old out.new (q_entry_text column (F.number entry)) }
{
    match entry.value() {
        0 => {}
        number => out.item(column, u64::from(number)),
    }
}

// Puts the lines of the T rows.
fn put_t_lines<F: Field, K: Sink>(
    out: &mut TextWriter<'_, K>,
    model: &Mixed<F>,
    layered: &Layered<F>,
)
    requires { AreLayersOf model.now layered.now }
    ensures { Puts K.Sink out.old out.new
        (named_row_lines t_line model.now.equations layered.now.t_origins 0 layered.now.t.rows) }
{
    for row in 0..layered.t.rows() {
        put_t_line(out, model, layered, row);
    }
}

// Puts the line of a T row.
fn put_t_line<F: Field, K: Sink>(
    out: &mut TextWriter<'_, K>,
    model: &Mixed<F>,
    layered: &Layered<F>,
    row: usize,
)
    requires layers { AreLayersOf model.now layered.now }
    requires row { row < length layered.now.t.rows }
    requires few { row < column_limit }
    ensures { Puts K.Sink out.old out.new (t_line (row + 1)
        (name_at model.now.equations (slice_index layered.now.t_origins row)) (columns_at layered.now.t row)) }
{
    put_head(out, b't', row as u64 + 1);
    put_equation_name(out, model, layered.t_origin(row));
    put_symbols(out, layered.t.row(row));
    out.piece(b"\n");
}

// Puts the columns of the symbols of a row, rising.
fn put_symbols<K: Sink>(out: &mut TextWriter<'_, K>, columns: &[u32])
    ensures { Puts K.Sink out.old out.new (numbers_text columns.now) }
{
    for column in columns {
        out.number(b' ', u64::from(*column) + 1);
    }
}
