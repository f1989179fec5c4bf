//! The entries of a form, put into a writer as dots.

ghost use Rattle.std.specs.Prelude.{◌≡◌, ◌==◌, ◌<◌, [], if◌then◌else◌, length, slice_index_or};
ghost use Rattle.std.specs.List.{list_any};
ghost use Rattle.cert_text.specs.Contents.{numbered_rows};
ghost use Rattle.text_writer.specs.Texts.{Puts};
ghost use Rattle.matrix_picture.specs.Names.{name_of_row};
ghost use Rattle.matrix_picture.specs.Texts.{dot_text, dots_text, drawn_row_text, entry_text, has_printed_entry, row_head};
ghost use Rattle.matrix_picture.specs.Texts.{rows_text};

use crate::layout::Row;
use crate::names::put_name_of_row;
use cert_text::{Ccf, Items};
use mixed_model::{Layered, Mixed};
use port_io::Sink;
use residue_field::Field;
use text_writer::TextWriter;

/// Puts the entries of all rows at all columns, each row with the name of its equation.
pub fn put_rows<F: Field, K: Sink>(
    out: &mut TextWriter<'_, K>,
    model: &Mixed<F>,
    layered: &Layered<F>,
    ccf: &Ccf<F>,
    columns: &[usize],
    rows: &[Row],
)
    ensures { Puts K.Sink out.old out.new (rows_text model.now layered.now ccf.now columns.now 0 rows.now) }
{
    for (top, row) in rows.iter().enumerate() {
        put_row(out, model, layered, ccf, columns, top as u64, *row);
    }
}

// Puts a row with the name of its equation.
fn put_row<F: Field, K: Sink>(
    out: &mut TextWriter<'_, K>,
    model: &Mixed<F>,
    layered: &Layered<F>,
    ccf: &Ccf<F>,
    columns: &[usize],
    top: u64,
    row: Row,
)
    ensures { Puts K.Sink out.old out.new
        (drawn_row_text ccf.now columns.now top row (name_of_row model.now layered.now row)) }
{
    out.piece(row_head(row));
    put_dots(out, ccf, row, top, columns);
    out.piece(b"\"><title>");
    put_name_of_row(out, model, layered, row);
    out.piece(b"</title></path>\n");
}

// Puts the entries of a row.
fn put_dots<F: Field, K: Sink>(
    out: &mut TextWriter<'_, K>,
    ccf: &Ccf<F>,
    row: Row,
    top: u64,
    columns: &[usize],
)
    ensures { Puts K.Sink out.old out.new (dots_text ccf.now row top 0 columns.now) }
{
    for (left, column) in columns.iter().enumerate() {
        put_entry(out, ccf, row, top, left as u64, *column);
    }
}

// Puts the dot of an entry, and nothing where there is none.
fn put_entry<F: Field, K: Sink>(
    out: &mut TextWriter<'_, K>,
    ccf: &Ccf<F>,
    row: Row,
    top: u64,
    left: u64,
    column: usize,
)
    ensures { Puts K.Sink out.old out.new (entry_text ccf.now row top left column) }
{
    if has_entry(ccf, row, column) {
        put_dot(out, left, top);
    }
}

/// Puts a dot in the middle of a cell.
pub fn put_dot<K: Sink>(out: &mut TextWriter<'_, K>, left: u64, top: u64)
    ensures { Puts K.Sink out.old out.new (dot_text left top) }
{
    out.number(b'M', left);
    out.piece(b".5");
    out.number(b' ', top);
    out.piece(b".5h0");
}

/// How the entries of a row begin.
pub fn row_head(row: Row) -> &'static [u8]
    ensures { result.now ≡ row_head row }
{
    match row {
        Row::Constants(_) => b"<path class=\"c\" d=\"",
        Row::Symbols(_) => b"<path class=\"s\" d=\"",
    }
}

// Whether a row has an entry that is not 0 in a column.
fn has_entry<F: Field>(ccf: &Ccf<F>, row: Row, column: usize) -> bool
    ensures { result ≡ has_printed_entry ccf.now row column }
{
    match row {
        Row::Constants(row) => has_constant(ccf.p().as_slice(), row, column),
        Row::Symbols(row) => has_symbol(ccf.t().as_slice(), row, column),
    }
}

// Whether a row has a constant in a column.
fn has_constant<F: Field>(rows: &[Items<(usize, F)>], row: usize, column: usize) -> bool
    ensures { result ≡ list_any (λ entry. entry.0 == column) (slice_index_or (numbered_rows F.number rows.now) row []) }
{
    match rows.get(row) {
        Some(entries) => has_key(entries.as_slice(), column),
        None => false,
    }
}

// Whether an entry stands in a column.
fn has_key<F: Field>(entries: &[(usize, F)], column: usize) -> bool
    ensures { result ≡ list_any (λ entry. entry.0 == column) entries.now }
{
    entries.iter().any(|entry| entry.0 == column)
}

// Whether a row has a symbol in a column.
fn has_symbol(rows: &[Items<usize>], row: usize, column: usize) -> bool
    ensures { result ≡ list_any (λ other. other == column) (slice_index_or rows.now row []) }
{
    match rows.get(row) {
        Some(columns) => has_number(columns.as_slice(), column),
        None => false,
    }
}

// Whether a number is among others.
fn has_number(numbers: &[usize], number: usize) -> bool
    ensures { result ≡ list_any (λ other. other == number) numbers.now }
{
    numbers.iter().any(|other| *other == number)
}
