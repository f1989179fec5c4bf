//! Values for the symbols of a model, put into a writer.

ghost use Rattle.std.specs.Prelude.{codes};
ghost use Rattle.std.specs.List.{All};
ghost use Rattle.answer_texts.specs.ReportTexts.{count_line};
ghost use Rattle.study_texts.specs.ValueTexts.{IsPlaceIn, symbol_line, symbol_lines, values_text};
ghost use Rattle.text_writer.specs.Texts.{Puts};

use answer_texts::{put_equation_name, put_unknown_name};
use mixed_model::Mixed;
use port_io::Sink;
use residue_field::Field;
use study_answers::{ValueAt, Values};
use symbol_places::SymbolPlace;
use text_writer::TextWriter;

/// Puts the rank of a model, and a line for each symbol: its equation, its unknown and its value.
pub fn put_values<F: Field, K: Sink>(
    out: &mut TextWriter<'_, K>,
    model: &Mixed<F>,
    told: &Values<F>,
)
    requires { All (λ at. IsPlaceIn model.now at.place) told.now.values }
    ensures { Puts K.Sink out.old out.new (values_text F.number model.now told.now) }
{
    put_rank(out, told.rank);
    put_symbol_lines(out, model, told.values.as_slice());
}

// Puts the line of a rank.
fn put_rank<K: Sink>(out: &mut TextWriter<'_, K>, rank: usize)
    ensures { Puts K.Sink out.old out.new (count_line (codes "rank") rank) }
{
    out.piece(b"rank");
    out.number(b' ', rank as u64);
    out.piece(b"\n");
}

// Puts the lines of some values.
fn put_symbol_lines<F: Field, K: Sink>(
    out: &mut TextWriter<'_, K>,
    model: &Mixed<F>,
    values: &[ValueAt<F>],
)
    requires { All (λ at. IsPlaceIn model.now at.place) values.now }
    ensures { Puts K.Sink out.old out.new (symbol_lines F.number model.now values.now) }
{
    for at in values {
        put_symbol_line(out, model, at.place, at.value);
    }
}

// Puts the line of a value.
fn put_symbol_line<F: Field, K: Sink>(
    out: &mut TextWriter<'_, K>,
    model: &Mixed<F>,
    place: SymbolPlace,
    value: F,
)
    requires { IsPlaceIn model.now place }
    ensures { Puts K.Sink out.old out.new (symbol_line model.now place (F.number value)) }
{
    out.piece(b"value ");
    put_equation_name(out, model, place.equation);
    out.piece(b" ");
    put_unknown_name(out, model, place.unknown);
    out.number(b' ', u64::from(value.value()));
    out.piece(b"\n");
}
