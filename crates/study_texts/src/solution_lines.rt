//! How a model is solved, put into a writer.

ghost use Rattle.std.specs.Prelude.{◌<◌, ◌≤◌, codes, length};
ghost use Rattle.std.specs.List.{All};
ghost use Rattle.mixed_layering.specs.Layers.{AreLayersOf};
ghost use Rattle.mixed_model.specs.Names.{name_at};
ghost use Rattle.answer_texts.specs.PlanTexts.{column_item, column_items, named_columns_line};
ghost use Rattle.answer_texts.specs.ReportTexts.{count_line};
ghost use Rattle.study_texts.specs.SolutionTexts.{IsSolvingIn, open_text, singular_text, solution_text, solving_text, value_line, value_lines};
ghost use Rattle.text_writer.specs.Texts.{Puts};

use answer_texts::{put_column_name, put_unknown_name};
use mixed_model::{Layered, Mixed};
use port_io::Sink;
use residue_field::Field;
use study_answers::Solving;
use text_writer::TextWriter;

/// Puts how a model is solved: that it is not regular, a block that is singular, or the number of each unknown.
pub fn put_solving<F: Field, K: Sink>(
    out: &mut TextWriter<'_, K>,
    model: &Mixed<F>,
    layered: &Layered<F>,
    solving: &Solving<F>,
)
    requires layers { AreLayersOf model.now layered.now }
    requires solving { IsSolvingIn model.now layered.now solving.now }
    ensures { Puts K.Sink out.old out.new (solving_text F.number model.now layered.now solving.now) }
{
    match solving {
        Solving::Open(rank) => put_open(out, model, *rank),
        Solving::Singular(block, columns) => put_singular(
            out,
            model,
            layered,
            *block,
            columns.as_slice(),
        ),
        Solving::Solution(values) => put_solution(out, model, values.as_slice()),
    }
}

// Puts the text of a solution: the number of each unknown.
fn put_solution<F: Field, K: Sink>(out: &mut TextWriter<'_, K>, model: &Mixed<F>, values: &[F])
    requires { length values.now ≤ length model.now.unknowns }
    ensures { Puts K.Sink out.old out.new (solution_text F.number model.now values.now) }
{
    out.piece(b"solution\n");
    put_values(out, model, values);
}

// Puts the lines of the unknowns and their numbers.
fn put_values<F: Field, K: Sink>(out: &mut TextWriter<'_, K>, model: &Mixed<F>, values: &[F])
    requires { length values.now ≤ length model.now.unknowns }
    ensures { Puts K.Sink out.old out.new (value_lines F.number model.now.unknowns 0 values.now) }
{
    for (unknown, value) in values.iter().enumerate() {
        put_value(out, model, unknown, *value);
    }
}

// Puts the line of an unknown and its number.
fn put_value<F: Field, K: Sink>(
    out: &mut TextWriter<'_, K>,
    model: &Mixed<F>,
    unknown: usize,
    value: F,
)
    requires { unknown < length model.now.unknowns }
    ensures { Puts K.Sink out.old out.new (value_line (name_at model.now.unknowns unknown) (F.number value)) }
{
    out.piece(b"unknown ");
    put_unknown_name(out, model, unknown);
    out.number(b' ', u64::from(value.value()));
    out.piece(b"\n");
}

// Puts the text of a singular block: its number, counted from 1, and its columns.
fn put_singular<F: Field, K: Sink>(
    out: &mut TextWriter<'_, K>,
    model: &Mixed<F>,
    layered: &Layered<F>,
    block: usize,
    columns: &[usize],
)
    requires layers { AreLayersOf model.now layered.now }
    requires columns { All (λ column. column < layered.now.q.width) columns.now }
    ensures { Puts K.Sink out.old out.new (singular_text model.now layered.now block columns.now) }
{
    put_block_line(out, block);
    put_columns_line(out, model, layered, columns);
}

// Puts the line of the number of a singular block.
fn put_block_line<K: Sink>(out: &mut TextWriter<'_, K>, block: usize)
    ensures { Puts K.Sink out.old out.new (count_line (codes "singular block") block) }
{
    out.piece(b"singular block");
    out.number(b' ', block as u64);
    out.piece(b"\n");
}

// Puts the line of the names of columns.
fn put_columns_line<F: Field, K: Sink>(
    out: &mut TextWriter<'_, K>,
    model: &Mixed<F>,
    layered: &Layered<F>,
    columns: &[usize],
)
    requires layers { AreLayersOf model.now layered.now }
    requires columns { All (λ column. column < layered.now.q.width) columns.now }
    ensures { Puts K.Sink out.old out.new (named_columns_line (codes "for") model.now layered.now columns.now) }
{
    out.piece(b"for");
    put_columns(out, model, layered, columns);
    out.piece(b"\n");
}

// Puts the names of columns, each behind a space.
fn put_columns<F: Field, K: Sink>(
    out: &mut TextWriter<'_, K>,
    model: &Mixed<F>,
    layered: &Layered<F>,
    columns: &[usize],
)
    requires layers { AreLayersOf model.now layered.now }
    requires columns { All (λ column. column < layered.now.q.width) columns.now }
    ensures { Puts K.Sink out.old out.new (column_items model.now layered.now columns.now) }
{
    for column in columns {
        put_column(out, model, layered, *column);
    }
}

// Puts the name of a column, behind a space.
fn put_column<F: Field, K: Sink>(
    out: &mut TextWriter<'_, K>,
    model: &Mixed<F>,
    layered: &Layered<F>,
    column: usize,
)
    requires layers { AreLayersOf model.now layered.now }
    requires column { column < layered.now.q.width }
    ensures { Puts K.Sink out.old out.new (column_item model.now layered.now column) }
{
    out.piece(b" ");
    let origin = layered.column_origin(column);
    put_column_name(out, model, origin);
}

// Puts the text of a model that is not regular, whatever its values are: its numbers of equations and of unknowns, and
// its structural rank.
fn put_open<F: Field, K: Sink>(out: &mut TextWriter<'_, K>, model: &Mixed<F>, rank: usize)
    ensures { Puts K.Sink out.old out.new (open_text model.now rank) }
{
    out.piece(b"equations");
    out.number(b' ', model.equations() as u64);
    out.piece(b" unknowns");
    out.number(b' ', model.unknowns() as u64);
    out.piece(b" rank");
    out.number(b' ', rank as u64);
    out.piece(b"\n");
}
