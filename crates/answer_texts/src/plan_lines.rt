//! The lines of a plan to solve a model, put into a writer.

ghost use Rattle.std.specs.Prelude.{◌≡◌, ℕ, ◌+◌, ◌++◌, ◌<◌, codes, length};
ghost use Rattle.std.specs.List.{All};
ghost use Rattle.limits.specs.Limits.{column_limit};
ghost use Rattle.mixed_layering.specs.Layers.{AreLayersOf};
ghost use Rattle.answer_texts.specs.PlanRanges.{IsPartBelow, IsRowBelow, IsStepIn};
ghost use Rattle.answer_texts.specs.PlanTexts.{step_part_text, step_head, column_item, column_items, named_columns_line};
ghost use Rattle.answer_texts.specs.PlanTexts.{term_item, term_items, row_text, row_line, step_row_lines, step_text};
ghost use Rattle.answer_texts.specs.PlanTexts.{plan_text};
ghost use Rattle.text_writer.specs.Numbers.{spaced};
ghost use Rattle.text_writer.specs.Texts.{Puts};
ghost use Rattle.mixed_model.specs.Names.{name_at};

use crate::layer_lines::{put_column_name, put_equation_name};
use mixed_model::{Layered, Mixed};
use port_io::Sink;
use residue_field::Field;
use solve_plan::{Plan, Step, StepPart, StepRow};
use text_writer::TextWriter;

/// Puts the whole text of a plan to solve a model: for each step its number and the part of the form that it solves,
/// the names of its columns, a line for each of its rows, and the names of the columns of other steps that it uses.
/// Steps and blocks are counted from 1. (Murota, chapters 2 and 4.)
pub fn put_plan<F: Field, K: Sink>(
    out: &mut TextWriter<'_, K>,
    model: &Mixed<F>,
    layered: &Layered<F>,
    plan: &Plan<F>,
)
    requires layers { AreLayersOf model.now layered.now }
    requires steps { All (IsStepIn (length model.now.equations) layered.now.q.width) plan.now.steps }
    ensures { Puts K.Sink out.old out.new (plan_text F.number model.now layered.now plan.now) }
{
    for (place, step) in plan.steps.as_slice().iter().enumerate() {
        put_step(out, model, layered, place as u64 + 1, step);
    }
}

// Puts the lines of a step.
fn put_step<F: Field, K: Sink>(
    out: &mut TextWriter<'_, K>,
    model: &Mixed<F>,
    layered: &Layered<F>,
    number: u64,
    step: &Step<F>,
)
    requires layers { AreLayersOf model.now layered.now }
    requires step { IsStepIn (length model.now.equations) layered.now.q.width step.now }
    ensures { Puts K.Sink out.old out.new (step_text F.number model.now layered.now number step.now) }
{
    put_step_head(out, number, step.part);
    put_columns_line(out, b"for", model, layered, step.columns.as_slice());
    put_row_lines(out, model, step.rows.as_slice());
    put_columns_line(out, b"uses", model, layered, step.uses.as_slice());
}

// Puts the line of a step's number and part.
fn put_step_head<K: Sink>(out: &mut TextWriter<'_, K>, number: u64, part: StepPart)
    requires { IsPartBelow column_limit part }
    ensures { Puts K.Sink out.old out.new (step_head number part) }
{
    out.piece(b"step");
    out.number(b' ', number);
    put_part(out, part);
    out.piece(b"\n");
}

// Puts the part of a form, behind a space.
fn put_part<K: Sink>(out: &mut TextWriter<'_, K>, part: StepPart)
    requires { IsPartBelow column_limit part }
    ensures { Puts K.Sink out.old out.new (step_part_text part) }
{
    match part {
        StepPart::First => out.piece(b" first"),
        StepPart::Block(block) => put_block(out, block),
        StepPart::Last => out.piece(b" last"),
    }
}

// Puts a block, behind a space.
fn put_block<K: Sink>(out: &mut TextWriter<'_, K>, block: usize)
    requires { block < column_limit }
    ensures { Puts K.Sink out.old out.new (codes " block" ++ spaced (block + 1)) }
{
    out.piece(b" block");
    out.number(b' ', block as u64 + 1);
}

// Puts the line of the names of columns behind a word.
fn put_columns_line<F: Field, K: Sink>(
    out: &mut TextWriter<'_, K>,
    word: &[u8],
    model: &Mixed<F>,
    layered: &Layered<F>,
    columns: &[usize],
)
    requires layers { AreLayersOf model.now layered.now }
    requires columns { All (λ column. column < layered.now.q.width) columns.now }
    ensures { Puts K.Sink out.old out.new (named_columns_line word.now model.now layered.now columns.now) }
{
    out.piece(word);
    put_columns(out, model, layered, columns);
    out.piece(b"\n");
}

// Puts the names of columns, each behind a space.
fn put_columns<F: Field, K: Sink>(
    out: &mut TextWriter<'_, K>,
    model: &Mixed<F>,
    layered: &Layered<F>,
    columns: &[usize],
)
    requires layers { AreLayersOf model.now layered.now }
    requires columns { All (λ column. column < layered.now.q.width) columns.now }
    ensures { Puts K.Sink out.old out.new (column_items model.now layered.now columns.now) }
{
    for column in columns {
        put_column(out, model, layered, *column);
    }
}

// Puts the name of a column, behind a space.
fn put_column<F: Field, K: Sink>(
    out: &mut TextWriter<'_, K>,
    model: &Mixed<F>,
    layered: &Layered<F>,
    column: usize,
)
    requires layers { AreLayersOf model.now layered.now }
    requires column { column < layered.now.q.width }
    ensures { Puts K.Sink out.old out.new (column_item model.now layered.now column) }
{
    let origin = layered.column_origin(column);
    out.piece(b" ");
    put_column_name(out, model, origin);
}

// Puts the lines of the rows of a step.
fn put_row_lines<F: Field, K: Sink>(
    out: &mut TextWriter<'_, K>,
    model: &Mixed<F>,
    rows: &[StepRow<F>],
)
    requires { All (IsRowBelow (length model.now.equations)) rows.now }
    ensures { Puts K.Sink out.old out.new (step_row_lines F.number model.now rows.now) }
{
    for row in rows {
        put_row_line(out, model, row);
    }
}

// Puts the line of a row of a step.
fn put_row_line<F: Field, K: Sink>(out: &mut TextWriter<'_, K>, model: &Mixed<F>, row: &StepRow<F>)
    requires { IsRowBelow (length model.now.equations) row.now }
    ensures { Puts K.Sink out.old out.new (row_line F.number model.now row.now) }
{
    out.piece(b"by");
    put_row(out, model, row);
    out.piece(b"\n");
}

// Puts how a row of a step is made, behind a space.
fn put_row<F: Field, K: Sink>(out: &mut TextWriter<'_, K>, model: &Mixed<F>, row: &StepRow<F>)
    requires { IsRowBelow (length model.now.equations) row.now }
    ensures { Puts K.Sink out.old out.new (row_text F.number model.now row.now) }
{
    match row {
        StepRow::Combined(terms) => put_terms(out, model, terms.as_slice()),
        StepRow::Symbols(equation) => put_symbols_row(out, model, *equation),
    }
}

// Puts the mark of a row of symbols and its equation, behind a space.
fn put_symbols_row<F: Field, K: Sink>(
    out: &mut TextWriter<'_, K>,
    model: &Mixed<F>,
    equation: usize,
)
    requires { equation < length model.now.equations }
    ensures { Puts K.Sink out.old out.new (codes " ?" ++ name_at model.now.equations equation) }
{
    out.piece(b" ?");
    put_equation_name(out, model, equation);
}

// Puts a sum of equations, each term behind a space.
fn put_terms<F: Field, K: Sink>(out: &mut TextWriter<'_, K>, model: &Mixed<F>, terms: &[(F, usize)])
    requires { All (λ term. term.1 < length model.now.equations) terms.now }
    ensures { Puts K.Sink out.old out.new (term_items F.number model.now terms.now) }
{
    for term in terms {
        put_term(out, model, term.0, term.1);
    }
}

// Puts a coefficient and the name of its equation, behind a space.
fn put_term<F: Field, K: Sink>(
    out: &mut TextWriter<'_, K>,
    model: &Mixed<F>,
    coefficient: F,
    equation: usize,
)
    requires { equation < length model.now.equations }
    ensures { Puts K.Sink out.old out.new (term_item model.now (F.number coefficient) equation) }
{
    out.number(b' ', u64::from(coefficient.value()));
    out.piece(b"*");
    put_equation_name(out, model, equation);
}
