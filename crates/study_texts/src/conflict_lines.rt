//! Conflict sets, put into a writer.

ghost use Rattle.std.specs.Prelude.{◌<◌, codes, length};
ghost use Rattle.std.specs.List.{All};
ghost use Rattle.answer_texts.specs.ReportTexts.{count_line};
ghost use Rattle.study_texts.specs.ConflictTexts.{IsConflictIn, conflict_line, conflict_lines, conflicts_text, name_item, name_items};
ghost use Rattle.text_writer.specs.Texts.{Puts};

use answer_texts::put_equation_name;
use mixed_model::Mixed;
use port_io::Sink;
use residue_field::Field;
use study_answers::Conflict;
use text_writer::TextWriter;

/// Puts the number of conflict sets, and a line for each: an equation, and its conflict set.
pub fn put_conflicts<F: Field, K: Sink>(
    out: &mut TextWriter<'_, K>,
    model: &Mixed<F>,
    conflicts: &[Conflict],
)
    requires { All (IsConflictIn (length model.now.equations)) conflicts.now }
    ensures { Puts K.Sink out.old out.new (conflicts_text model.now conflicts.now) }
{
    put_count(out, conflicts.len());
    put_conflict_lines(out, model, conflicts);
}

// Puts the line of the number of conflict sets.
fn put_count<K: Sink>(out: &mut TextWriter<'_, K>, count: usize)
    ensures { Puts K.Sink out.old out.new (count_line (codes "conflicts") count) }
{
    out.piece(b"conflicts");
    out.number(b' ', count as u64);
    out.piece(b"\n");
}

// Puts the lines of some equations, each with its conflict set.
fn put_conflict_lines<F: Field, K: Sink>(
    out: &mut TextWriter<'_, K>,
    model: &Mixed<F>,
    conflicts: &[Conflict],
)
    requires { All (IsConflictIn (length model.now.equations)) conflicts.now }
    ensures { Puts K.Sink out.old out.new (conflict_lines model.now.equations conflicts.now) }
{
    for conflict in conflicts {
        put_conflict(out, model, conflict);
    }
}

// Puts the line of an equation and its conflict set.
fn put_conflict<F: Field, K: Sink>(
    out: &mut TextWriter<'_, K>,
    model: &Mixed<F>,
    conflict: &Conflict,
)
    requires { IsConflictIn (length model.now.equations) conflict.now }
    ensures { Puts K.Sink out.old out.new (conflict_line model.now.equations conflict.now) }
{
    out.piece(b"conflict ");
    put_equation_name(out, model, conflict.equation);
    out.piece(b":");
    put_names(out, model, conflict.set.as_slice());
    out.piece(b"\n");
}

// Puts the names of some equations, each behind a space.
fn put_names<F: Field, K: Sink>(out: &mut TextWriter<'_, K>, model: &Mixed<F>, equations: &[usize])
    requires { All (λ equation. equation < length model.now.equations) equations.now }
    ensures { Puts K.Sink out.old out.new (name_items model.now.equations equations.now) }
{
    for equation in equations {
        put_name(out, model, *equation);
    }
}

// Puts the name of an equation, behind a space.
fn put_name<F: Field, K: Sink>(out: &mut TextWriter<'_, K>, model: &Mixed<F>, equation: usize)
    requires { equation < length model.now.equations }
    ensures { Puts K.Sink out.old out.new (name_item model.now.equations equation) }
{
    out.piece(b" ");
    put_equation_name(out, model, equation);
}
