//! The lines of a report on a model, put into a writer.

ghost use Rattle.std.specs.Prelude.{◌≡◌, ℕ, ◌+◌, ◌-◌, ◌++◌, ◌<◌, ◌≤◌, codes, length};
ghost use Rattle.std.specs.List.{All};
ghost use Rattle.answer_texts.specs.ReportTexts.{count_line, name_line, name_lines, sizes_line, surplus_text, undetermined_text, report_text};
ghost use Rattle.text_writer.specs.Texts.{Puts};
ghost use Rattle.mixed_model.specs.Names.{name_at};

use crate::layer_lines::{put_equation_name, put_unknown_name};
use mixed_model::Mixed;
use port_io::Sink;
use residue_field::Field;
use solve_plan::Report;
use text_writer::TextWriter;

/// Puts the whole text of a report on a model: its numbers of equations and of unknowns and its rank; how many
/// equations there are above the rank, and the names of the surplus ones; and how many unknowns there are above it, and
/// the names of the undetermined ones. (Murota, chapter 4.)
pub fn put_report<F: Field, K: Sink>(out: &mut TextWriter<'_, K>, model: &Mixed<F>, report: &Report)
    requires surplus { All (λ equation. equation < length model.now.equations) report.now.surplus }
    requires undetermined { All (λ unknown. unknown < length model.now.unknowns) report.now.undetermined }
    requires many { report.now.rank ≤ report.now.equations }
    requires few { report.now.rank ≤ report.now.unknowns }
    ensures { Puts K.Sink out.old out.new (report_text model.now report.now) }
{
    put_sizes(out, report);
    put_surplus(out, model, report);
    put_undetermined(out, model, report);
}

// Puts the line of the numbers of equations and of unknowns and of the rank.
fn put_sizes<K: Sink>(out: &mut TextWriter<'_, K>, report: &Report)
    ensures { Puts K.Sink out.old out.new (sizes_line report.now) }
{
    out.piece(b"equations");
    out.number(b' ', report.equations as u64);
    out.piece(b" unknowns");
    out.number(b' ', report.unknowns as u64);
    out.piece(b" rank");
    out.number(b' ', report.rank as u64);
    out.piece(b"\n");
}

// Puts the line of a number behind a word.
pub(crate) fn put_count<K: Sink>(out: &mut TextWriter<'_, K>, word: &[u8], number: usize)
    ensures { Puts K.Sink out.old out.new (count_line word.now number) }
{
    out.piece(word);
    out.number(b' ', number as u64);
    out.piece(b"\n");
}

// Puts how many equations there are above the rank, and the lines of the surplus ones.
fn put_surplus<F: Field, K: Sink>(out: &mut TextWriter<'_, K>, model: &Mixed<F>, report: &Report)
    requires surplus { All (λ equation. equation < length model.now.equations) report.now.surplus }
    requires many { report.now.rank ≤ report.now.equations }
    ensures { Puts K.Sink out.old out.new (surplus_text model.now report.now) }
{
    put_count(out, b"too many", report.equations - report.rank);
    put_equation_lines(out, model, report.surplus.as_slice());
}

// Puts the lines of surplus equations.
fn put_equation_lines<F: Field, K: Sink>(
    out: &mut TextWriter<'_, K>,
    model: &Mixed<F>,
    equations: &[usize],
)
    requires { All (λ equation. equation < length model.now.equations) equations.now }
    ensures { Puts K.Sink out.old out.new (name_lines (codes "surplus") model.now.equations equations.now) }
{
    for equation in equations {
        put_equation_line(out, model, *equation);
    }
}

// Puts the line of a surplus equation.
fn put_equation_line<F: Field, K: Sink>(
    out: &mut TextWriter<'_, K>,
    model: &Mixed<F>,
    equation: usize,
)
    requires { equation < length model.now.equations }
    ensures { Puts K.Sink out.old out.new
        (name_line (codes "surplus") (name_at model.now.equations equation)) }
{
    out.piece(b"surplus ");
    put_equation_name(out, model, equation);
    out.piece(b"\n");
}

// Puts how many unknowns there are above the rank, and the lines of the undetermined ones.
fn put_undetermined<F: Field, K: Sink>(
    out: &mut TextWriter<'_, K>,
    model: &Mixed<F>,
    report: &Report,
)
    requires undetermined { All (λ unknown. unknown < length model.now.unknowns) report.now.undetermined }
    requires few { report.now.rank ≤ report.now.unknowns }
    ensures { Puts K.Sink out.old out.new (undetermined_text model.now report.now) }
{
    put_count(out, b"too few", report.unknowns - report.rank);
    put_unknown_lines(out, model, report.undetermined.as_slice());
}

// Puts the lines of undetermined unknowns.
fn put_unknown_lines<F: Field, K: Sink>(
    out: &mut TextWriter<'_, K>,
    model: &Mixed<F>,
    unknowns: &[usize],
)
    requires { All (λ unknown. unknown < length model.now.unknowns) unknowns.now }
    ensures { Puts K.Sink out.old out.new (name_lines (codes "undetermined") model.now.unknowns unknowns.now) }
{
    for unknown in unknowns {
        put_unknown_line(out, model, *unknown);
    }
}

// Puts the line of an undetermined unknown.
fn put_unknown_line<F: Field, K: Sink>(
    out: &mut TextWriter<'_, K>,
    model: &Mixed<F>,
    unknown: usize,
)
    requires { unknown < length model.now.unknowns }
    ensures { Puts K.Sink out.old out.new
        (name_line (codes "undetermined") (name_at model.now.unknowns unknown)) }
{
    out.piece(b"undetermined ");
    put_unknown_name(out, model, unknown);
    out.piece(b"\n");
}
