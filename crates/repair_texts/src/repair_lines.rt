//! Repairs, put into a writer.

ghost use Rattle.std.specs.Prelude.{◌<◌, ◌≤◌, codes, length};
ghost use Rattle.std.specs.List.Sorted.{IsStrictlyIncreasing};
ghost use Rattle.residue_theory.specs.Sets.{has};
ghost use Rattle.mixed_model.specs.Names.{name_at};
ghost use Rattle.answer_texts.specs.ReportTexts.{count_line};
ghost use Rattle.repair_texts.specs.RepairTexts.{drop_line, drop_line_unless, drop_lines, kept_text, level_line};
ghost use Rattle.repair_texts.specs.RepairTexts.{level_text, levels_text, repair_text};
ghost use Rattle.text_writer.specs.Texts.{Puts};

use answer_texts::put_equation_name;
use cert_text::Ccf;
use mixed_model::Mixed;
use port_io::Sink;
use repair_checker::{Level, Repair};
use residue_field::Field;
use text_writer::TextWriter;

/// Puts the text of a repair of a model whose equations have these costs: what it costs, the equations that are dropped, by
/// rising number, each with its cost, and the levels and the kept equations with their forms. It takes no memory.
pub fn put_repair<F: Field, K: Sink>(
    out: &mut TextWriter<'_, K>,
    model: &Mixed<F>,
    costs: &[u64],
    repair: &Repair<F>,
)
    requires costs { length costs.now ≤ length model.now.equations }
    requires kept { IsStrictlyIncreasing repair.now.kept }
    ensures { Puts K.Sink out.old out.new (repair_text model.now costs.now repair.now) }
{
    put_cost(out, repair.cost);
    put_dropped(out, model, costs, repair.kept.as_slice());
    put_levels(out, repair.levels.as_slice());
    put_kept(out, repair.kept.as_slice(), &repair.kept_ccf);
}

// Puts the line of what a repair costs.
fn put_cost<K: Sink>(out: &mut TextWriter<'_, K>, cost: u64)
    ensures { Puts K.Sink out.old out.new (count_line (codes "repair") cost) }
{
    out.piece(b"repair");
    out.number(b' ', cost);
    out.piece(b"\n");
}

// Puts the lines of the equations that are not kept.
fn put_dropped<F: Field, K: Sink>(
    out: &mut TextWriter<'_, K>,
    model: &Mixed<F>,
    costs: &[u64],
    kept: &[usize],
)
    requires costs { length costs.now ≤ length model.now.equations }
    requires kept { IsStrictlyIncreasing kept.now }
    ensures { Puts K.Sink out.old out.new (drop_lines model.now.equations kept.now 0 costs.now) }
{
    for (equation, cost) in costs.iter().enumerate() {
        put_unless_kept(out, model, equation, *cost, kept);
    }
}

// Puts the line of an equation and its cost, unless it is kept.
fn put_unless_kept<F: Field, K: Sink>(
    out: &mut TextWriter<'_, K>,
    model: &Mixed<F>,
    equation: usize,
    cost: u64,
    kept: &[usize],
)
    requires equation { equation < length model.now.equations }
    requires kept { IsStrictlyIncreasing kept.now }
    ensures { Puts K.Sink out.old out.new
        (drop_line_unless (has kept.now equation) (name_at model.now.equations equation) cost) }
{
    if kept.binary_search(&equation).is_err() {
        put_drop(out, model, equation, cost);
    }
}

// Puts the line of an equation and its cost.
fn put_drop<F: Field, K: Sink>(
    out: &mut TextWriter<'_, K>,
    model: &Mixed<F>,
    equation: usize,
    cost: u64,
)
    requires { equation < length model.now.equations }
    ensures { Puts K.Sink out.old out.new (drop_line (name_at model.now.equations equation) cost) }
{
    out.piece(b"drop ");
    put_equation_name(out, model, equation);
    out.number(b' ', cost);
    out.piece(b"\n");
}

// Puts the levels, each with its form.
fn put_levels<F: Field, K: Sink>(out: &mut TextWriter<'_, K>, levels: &[Level<F>])
    ensures { Puts K.Sink out.old out.new (levels_text levels.now) }
{
    for level in levels {
        put_level(out, level);
    }
}

// Puts a level and its form.
fn put_level<F: Field, K: Sink>(out: &mut TextWriter<'_, K>, level: &Level<F>)
    ensures { Puts K.Sink out.old out.new (level_text level.now) }
{
    put_level_line(out, level.cost, level.ccf.rank());
    level.ccf.put(out);
}

// Puts the line of a level: its cost and its rank.
fn put_level_line<K: Sink>(out: &mut TextWriter<'_, K>, cost: u64, rank: usize)
    ensures { Puts K.Sink out.old out.new (level_line cost rank) }
{
    out.piece(b"level");
    out.number(b' ', cost);
    out.piece(b" rank");
    out.number(b' ', rank as u64);
    out.piece(b"\n");
}

// Puts how many equations are kept, and their form.
fn put_kept<F: Field, K: Sink>(out: &mut TextWriter<'_, K>, kept: &[usize], ccf: &Ccf<F>)
    ensures { Puts K.Sink out.old out.new (kept_text kept.now ccf.now) }
{
    out.piece(b"kept");
    out.number(b' ', kept.len() as u64);
    out.piece(b"\n");
    ccf.put(out);
}
