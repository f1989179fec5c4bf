//! The text of what a study tells, put out.

ghost use Rattle.std.specs.Prelude.{◌≤◌, length};
ghost use Rattle.std.specs.List.{All};
ghost use Rattle.std.specs.List.Sorted.{IsStrictlyIncreasing};
ghost use Rattle.mixed_layering.specs.Layers.{AreLayersOf};
ghost use Rattle.repair_texts.specs.RepairTexts.{repair_text};
ghost use Rattle.study_texts.specs.ConflictTexts.{IsConflictIn, conflicts_text};
ghost use Rattle.study_texts.specs.SolutionTexts.{IsSolvingIn, solving_text};
ghost use Rattle.study_texts.specs.ValueTexts.{IsPlaceIn, values_text};
ghost use Rattle.study_outputs.specs.StudyOutputs.{IsStudiedIn, studied_text};
ghost use Rattle.text_writer.specs.Giving.{IsWritten};

use crate::studied::Studied;
use mixed_model::{Layered, Mixed};
use port_io::{Sink, WriteFault};
use repair_checker::Repair;
use repair_texts::put_repair;
use residue_field::Field;
use study_answers::{Conflict, Solving, Values};
use study_texts::{put_conflicts, put_solving, put_values};
use text_writer::TextWriter;

impl<F: Field> Studied<F> {
    /// Appends the whole text to the sink, in pieces of some KiB, and takes no memory. It does not flush. Where the sink
    /// fails, a first part of the text was appended.
    pub(crate) fn write<K: Sink>(&self, out: &mut K) -> Result<(), WriteFault>
        requires { IsStudiedIn self.now }
        ensures { IsWritten K.Sink out.old out.new (studied_text F.number self.now) result }
    {
        match self {
            Studied::Values(model, told) => write_values(out, model, told),
            Studied::Solved(model, layered, solving) => write_solving(out, model, layered, solving),
            Studied::Repaired(model, costs, repair) => write_repair(
                out,
                model,
                costs.as_slice(),
                repair,
            ),
            Studied::Conflicts(model, conflicts) => write_conflicts(
                out,
                model,
                conflicts.as_slice(),
            ),
        }
    }
}

// Appends the rank of a model and values for its symbols to the sink.
fn write_values<F: Field, K: Sink>(
    out: &mut K,
    model: &Mixed<F>,
    told: &Values<F>,
) -> Result<(), WriteFault>
    requires { All (λ at. IsPlaceIn model.now at.place) told.now.values }
    ensures { IsWritten K.Sink out.old out.new (values_text F.number model.now told.now) result }
{
    let mut writer = TextWriter::new(out);
    put_values(&mut writer, model, told);
    writer.finish()
}

// Appends to the sink how a model is solved.
fn write_solving<F: Field, K: Sink>(
    out: &mut K,
    model: &Mixed<F>,
    layered: &Layered<F>,
    solving: &Solving<F>,
) -> Result<(), WriteFault>
    requires layers { AreLayersOf model.now layered.now }
    requires solving { IsSolvingIn model.now layered.now solving.now }
    ensures { IsWritten K.Sink out.old out.new (solving_text F.number model.now layered.now solving.now) result }
{
    let mut writer = TextWriter::new(out);
    put_solving(&mut writer, model, layered, solving);
    writer.finish()
}

// Appends a repair of a model whose equations have these costs to the sink.
fn write_repair<F: Field, K: Sink>(
    out: &mut K,
    model: &Mixed<F>,
    costs: &[u64],
    repair: &Repair<F>,
) -> Result<(), WriteFault>
    requires costs { length costs.now ≤ length model.now.equations }
    requires kept { IsStrictlyIncreasing repair.now.kept }
    ensures { IsWritten K.Sink out.old out.new (repair_text model.now costs.now repair.now) result }
{
    let mut writer = TextWriter::new(out);
    put_repair(&mut writer, model, costs, repair);
    writer.finish()
}

// Appends the conflict sets of a model to the sink.
fn write_conflicts<F: Field, K: Sink>(
    out: &mut K,
    model: &Mixed<F>,
    conflicts: &[Conflict],
) -> Result<(), WriteFault>
    requires { All (IsConflictIn (length model.now.equations)) conflicts.now }
    ensures { IsWritten K.Sink out.old out.new (conflicts_text model.now conflicts.now) result }
{
    let mut writer = TextWriter::new(out);
    put_conflicts(&mut writer, model, conflicts);
    writer.finish()
}
