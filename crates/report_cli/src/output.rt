//! What a command writes of an input.

ghost use Rattle.std.specs.Prelude.{◌≡◌, ◌<◌, ◌≤◌, ℕ, List, Option, length, IfErr, IfOk};
ghost use Rattle.cert_text.specs.declared.kind.Kind.{Kind};
ghost use Rattle.mixed_layering.specs.Layers.{AreLayersOf};
ghost use Rattle.answer_texts.specs.LayerTexts.{layer_text};
ghost use Rattle.limits.specs.Limits.{input_limit};
ghost use Rattle.input_kinds.specs.Kinds.{GivesModel, IsWhyUnread};
ghost use Rattle.run_ends.specs.Reading.{ReadsWhole, TellsOfSource};
ghost use Rattle.report_cli.specs.Outputs.{IsMadeOutput, IsOutputFor, IsWritable, end_of, end_of_rank, output_text};
ghost use Rattle.std.specs.List.{All};
ghost use Rattle.answer_texts.specs.PlanRanges.{IsStepIn};
ghost use Rattle.answer_texts.specs.MadeTexts.{made_text};
ghost use Rattle.made_models.specs.MadeModels.{IsSize};
ghost use Rattle.answer_texts.specs.PlanTexts.{plan_text};
ghost use Rattle.answer_texts.specs.ReportTexts.{report_text};
ghost use Rattle.mixed_model.specs.Models.{mixed_matrix_of};
ghost use Rattle.solve_plan.specs.Reports.{IsReportOf};
ghost use Rattle.answer_texts.specs.WholeLayers.{AreWholeLayers};
ghost use Rattle.cert_reader.specs.Limits.{certificate_limit};
ghost use Rattle.report_cli.specs.Fields.{certificate_version};
ghost use Rattle.report_cli.specs.Formats.{GivesNothing, limit_of};
ghost use Rattle.command_line.specs.Words.{format_of};
ghost use Rattle.text_writer.specs.Giving.{IsWritten};

use answer_texts::{put_layers, put_made, put_plan, put_report};
use ccf_builder::build;
use cert_reader::CERTIFICATE_LIMIT;
use cert_text::{Ccf, Certificate, Items, Kind, Version};
use cert_verdict::judge;
use command_line::{Command, Format, Study, Task};
use desk_texts::say;
use input_kinds::{read_input, read_model};
use limits::INPUT_LIMIT;
use made_models::made_model;
use mixed_layering::layer;
use mixed_model::{Layered, Mixed};
use out_of_memory::NoMemory;
use port_io::{Sink, Source, WriteFault};
use refusals::ReadModel;
use residue_field::{Field, FieldName};
use run_ends::{Status, read_text};
use solve_plan::{Plan, Report, plan, report};
use sparse_tableau::SparseTableau;
use std::alloc::Global;
use study_outputs::StudyOutput;
use text_writer::TextWriter;

/// What a command writes of an input.
#[derive(Drop)]
pub enum Output<F: Field> {
    /// The certificate of the input.
    Certificate(Certificate<F>),
    /// The model that the input gives, and the layered matrix of the model.
    Layers(Mixed<F>, Layered<F>),
    /// The model that the input gives, and the report on it.
    Report(Mixed<F>, Report),
    /// The model that the input gives, the layered matrix of the model, and a plan to solve it.
    Plan(Mixed<F>, Layered<F>, Plan<F>),
    /// What a study tells of the input.
    Studied(StudyOutput<F>),
    /// That the certificate in the input is right for the input that it repeats.
    Accepted,
    /// The text of the replies to the lines of the input.
    Replies(Items<u8>),
    /// The size of a made model, how many of its equations are split, and its canonical form.
    Made(usize, usize, Ccf<F>),
}

impl<F: Field> Output<F> {
    /// What the command writes of the input that the source gives, or how the run ends without it.
    pub fn read<S: Source>(
        alloc: Global,
        command: Command,
        source: &mut S,
    ) -> Result<Output<F>, Status>
        ensures right { IfOk result (λ output. ReadsWhole (limit_of (format_of command)) (S.left source.old)
            (S.left source.new) (λ input. IsOutputFor F.number F.modulus command input output)) }
        ensures unread { IfErr result (λ status.
            GivesNothing F.modulus (format_of command) status (S.left source.old) (S.left source.new)) }
        ensures source { TellsOfSource S.Source (limit_of (format_of command)) source.old source.new result }
    {
        match command {
            Command::OfModel(task, kind, named) => Output::of_model(
                alloc, task, kind, named, source,
            ),
            Command::OfStudy(study, kind) => Output::of_study(alloc, study, kind, source),
            Command::Check => Output::verdict(alloc, source),
            Command::Edit => Output::replies(alloc, source),
        }
    }

    // What is written of the model of an input of this kind, over the field of this name.
    fn of_model<S: Source>(
        alloc: Global,
        task: Task,
        kind: Kind,
        named: Option<FieldName>,
        source: &mut S,
    ) -> Result<Output<F>, Status>
        ensures right { IfOk result (λ output. ReadsWhole input_limit (S.left source.old) (S.left source.new)
            (λ input. IsOutputFor F.number F.modulus (Command.OfModel task kind named) input output)) }
        ensures unread { IfErr result (λ status.
            GivesNothing F.modulus (Format.Model kind) status (S.left source.old) (S.left source.new)) }
        ensures source { TellsOfSource S.Source input_limit source.old source.new result }
    {
        match task {
            Task::Layer => {
                let model = read_input(alloc, kind, source)?;
                Ok(Output::layers(alloc, model)?)
            }
            Task::Report => {
                let model = read_input(alloc, kind, source)?;
                Ok(Output::report(alloc, model)?)
            }
            Task::Plan => {
                let model = read_input(alloc, kind, source)?;
                Ok(Output::plan(alloc, model)?)
            }
            Task::Analyse => {
                let text = read_text(alloc, source, INPUT_LIMIT as u64)?;
                Ok(Output::certificate(alloc, kind, named, text)?)
            }
        }
    }

    // What this study tells of an input of this kind.
    fn of_study<S: Source>(
        alloc: Global,
        study: Study,
        kind: Kind,
        source: &mut S,
    ) -> Result<Output<F>, Status>
        ensures right { IfOk result (λ output. ReadsWhole input_limit (S.left source.old) (S.left source.new)
            (λ input. IsOutputFor F.number F.modulus (Command.OfStudy study kind) input output)) }
        ensures unread { IfErr result (λ status.
            GivesNothing F.modulus (Format.Studied study kind) status (S.left source.old) (S.left source.new)) }
        ensures source { TellsOfSource S.Source input_limit source.old source.new result }
    {
        let studied = StudyOutput::read(alloc, study, kind, source)?;
        Ok(Output::Studied(studied))
    }

    // That the certificate in the input is accepted.
    fn verdict<S: Source>(alloc: Global, source: &mut S) -> Result<Output<F>, Status>
        ensures right { IfOk result (λ output. ReadsWhole certificate_limit (S.left source.old) (S.left source.new)
            (λ input. IsOutputFor F.number F.modulus Command.Check input output)) }
        ensures unread { IfErr result (λ status.
            GivesNothing F.modulus Format.Certificate status (S.left source.old) (S.left source.new)) }
        ensures source { TellsOfSource S.Source certificate_limit source.old source.new result }
    {
        let text = read_text(alloc, source, CERTIFICATE_LIMIT as u64)?;
        judge(alloc, text)?;
        Ok(Output::Accepted)
    }

    // The replies to the lines of the input.
    fn replies<S: Source>(alloc: Global, source: &mut S) -> Result<Output<F>, Status>
        ensures right { IfOk result (λ output. ReadsWhole input_limit (S.left source.old) (S.left source.new)
            (λ input. IsOutputFor F.number F.modulus Command.Edit input output)) }
        ensures unread { IfErr result (λ status.
            GivesNothing F.modulus Format.Lines status (S.left source.old) (S.left source.new)) }
        ensures source { TellsOfSource S.Source input_limit source.old source.new result }
    {
        let text = read_text(alloc, source, INPUT_LIMIT as u64)?;
        let said = say::<F, SparseTableau<F>>(alloc, &text)?;
        Ok(Output::Replies(Items::from_vec(said)))
    }

    // The layered matrix of a model.
    fn layers(alloc: Global, model: Mixed<F>) -> Result<Output<F>, NoMemory>
        ensures { IfOk result (λ output. (kind : Kind) (named : Option FieldName) (input : List ℕ) →
            GivesModel F.modulus kind input model →
            IsOutputFor F.number F.modulus (Command.OfModel Task.Layer kind named) input output) }
    {
        let layered = layer(alloc, &model)?;
        is_whole(&layered);
        Ok(Output::Layers(model, layered))
    }

    // The report on a model.
    fn report(alloc: Global, model: Mixed<F>) -> Result<Output<F>, NoMemory>
        ensures { IfOk result (λ output. (kind : Kind) (named : Option FieldName) (input : List ℕ) →
            GivesModel F.modulus kind input model →
            IsOutputFor F.number F.modulus (Command.OfModel Task.Report kind named) input output) }
    {
        let layered = layer(alloc, &model)?;
        model.is_model();
        let ccf = build(alloc, &layered)?;
        let told = report(alloc, &layered, &ccf)?;
        Ok(Output::Report(model, told))
    }

    // A plan to solve a model.
    fn plan(alloc: Global, model: Mixed<F>) -> Result<Output<F>, NoMemory>
        ensures { IfOk result (λ output. (kind : Kind) (named : Option FieldName) (input : List ℕ) →
            GivesModel F.modulus kind input model →
            IsOutputFor F.number F.modulus (Command.OfModel Task.Plan kind named) input output) }
    {
        let layered = layer(alloc, &model)?;
        is_whole(&layered);
        model.is_model();
        let ccf = build(alloc, &layered)?;
        ccf.is_in_form();
        let plan = plan(alloc, &layered, &ccf)?;
        Ok(Output::Plan(model, layered, plan))
    }

    // The certificate of a text of this kind, of at most 8,388,608 bytes, where this field is named, or why the text is
    // refused.
    fn certificate(
        alloc: Global,
        kind: Kind,
        named: Option<FieldName>,
        text: Vec<u8>,
    ) -> Result<Output<F>, ReadModel>
        requires { length text.items ≤ input_limit }
        ensures right { IfOk result
            (IsOutputFor F.number F.modulus (Command.OfModel Task.Analyse kind named) text.items) }
        ensures refused { IfErr result (IsWhyUnread F.modulus kind text.items) }
    {
        let model = read_model::<F>(alloc, kind, &text)?;
        let layered = layer(alloc, &model)?;
        let ccf = build(alloc, &layered)?;
        ccf.is_in_form();
        Ok(Output::Certificate(Certificate {
            version: version_of(named),
            kind,
            echo: Items::from_vec(text),
            ccf,
        }))
    }

    /// What is told of the made model of this size.
    pub fn made(alloc: Global, size: usize) -> Result<Output<F>, NoMemory>
        requires size { IsSize size }
        requires constants { 65520 < F.modulus }
        ensures { IfOk result (IsMadeOutput F.modulus size) }
    {
        let model = made_model::<F>(alloc, size)?;
        let layered = layer(alloc, &model)?;
        let ccf = build(alloc, &layered)?;
        ccf.is_in_form();
        let split = layered.split();
        Ok(Output::Made(size, split, ccf))
    }

    /// Appends the whole text to the sink, in pieces of some KiB, and takes no memory. It does not flush. Where the
    /// sink fails, a first part of the text was appended, and `written` counts its bytes.
    pub fn write<K: Sink>(&self, out: &mut K) -> Result<(), WriteFault>
        requires { IsWritable F.modulus self.now }
        ensures { IsWritten K.Sink out.old out.new (output_text F.number self.now) result }
    {
        match self {
            Output::Certificate(certificate) => cert_text::write(certificate, out),
            Output::Layers(model, layered) => write_layers(out, model, layered),
            Output::Report(model, told) => write_report(out, model, told),
            Output::Plan(model, layered, plan) => write_plan(out, model, layered, plan),
            Output::Studied(studied) => studied.write(out),
            Output::Accepted => write_bytes(out, b"accepted\n"),
            Output::Replies(text) => write_bytes(out, text.as_slice()),
            Output::Made(size, split, ccf) => write_made(out, *size, *split, ccf),
        }
    }

    /// How a run ends once all is written and flushed.
    pub fn status(&self) -> Status
        ensures { result ≡ end_of self.now }
    {
        match self {
            Output::Report(_, told) => status_of(told),
            Output::Studied(studied) => studied.status(),
            _ => Status::Done,
        }
    }
}

// How a run ends that reports so.
fn status_of(told: &Report) -> Status
    ensures { result ≡ end_of_rank told.now.equations told.now.unknowns told.now.rank }
{
    if told.equations <= told.rank && told.unknowns <= told.rank {
        Status::Done
    } else {
        Status::NotRegular
    }
}

// The version of the certificate that is written where this field is named.
fn version_of(named: Option<FieldName>) -> Version
    ensures { result ≡ certificate_version named }
{
    match named {
        Some(_) => Version::Two,
        None => Version::One,
    }
}

// Tells a proof what the type of a layered matrix keeps.
fn is_whole<F: Field>(layered: &Layered<F>)
    ensures { AreWholeLayers layered.now }
{
    layered.are_layers();
    layered.q.is_matrix();
    layered.t.is_pattern();
}

// Appends the text of the layered matrix of a model to the sink.
fn write_layers<F: Field, K: Sink>(
    out: &mut K,
    model: &Mixed<F>,
    layered: &Layered<F>,
) -> Result<(), WriteFault>
    requires { AreLayersOf model.now layered.now }
    ensures { IsWritten K.Sink out.old out.new (layer_text model.now layered.now) result }
{
    let mut writer = TextWriter::new(out);
    put_layers(&mut writer, model, layered);
    writer.finish()
}

// Appends the text of the report on a model to the sink.
fn write_report<F: Field, K: Sink>(
    out: &mut K,
    model: &Mixed<F>,
    told: &Report,
) -> Result<(), WriteFault>
    requires { IsReportOf F.modulus (mixed_matrix_of model.now) told.now }
    ensures { IsWritten K.Sink out.old out.new (report_text model.now told.now) result }
{
    let mut writer = TextWriter::new(out);
    put_report(&mut writer, model, told);
    writer.finish()
}

// Appends the text of a plan to the sink.
fn write_plan<F: Field, K: Sink>(
    out: &mut K,
    model: &Mixed<F>,
    layered: &Layered<F>,
    plan: &Plan<F>,
) -> Result<(), WriteFault>
    requires layers { AreLayersOf model.now layered.now }
    requires steps { All (IsStepIn (length model.now.equations) layered.now.q.width) plan.now.steps }
    ensures { IsWritten K.Sink out.old out.new (plan_text F.number model.now layered.now plan.now) result }
{
    let mut writer = TextWriter::new(out);
    put_plan(&mut writer, model, layered, plan);
    writer.finish()
}

// Appends the text about a made model to the sink.
fn write_made<F: Field, K: Sink>(
    out: &mut K,
    size: usize,
    split: usize,
    ccf: &Ccf<F>,
) -> Result<(), WriteFault>
    ensures { IsWritten K.Sink out.old out.new (made_text size split ccf.now) result }
{
    let mut writer = TextWriter::new(out);
    put_made(&mut writer, size, split, ccf);
    writer.finish()
}

// Appends these bytes to the sink.
fn write_bytes<K: Sink>(out: &mut K, bytes: &[u8]) -> Result<(), WriteFault>
    ensures { IsWritten K.Sink out.old out.new bytes.now result }
{
    let mut writer = TextWriter::new(out);
    writer.piece(bytes);
    writer.finish()
}
