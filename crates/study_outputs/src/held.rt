//! What a study writes, in a place of its own in memory.

ghost use Rattle.std.specs.Prelude.{◌≡◌, ℕ, IfErr, IfOk};
ghost use Rattle.limits.specs.Limits.{input_limit};
ghost use Rattle.run_ends.specs.Reading.{IsUnread, ReadsWhole, TellsOfSource};
ghost use Rattle.study_outputs.specs.StudyInputs.{IsStudyFault};
ghost use Rattle.study_outputs.specs.StudyOutputs.{IsStudiedFor, IsStudiedIn, end_of_studied, studied_text};
ghost use Rattle.text_writer.specs.Giving.{IsWritten};

use crate::studied::Studied;
use cert_text::Kind;
use command_line::Study;
use port_io::{Sink, Source, WriteFault};
use residue_field::Field;
use run_ends::Status;
use std::alloc::Global;
use std::marker::Model;

/// What a study writes of an input, in a place of its own in memory, and seen by contracts as that. So whoever owns one among
/// other things lets it go in one step.
#[derive(Drop)]
pub struct StudyOutput<F: Field> {
    studied: Box<Studied<F>>,
}

impl<F: Field> Model for StudyOutput<F> {
    ghost use Rattle.study_outputs.specs.declared.studied.Studied.{Studied};

    ghost Value = { Studied F };

    ghost view = { λ held. held.studied.value };
}

impl<F: Field> StudyOutput<F> {
    /// What the study writes of the input that the source gives, of at most 8,388,608 bytes, or how the run ends without it.
    pub fn read<S: Source>(
        alloc: Global,
        study: Study,
        kind: Kind,
        source: &mut S,
    ) -> Result<StudyOutput<F>, Status>
        ensures right { IfOk result (λ studied. ReadsWhole input_limit (S.left source.old) (S.left source.new)
            (λ input. IsStudiedFor F.number F.modulus study kind input studied)) }
        ensures unread { IfErr result (λ status. IsUnread input_limit (IsStudyFault F.modulus study kind) status
            (S.left source.old) (S.left source.new)) }
        ensures source { TellsOfSource S.Source input_limit source.old source.new result }
    {
        let told = Studied::read(alloc, study, kind, source)?;
        match Box::new(alloc, told) {
            Ok(studied) => Ok(StudyOutput { studied }),
            Err(_) => Err(Status::Memory),
        }
    }

    /// Appends the whole text to the sink, in pieces of some KiB, and takes no memory. It does not flush. Where the sink
    /// fails, a first part of the text was appended.
    pub fn write<K: Sink>(&self, out: &mut K) -> Result<(), WriteFault>
        requires { IsStudiedIn self.now }
        ensures { IsWritten K.Sink out.old out.new (studied_text F.number self.now) result }
    {
        self.studied.write(out)
    }

    /// How a run ends once all is written and flushed.
    pub fn status(&self) -> Status
        ensures { result ≡ end_of_studied self.now }
    {
        self.studied.status()
    }
}
