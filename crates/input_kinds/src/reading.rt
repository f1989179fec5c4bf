//! An input, read piece by piece.

ghost use Rattle.std.specs.Prelude.{◌≡◌, List, ℕ, [], IfOk, IfErr};
ghost use Rattle.limits.specs.Limits.{input_limit};
ghost use Rattle.port_io.specs.Pumping.{nothing_pumped};
ghost use Rattle.run_ends.specs.Reading.{IsUnread, ReadsWhole, TellsOfSource};
ghost use Rattle.input_kinds.specs.Kinds.{GivesModel};
ghost use Rattle.input_kinds.specs.Refusals.{IsRefusedAs};

use crate::model_reader::ModelReader;
use limits::INPUT_LIMIT;
use mixed_model::Mixed;
use port_io::{Pump, Source};
use residue_field::Field;
use run_ends::Status;
use std::alloc::Global;

/// The model that an input gives, whose text is not kept.
pub fn read_pieces<F: Field, S: Source, R: ModelReader<F>>(
    alloc: Global,
    source: &mut S,
) -> Result<Mixed<F>, Status>
    ensures read { IfOk result (λ model. ReadsWhole input_limit (S.left source.old) (S.left source.new)
        (λ input. GivesModel F.modulus R.KIND input model)) }
    ensures unread { IfErr result (λ status.
        IsUnread input_limit (IsRefusedAs F.modulus R.KIND) status (S.left source.old) (S.left source.new)) }
    ensures source { TellsOfSource S.Source input_limit source.old source.new result }
{
    let pump = Pump::new(alloc, INPUT_LIMIT as u64)?;
    let reader = R::start(alloc)?;
    let reader = feed_all::<F, S, R>(source, pump, reader)?;
    Ok(reader.model()?)
}

// Feeds all pieces to a reader.
fn feed_all<F: Field, S: Source, R: ModelReader<F>>(
    source: &mut S,
    mut pump: Pump,
    mut reader: R,
) -> Result<R, Status>
    requires pump { pump ≡ nothing_pumped input_limit }
    requires reader { R.is_fed reader [] }
    ensures read { IfOk result (λ fed.
        ReadsWhole input_limit (S.left source.old) (S.left source.new) (λ input. R.is_fed fed input)) }
    ensures unread { IfErr result (λ status.
        IsUnread input_limit (IsRefusedAs F.modulus R.KIND) status (S.left source.old) (S.left source.new)) }
    ensures source { TellsOfSource S.Source input_limit source.old source.new result }
{
    while pump.next(source)? > 0 {
        reader = reader.take(pump.piece())?;
    }
    Ok(reader)
}
