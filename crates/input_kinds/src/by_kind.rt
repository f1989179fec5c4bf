//! Each kind is read by its own reader.

ghost use Rattle.std.specs.Prelude.{◌≤◌, IfErr, IfOk, length};
ghost use Rattle.limits.specs.Limits.{input_limit};
ghost use Rattle.run_ends.specs.Reading.{IsUnread, ReadsWhole, TellsOfSource};
ghost use Rattle.input_kinds.specs.Kinds.{GivesModel, IsWhyUnread};
ghost use Rattle.input_kinds.specs.Refusals.{IsRefusedAs};

use crate::reading::read_pieces;
use cert_text::Kind;
use flowsheet_reader::FlowsheetReader;
use matrix_reader::MatrixReader;
use mixed_model::Mixed;
use netlist_reader::NetlistReader;
use port_io::Source;
use refusals::ReadModel;
use residue_field::Field;
use run_ends::Status;
use std::alloc::Global;

/// The model that a text of this kind gives, of at most 8,388,608 bytes, or the first rule that the text breaks.
pub fn read_model<F: Field>(alloc: Global, kind: Kind, text: &[u8]) -> Result<Mixed<F>, ReadModel>
    requires { length text.now ≤ input_limit }
    ensures model { IfOk result (GivesModel F.modulus kind text.now) }
    ensures refused { IfErr result (IsWhyUnread F.modulus kind text.now) }
{
    match kind {
        Kind::Matrix => matrix_reader::read(alloc, text),
        Kind::Netlist => netlist_reader::read(alloc, text),
        Kind::Flowsheet => flowsheet_reader::read(alloc, text),
    }
}

/// The model that an input of this kind gives, of at most 8,388,608 bytes, or how a run ends without it. The input is
/// read to its end, piece by piece, and its text is not kept.
pub fn read_input<F: Field, S: Source>(
    alloc: Global,
    kind: Kind,
    source: &mut S,
) -> Result<Mixed<F>, Status>
    ensures read { IfOk result (λ model. ReadsWhole input_limit (S.left source.old) (S.left source.new)
        (λ input. GivesModel F.modulus kind input model)) }
    ensures unread { IfErr result (λ status.
        IsUnread input_limit (IsRefusedAs F.modulus kind) status (S.left source.old) (S.left source.new)) }
    ensures source { TellsOfSource S.Source input_limit source.old source.new result }
{
    match kind {
        Kind::Matrix => read_pieces::<F, S, MatrixReader<F>>(alloc, source),
        Kind::Netlist => read_pieces::<F, S, NetlistReader<F>>(alloc, source),
        Kind::Flowsheet => read_pieces::<F, S, FlowsheetReader>(alloc, source),
    }
}
