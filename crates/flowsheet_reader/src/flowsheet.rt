//! The model of a flowsheet.

ghost use Rattle.std.specs.Prelude.{◌≡◌, ◌++◌, ℕ, List, [], Ok, Err, IfOk, IfErr};
ghost use Rattle.term_model.specs.Systems.{IsModelOf};
ghost use Rattle.toml.specs.View.{table_view};
ghost use Rattle.document_values.specs.Answers.{OnRefused};
ghost use Rattle.flowsheet_reader.specs.Feeding.{IsFed};
ghost use Rattle.flowsheet_reader.specs.Models.{GivesModel, IsRefusal, sheet_in, start_of};
ghost use Rattle.flowsheet_reader.specs.Reached.{Keeps};
ghost use Rattle.flowsheet_reader.specs.Sheets.{Sheet as Flowsheet};

use crate::document::{keys, list_at, read_components, read_streams, version};
use crate::sheet::Sheet;
use document_values::at;
use mixed_model::Mixed;
use out_of_memory::NoMemory;
use refusals::{Place, ReadModel, Refused, Why};
use residue_field::Field;
use std::alloc::Global;
use toml::Table;

/// Reads a flowsheet of at most 8,388,608 bytes that comes in pieces, whatever the pieces are.
#[derive(Drop)]
pub struct FlowsheetReader {
    text: Vec<u8>,
}

impl FlowsheetReader {
    /// A reader that was fed nothing.
    pub fn new(alloc: Global) -> FlowsheetReader
        ensures { IsFed result [] }
    {
        FlowsheetReader {
            text: Vec::new(alloc),
        }
    }

    /// Keeps a piece: a document is read as a whole. Where memory runs out the reader is given up.
    pub fn feed(self, piece: &[u8]) -> Result<FlowsheetReader, NoMemory>
        ensures { IfOk result (λ fed. (text : List ℕ) → IsFed self text → IsFed fed (text ++ piece.now)) }
    {
        let mut text = self.text;
        text.extend_from_slice(piece)?;
        Ok(FlowsheetReader { text })
    }

    /// The model of the flowsheet, or why it has none, as `read` answers.
    pub fn finish<F: Field>(self) -> Result<Mixed<F>, ReadModel>
        ensures model { IfOk result (λ m. (text : List ℕ) → IsFed self text → GivesModel F.modulus text m) }
        ensures refused { IfErr result (λ why. (text : List ℕ) → IsFed self text → IsRefusal F.modulus text why) }
    {
        read(*self.text.allocator(), &self.text)
    }
}

/// The model of a flowsheet, which is a TOML document in UTF-8. Its keys are `components` and `streams`, lists of short
/// names; `unit`, a list of tables; and `version`, 1 or 2. Each unit has a `name`, a `kind` and the keys of its kind:
///
/// | kind | keys in order | own unknown | equations |
/// |---|---|---|---|
/// | `mixer` | `inlets`, `outlet` | | for each component `mix.U.C` |
/// | `separator` | `inlet`, `top`, `bottom` | | for each component `bal.U.C` and `split.U.C` |
/// | `reactor` | `inlet`, `outlet`, `stoich` | `x.U` | for each component `rea.U.C` |
/// | `tee` | `inlet`, `first`, `second`, `fraction` | | for each component `bal.U.C` and `tee.U.C` |
/// | `spec` | `stream`, `component` | | `spec.U` |
/// | `balance` | `streams` | `q.U` | `heat.U` |
/// | `relation` | `unknowns` | | `rel.U` |
///
/// In version 2 a separator has `inlet` and `outlets`, and a tee `inlet`, `outlets` and `fractions`, one fewer; their
/// equations `split.U.C.K` and `tee.U.C.K` stand for each outlet K but the last.
///
/// The unknowns of the model are the flow `f.STREAM.COMPONENT` of each component in each stream, and then those of the
/// units; there are at most 4,096 of them, and of equations.
///
/// A text that breaks a rule is refused with the place of the first that it breaks, and why. As a document: that it is
/// one (`NotToml`), its keys (`UnknownKey`), its version (`BadVersion`), and that its lists are arrays (`BadValue`). Of a
/// component or a stream: a string (`BadValue`), a short name (`BadName`), a new one (`Twice`), and room for a stream's
/// flows (`TooMany`). Of a unit: a table (`BadValue`); its name (`Missing`, `BadValue`, `BadName`, `Twice`) and its kind
/// (`Missing`, `BadValue`, `BadKind`); no other keys than those of the kind (`UnknownKey`); each of these in order, there
/// (`Missing`) and right (`BadValue`; of a name `Undeclared` and then `Twice`; of a number `BadNumber` and `Vanish`); and
/// room (`TooMany`).
pub fn read<F: Field>(alloc: Global, bytes: &[u8]) -> Result<Mixed<F>, ReadModel>
    ensures model { IfOk result (λ m. GivesModel F.modulus bytes.now m) }
    ensures refused { IfErr result (λ why. IsRefusal F.modulus bytes.now why) }
{
    match toml::table_from_slice(alloc, bytes) {
        Ok(document) => read_document(alloc, &document),
        Err(error) if error.is_memory() => Err(ReadModel::NoMemory),
        Err(_) => Err(ReadModel::Refused(Refused {
            place: Place::Document,
            why: Why::NotToml,
        })),
    }
}

// The model of a document.
fn read_document<F: Field>(alloc: Global, document: &Table) -> Result<Mixed<F>, ReadModel>
    ensures model { IfOk result (λ m. (sheet : Flowsheet) × (sheet_in F.modulus (table_view document.now) ≡ Ok sheet)
        × IsModelOf F.modulus sheet.system m) }
    ensures refused { IfErr result (λ why. OnRefused why (λ refused.
        sheet_in F.modulus (table_view document.now) ≡ Err refused)) }
{
    let mut sheet = read_names::<F>(alloc, document)?;
    let units = at(Place::Document, list_at(document, "unit"))?;
    sheet.add_units(alloc, units)?;
    Ok(sheet.model)
}

// The flowsheet without its units.
fn read_names<F: Field>(alloc: Global, document: &Table) -> Result<Sheet<F>, ReadModel>
    ensures kept { IfOk result (λ kept. (sheet : Flowsheet) × (start_of (table_view document.now) ≡ Ok sheet)
        × Keeps F.modulus kept sheet) }
    ensures none { IfOk result (λ kept. kept.units ≡ []) }
    ensures refused { IfErr result (λ why. OnRefused why (λ refused.
        start_of (table_view document.now) ≡ Err refused)) }
{
    at(Place::Document, keys(document))?;
    let version = at(Place::Document, version(document))?;
    let components = read_components(alloc, document)?;
    let streams = read_streams(alloc, document, &components)?;
    match Sheet::without_units(alloc, version, components, streams) {
        Ok(sheet) => Ok(sheet),
        Err(_) => Err(ReadModel::NoMemory),
    }
}
