//! Readers of inputs of one kind.

ghost use Rattle.std.specs.Prelude.{◌≤◌, ◌++◌, List, ℕ, [], length, IfOk, IfErr};
ghost use Rattle.cert_text.specs.declared.kind.Kind.{Kind};
ghost use Rattle.limits.specs.Limits.{input_limit};
ghost use Rattle.input_kinds.specs.Kinds.{GivesModel, IsWhyUnread};

use flowsheet_reader::FlowsheetReader;
use matrix_reader::MatrixReader;
use mixed_model::Mixed;
use netlist_reader::NetlistReader;
use out_of_memory::NoMemory;
use refusals::ReadModel;
use residue_field::Field;
use std::alloc::Global;

/// A reader of inputs of one kind, of at most 8,388,608 bytes, that come in pieces.
pub trait ModelReader<F: Field>: Drop {
    /// The kind of the inputs.
    ghost KIND: { Kind };

    /// The reader was fed this text.
    ghost is_fed: { Self → List ℕ → Type 0 };

    /// A reader that was fed nothing.
    fn start(alloc: Global) -> Result<Self, NoMemory>
        ensures { IfOk result (λ reader. is_fed reader []) };

    /// Reads a piece more.
    fn take(self, piece: &[u8]) -> Result<Self, NoMemory>
        ensures { IfOk result (λ fed. (text : List ℕ) → is_fed self text → length (text ++ piece.now) ≤ input_limit →
            is_fed fed (text ++ piece.now)) };

    /// The model of the text, or why it has none.
    fn model(self) -> Result<Mixed<F>, ReadModel>
        ensures model { IfOk result (λ model. (text : List ℕ) → is_fed self text →
            GivesModel F.modulus KIND text model) }
        ensures refused { IfErr result (λ why. (text : List ℕ) → is_fed self text →
            IsWhyUnread F.modulus KIND text why) };
}

impl<F: Field> ModelReader<F> for MatrixReader<F> {
    ghost use Rattle.cert_text.specs.declared.kind.Kind.TheVariants.{Matrix};
    ghost use Rattle.matrix_reader.specs.Feeding.{IsFed};

    ghost KIND = { Matrix };

    ghost is_fed = { IsFed F.modulus };

    fn start(alloc: Global) -> Result<MatrixReader<F>, NoMemory> {
        MatrixReader::new(alloc)
    }

    fn take(self, piece: &[u8]) -> Result<MatrixReader<F>, NoMemory> {
        self.feed(piece)
    }

    fn model(self) -> Result<Mixed<F>, ReadModel> {
        self.finish()
    }
}

impl<F: Field> ModelReader<F> for NetlistReader<F> {
    ghost use Rattle.cert_text.specs.declared.kind.Kind.TheVariants.{Netlist};
    ghost use Rattle.netlist_reader.specs.Feeding.{IsFed};

    ghost KIND = { Netlist };

    ghost is_fed = { IsFed F.modulus };

    fn start(alloc: Global) -> Result<NetlistReader<F>, NoMemory> {
        NetlistReader::new(alloc)
    }

    fn take(self, piece: &[u8]) -> Result<NetlistReader<F>, NoMemory> {
        self.feed(piece)
    }

    fn model(self) -> Result<Mixed<F>, ReadModel> {
        self.finish()
    }
}

impl<F: Field> ModelReader<F> for FlowsheetReader {
    ghost use Rattle.cert_text.specs.declared.kind.Kind.TheVariants.{Flowsheet};
    ghost use Rattle.flowsheet_reader.specs.Feeding.{IsFed};

    ghost KIND = { Flowsheet };

    ghost is_fed = { IsFed };

    fn start(alloc: Global) -> Result<FlowsheetReader, NoMemory> {
        Ok(FlowsheetReader::new(alloc))
    }

    fn take(self, piece: &[u8]) -> Result<FlowsheetReader, NoMemory> {
        self.feed(piece)
    }

    fn model(self) -> Result<Mixed<F>, ReadModel> {
        self.finish()
    }
}
