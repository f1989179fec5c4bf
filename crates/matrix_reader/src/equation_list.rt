//! The model of an equation list.

ghost use Rattle.std.specs.Prelude.{◌≡◌, ◌≤◌, ◌++◌, ℕ, List, [], length, IfOk, IfErr};
ghost use Rattle.limits.specs.Limits.{input_limit};
ghost use Rattle.matrix_reader.specs.Models.{GivesModel, IsRefusal};
ghost use Rattle.matrix_reader.specs.Feeding.{IsFed};

use crate::reader::Reader;
use line_reader::LineReader;
use mixed_model::{Mixed, NoMemory};
use refusals::ReadModel;
use residue_field::Field;
use std::alloc::Global;

/// Reads an equation list of at most 8,388,608 bytes that comes in pieces, whatever the pieces are.
#[derive(Drop)]
pub struct MatrixReader<F: Field> {
    lines: LineReader<Reader<F>>,
}

impl<F: Field> MatrixReader<F> {
    /// A reader that was fed nothing.
    pub fn new(alloc: Global) -> Result<MatrixReader<F>, NoMemory>
        ensures { IfOk result (λ reader. IsFed F.modulus reader []) }
    {
        let reader = Reader::new(alloc)?;
        Ok(MatrixReader {
            lines: LineReader::new(alloc, reader),
        })
    }

    /// Reads the lines that a piece ends. Where memory runs out the reader is given up.
    pub fn feed(self, piece: &[u8]) -> Result<MatrixReader<F>, NoMemory>
        ensures { IfOk result (λ fed. (text : List ℕ) → IsFed F.modulus self text
            → length (text ++ piece.now) ≤ input_limit → IsFed F.modulus fed (text ++ piece.now)) }
    {
        let lines = self.lines.feed(piece)?;
        Ok(MatrixReader { lines })
    }

    /// The model of the list, or why it has none, as `read` answers.
    pub fn finish(self) -> Result<Mixed<F>, ReadModel>
        ensures model { IfOk result (λ m. (text : List ℕ) → IsFed F.modulus self text → GivesModel F.modulus text m) }
        ensures refused { IfErr result (λ why. (text : List ℕ) → IsFed F.modulus self text
            → IsRefusal F.modulus text why) }
    {
        Ok(self.lines.finish()?.model)
    }
}

/// The model of an equation list. A line `eq NAME ITEM ..` gives an equation, and each item `UNKNOWN=VALUE` gives it
/// what stands at the unknown: a number is a constant, where it is not 0, `?` is a symbol, and a number followed by
/// `+?` is both; a line `unknown NAME ..` names unknowns. Equations and unknowns are numbered in the order in which
/// they first stand, and there are at most 4,096 of each.
///
/// A text that breaks a rule is refused with the number of the first line that does, and why. The rules of a line, in
/// the order in which they are tested: its bytes (`BadByte`), its first word (`BadWord`), its length (`BadShape`);
/// in an `eq` line the equation's name (`BadName`, `Twice`, `TooMany`) and then each item, which is `BadShape`
/// without an `=`, by its name (`BadName`), its value (`BadNumber`, `Vanish`) and its unknown (`Twice` in one line,
/// `TooMany`); in an `unknown` line each name (`BadName`, `TooMany`).
pub fn read<F: Field>(alloc: Global, bytes: &[u8]) -> Result<Mixed<F>, ReadModel>
    requires { length bytes.now ≤ input_limit }
    ensures model { IfOk result (λ m. GivesModel F.modulus bytes.now m) }
    ensures refused { IfErr result (λ why. IsRefusal F.modulus bytes.now why) }
{
    MatrixReader::new(alloc)?.feed(bytes)?.finish()
}
