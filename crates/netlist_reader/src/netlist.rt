//! The model of a netlist.

ghost use Rattle.std.specs.Prelude.{◌≡◌, ◌≤◌, ◌++◌, ℕ, List, [], length, IfOk, IfErr};
ghost use Rattle.limits.specs.Limits.{input_limit};
ghost use Rattle.netlist_reader.specs.Models.{GivesModel, IsRefusal};
ghost use Rattle.netlist_reader.specs.Feeding.{IsFed};

use crate::building::build;
use line_reader::LineReader;
use mixed_model::Mixed;
use netlist_devices::Circuit;
use out_of_memory::NoMemory;
use refusals::ReadModel;
use residue_field::Field;
use std::alloc::Global;

/// Reads a netlist of at most 8,388,608 bytes that comes in pieces, whatever the pieces are.
#[derive(Drop)]
pub struct NetlistReader<F: Field> {
    lines: LineReader<Circuit<F>>,
}

impl<F: Field> NetlistReader<F> {
    /// A reader that was fed nothing.
    pub fn new(alloc: Global) -> Result<NetlistReader<F>, NoMemory>
        ensures { IfOk result (λ reader. IsFed F.modulus reader []) }
    {
        let circuit = Circuit::new(alloc);
        Ok(NetlistReader {
            lines: LineReader::new(alloc, circuit),
        })
    }

    /// Reads the lines that a piece ends. Where memory runs out the reader is given up.
    pub fn feed(self, piece: &[u8]) -> Result<NetlistReader<F>, NoMemory>
        ensures { IfOk result (λ fed. (text : List ℕ) → IsFed F.modulus self text
            → length (text ++ piece.now) ≤ input_limit → IsFed F.modulus fed (text ++ piece.now)) }
    {
        let lines = self.lines.feed(piece)?;
        Ok(NetlistReader { lines })
    }

    /// The model of the netlist, or why it has none, as `read` answers.
    pub fn finish(self) -> Result<Mixed<F>, ReadModel>
        ensures model { IfOk result (λ m. (text : List ℕ) → IsFed F.modulus self text → GivesModel F.modulus text m) }
        ensures refused { IfErr result (λ why. (text : List ℕ) → IsFed F.modulus self text
            → IsRefusal F.modulus text why) }
    {
        let circuit = self.lines.finish()?;
        circuit.test()?;
        Ok(build(*circuit.devices.allocator(), &circuit)?)
    }
}

/// The model of a netlist. Each line is one device. Its first word tells the kind: `R`, `L` or `C`, `V`, `I`, `E`, `G`,
/// `F` or `H` begins the device's name; `.opamp`, `.transformer` or `.gyrator` stands before it; letters may be of
/// either case. Then come its nodes P and M, or A, B and the output, or both ends of two pairs; `E` and `G` have two
/// more, whose voltage controls them; `F` and `H` name a `V` device, whose current does; a transformer has a ratio and a
/// gyrator a resistance, as numbers. What follows in a line of the nine letters, as a value, is not read: the value of
/// any but `V` and `I`, which give what is given, is a symbol. The node `0` is the ground.
///
/// The unknowns of the model are the voltage `u.NODE` of each node but the ground, in the order in which they first
/// stand, and then each device's own by its line, as `v.NAME` and `i.NAME`; its equations are the sum of currents
/// `kcl.NODE` of each such node, and then each device's own, as `kvl.NAME` and `law.NAME`. There are at most 4,096 of
/// each.
///
/// A text that breaks a rule is refused with the number of the first line that does, and why. The rules of a line, in
/// the order in which they are tested: its bytes (`BadByte`), its first word (`Unsupported`), the number of its words
/// (`BadShape`), the names of the device, of its nodes and of its source (`BadName`), its number (`BadNumber`,
/// `Vanish`), and among the lines before it that its name is new (`Twice`) and that there is room (`TooMany`). Where all
/// lines keep these, a netlist with devices of which none names the ground is refused as a whole (`NoGround`), and then
/// the first line whose source is no `V` device (`NoSuchSource`).
pub fn read<F: Field>(alloc: Global, bytes: &[u8]) -> Result<Mixed<F>, ReadModel>
    requires { length bytes.now ≤ input_limit }
    ensures model { IfOk result (λ m. GivesModel F.modulus bytes.now m) }
    ensures refused { IfErr result (λ why. IsRefusal F.modulus bytes.now why) }
{
    NetlistReader::new(alloc)?.feed(bytes)?.finish()
}
