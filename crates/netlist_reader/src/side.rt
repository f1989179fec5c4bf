//! The names of a circuit's unknowns, or of its equations.

ghost use Rattle.std.specs.Prelude.{◌≡◌, map, IfOk, OnOk, ◌++◌};
ghost use Rattle.std.specs.String.{string_bytes};
ghost use Rattle.term_model.specs.Terms.{dotted};
ghost use Rattle.netlist_devices.specs.Circuits.{IsCircuit};
ghost use Rattle.netlist_reader.specs.Naming.{node_word, own_words, names_on};
ghost use Rattle.netlist_devices.specs.EquationNames.{own_names};
ghost use Rattle.netlist_reader.specs.Numbers.{AreFirsts};

use netlist_devices::{Circuit, Device, DeviceKind};
use out_of_memory::NoMemory;
use residue_field::Field;
use std::alloc::Global;
use term_model::dotted;

/// What is named.
#[derive(Clone, Copy, Debug, PartialEq, Eq)]
pub(crate) enum Side {
    Unknowns,
    Equations,
}

impl Side {
    // The word before a node.
    fn node_word(self) -> &'static str
        ensures { result.now ≡ node_word self }
    {
        match self {
            Side::Unknowns => "u",
            Side::Equations => "kcl",
        }
    }

    // The words before the name of a device of this kind.
    fn own_words(self, kind: DeviceKind) -> &'static [&'static str]
        ensures { map (λ word. word.now) result.now ≡ own_words self kind }
    {
        match self {
            Side::Unknowns => unknown_words(kind),
            Side::Equations => equation_words(kind),
        }
    }
}

fn unknown_words(kind: DeviceKind) -> &'static [&'static str]
    ensures { map (λ word. word.now) result.now ≡ own_words Side.Unknowns kind }
{
    match kind {
        DeviceKind::VoltageByVoltage | DeviceKind::CurrentByVoltage => &["v", "i", "w"],
        DeviceKind::Opamp => &["i"],
        DeviceKind::Transformer | DeviceKind::Gyrator => &["va", "ia", "vb", "ib"],
        _ => &["v", "i"],
    }
}

fn equation_words(kind: DeviceKind) -> &'static [&'static str]
    ensures { map (λ word. word.now) result.now ≡ own_words Side.Equations kind }
{
    match kind {
        DeviceKind::VoltageByVoltage | DeviceKind::CurrentByVoltage => &["kvl", "ctl", "law"],
        DeviceKind::Opamp => &["law"],
        DeviceKind::Transformer | DeviceKind::Gyrator => &["kvla", "kvlb", "lawa", "lawb"],
        _ => &["kvl", "law"],
    }
}

/// The names on a side, in order: those of the nodes, and then those of the devices.
pub(crate) fn names_on<F: Field>(
    alloc: Global,
    circuit: &Circuit<F>,
    side: Side,
) -> Result<Vec<String>, NoMemory>
    requires { IsCircuit F.modulus circuit.now }
    ensures { IfOk result (λ names. map string_bytes names.items ≡ names_on side circuit.now.devices) }
{
    let mut names = Vec::new(alloc);
    push_nodes(alloc, &mut names, circuit, side.node_word())?;
    push_devices(alloc, &mut names, circuit, side)?;
    Ok(names)
}

/// The number of the first own name of each device on a side.
pub(crate) fn first_numbers<F: Field>(
    alloc: Global,
    circuit: &Circuit<F>,
    side: Side,
) -> Result<Vec<usize>, NoMemory>
    requires { IsCircuit F.modulus circuit.now }
    ensures { IfOk result (λ firsts. AreFirsts (own_words side) circuit.now.devices firsts.items) }
{
    let mut firsts = Vec::new(alloc);
    let mut next = circuit.nodes.len();
    for device in &circuit.devices {
        firsts.push(next)?;
        next += side.own_words(device.kind).len();
    }
    Ok(firsts)
}

// Puts the names of the nodes last.
fn push_nodes<F: Field>(
    alloc: Global,
    names: &mut Vec<String>,
    circuit: &Circuit<F>,
    word: &str,
) -> Result<(), NoMemory>
    ensures { OnOk result (map string_bytes names.new.items
        ≡ map string_bytes names.old.items ++ map (dotted word.now) circuit.now.nodes) }
{
    for node in 0..circuit.nodes.len() {
        names.push(dotted(alloc, word, circuit.nodes.get(node))?)?;
    }
    Ok(())
}

// Puts the names of the devices last.
fn push_devices<F: Field>(
    alloc: Global,
    names: &mut Vec<String>,
    circuit: &Circuit<F>,
    side: Side,
) -> Result<(), NoMemory>
    ensures { OnOk result (map string_bytes names.new.items
        ≡ map string_bytes names.old.items ++ own_names (own_words side) circuit.now.devices) }
{
    for device in &circuit.devices {
        push_own(alloc, names, device, side)?;
    }
    Ok(())
}

// Puts the names of a device last.
fn push_own<F: Field>(
    alloc: Global,
    names: &mut Vec<String>,
    device: &Device<F>,
    side: Side,
) -> Result<(), NoMemory>
    ensures { OnOk result (map string_bytes names.new.items ≡ map string_bytes names.old.items
        ++ map (λ word. dotted word device.now.name) (own_words side device.now.kind)) }
{
    for word in side.own_words(device.kind) {
        names.push(dotted(alloc, word, &device.name)?)?;
    }
    Ok(())
}
