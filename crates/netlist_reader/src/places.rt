//! Where the terms of devices stand.

ghost use Rattle.std.specs.Prelude.{◌≡◌, ◌<◌, All, true, codes, length, map, slice_index_or, IfOk};
ghost use Rattle.std.specs.String.{string_bytes};
ghost use Rattle.mixed_model.specs.Names.{name_at};
ghost use Rattle.term_model.specs.Terms.{dotted};
ghost use Rattle.netlist_devices.specs.Circuits.{AreSourced, IsCircuit};
ghost use Rattle.netlist_devices.specs.Devices.{Device as DeviceParts, has_source};
ghost use Rattle.netlist_devices.specs.EquationNames.{equation_words, unknown_words, unknowns_of};
ghost use Rattle.netlist_devices.specs.Rules.{is_source};
ghost use Rattle.netlist_reader.specs.Numbers.{AreFirsts, HasDevicePlaces, IsNode, IsSeen, node_named, numbered_of};

use mixed_model::Names;
use netlist_devices::{Circuit, Device};
use out_of_memory::NoMemory;
use residue_field::Field;
use std::alloc::Global;
use std::marker::Model;

/// Where the terms of a device stand: the first of its own equations and of its own unknowns, its nodes, of which the
/// ground has no number, and the current of its source, where it has one.
#[derive(Drop)]
pub(crate) struct Places {
    pub equations: usize,
    pub unknowns: usize,
    pub nodes: Vec<Option<usize>>,
    pub source: usize,
}

impl Model for Places {
    ghost use Rattle.netlist_reader.specs.Numbers.{DevicePlaces};

    ghost Value = { DevicePlaces };

    ghost view = { λ p. record {
      equations = p.equations;
      unknowns = p.unknowns;
      nodes = p.nodes.items;
      source = p.source;
    } };
}

impl Places {
    /// The places of device `k` of a circuit, of which these are the first own equation and unknown of each device.
    pub(crate) fn of<F: Field>(
        alloc: Global,
        circuit: &Circuit<F>,
        equations: &[usize],
        unknowns: &[usize],
        k: usize,
    ) -> Result<Places, NoMemory>
        requires circuit { IsCircuit F.modulus circuit.now }
        requires sourced { AreSourced circuit.now.devices }
        requires equations { AreFirsts equation_words circuit.now.devices equations.now }
        requires unknowns { AreFirsts unknown_words circuit.now.devices unknowns.now }
        requires within { k < length circuit.now.devices }
        ensures { IfOk result (λ places. (d : DeviceParts) → d ≡ slice_index_or circuit.now.devices k d
            → HasDevicePlaces (numbered_of circuit.now.devices) d places) }
    {
        let device = &circuit.devices[k];
        Ok(Places {
            equations: equations[k],
            unknowns: unknowns[k],
            nodes: numbers_of(alloc, &circuit.nodes, &device.nodes)?,
            source: source_current(circuit, unknowns, device),
        })
    }
}

// The numbers of some nodes.
fn numbers_of(alloc: Global, seen: &Names, nodes: &[String]) -> Result<Vec<Option<usize>>, NoMemory>
    requires { All (IsSeen seen.now) (map string_bytes nodes.now) }
    ensures named { IfOk result (λ numbers. map (node_named seen.now) numbers.items ≡ map string_bytes nodes.now) }
    ensures within { IfOk result (λ numbers. All (IsNode seen.now) numbers.items) }
{
    let mut numbers = Vec::new(alloc);
    for node in nodes {
        numbers.push(seen.find(node))?;
    }
    Ok(numbers)
}

// The current of a device's source, where its kind has one.
fn source_current<F: Field>(circuit: &Circuit<F>, unknowns: &[usize], device: &Device<F>) -> usize
    requires circuit { IsCircuit F.modulus circuit.now }
    requires unknowns { AreFirsts unknown_words circuit.now.devices unknowns.now }
    requires sourced { has_source device.now.kind ≡ true → is_source circuit.now.devices device.now.source ≡ true }
    ensures { has_source device.now.kind ≡ true
        → name_at (unknowns_of circuit.now.devices) result ≡ dotted (codes "i") device.now.source }
{
    match circuit.names.find(&device.source) {
        Some(source) => unknowns[source] + 1,
        None => 0,
    }
}
