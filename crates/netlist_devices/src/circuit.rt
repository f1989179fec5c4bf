//! Circuits: the devices of the lines so far.

ghost use Rattle.std.specs.Prelude.{◌≡◌, ◌<◌, ◌≤◌, All, true, [], length, map, IfErr, OnOk};
ghost use Rattle.std.specs.String.{string_bytes};
ghost use Rattle.limits.specs.Limits.{equation_limit};
ghost use Rattle.line_lexer.specs.Names.{is_name, is_node};
ghost use Rattle.refusals.specs.Faults.{OnBroken};
ghost use Rattle.netlist_devices.specs.Circuits.{IsCircuit, IsDevice};
ghost use Rattle.netlist_devices.specs.ReaderStates.{AddsDevice, AddsDeviceName, IsReady, ReadsLine, TakesRoom, see_node, see_nodes};

use crate::device::Device;
use crate::kind::DeviceKind;
use crate::words::{first_words, read_words};
use limits::EQUATION_LIMIT;
use line_lexer::Tokens;
use line_reader::LineFormat;
use mixed_model::Names;
use refusals::{Fault, Why};
use residue_field::Field;
use std::alloc::Global;
use std::marker::Model;

/// The devices of the lines so far, the number of the line of each, their names, their nodes but the ground in the order
/// in which they first stand, and how many equations and unknowns they have of their own.
#[derive(Drop)]
pub struct Circuit<F: Field> {
    pub devices: Vec<Device<F>>,
    pub lines: Vec<u32>,
    pub names: Names,
    pub nodes: Names,
    pub own_equations: usize,
    pub own_unknowns: usize,
}

impl<F: Field> Model for Circuit<F> {
    ghost use Rattle.netlist_devices.specs.Circuits.{CircuitParts};

    ghost Value = { CircuitParts };

    ghost view = { λ c. record {
      devices = c.devices.items;
      lines = c.lines.items;
      names = c.names;
      nodes = c.nodes;
      own_equations = c.own_equations;
      own_unknowns = c.own_unknowns;
    } };
}

impl<F: Field> LineFormat for Circuit<F> {
    ghost use Rattle.netlist_devices.specs.Circuits.{HasRead};
    ghost use Rattle.netlist_devices.specs.ReaderStates.{IsReady};
    ghost use Rattle.netlist_devices.specs.Rules.{device_rules};

    ghost rules = { device_rules F.modulus };

    ghost has_read = { HasRead F.modulus };

    ghost is_ready = { IsReady F.modulus };

    fn remark_sign() -> Option<u8> {
        Some(b'*')
    }

    fn read_line(&mut self, number: u32, words: Tokens<'_>) -> Result<(), Fault> {
        self.read(number, words)
    }
}

impl<F: Field> Circuit<F> {
    /// A circuit without devices.
    pub fn new(alloc: Global) -> Circuit<F>
        ensures ready { IsReady F.modulus result }
        ensures devices { result.devices ≡ [] }
        ensures lines { result.lines ≡ [] }
    {
        Circuit {
            devices: Vec::new(alloc),
            lines: Vec::new(alloc),
            names: Names::new(alloc),
            nodes: Names::new(alloc),
            own_equations: 0,
            own_unknowns: 0,
        }
    }

    /// Reads the line of this number by its words.
    pub(crate) fn read(&mut self, line: u32, words: Tokens<'_>) -> Result<(), Fault>
        requires { IsCircuit F.modulus self.old }
        ensures circuit { OnOk result (IsCircuit F.modulus self.new) }
        ensures read { ReadsLine F.modulus line self.old self.new (map (λ word. word.1) words.entry) result }
    {
        let alloc = *self.devices.allocator();
        let words = first_words(alloc, words)?;
        match read_words(alloc, &words)? {
            Some(device) => self.add(line, device),
            None => Ok(()),
        }
    }

    // Puts the device of the line of this number last.
    fn add(&mut self, line: u32, device: Device<F>) -> Result<(), Fault>
        requires circuit { IsCircuit F.modulus self.old }
        requires device { IsDevice F.modulus device }
        ensures circuit { OnOk result (IsCircuit F.modulus self.new) }
        ensures added { AddsDevice line self.old self.new device result }
    {
        add_name(&mut self.names, &device.name)?;
        add_nodes(&mut self.nodes, &device.nodes)?;
        self.take_room(device.kind)?;
        self.lines.push(line)?;
        self.devices.push(device)?;
        Ok(())
    }

    // Counts the equations and the unknowns of one more device of this kind, whose nodes are there.
    fn take_room(&mut self, kind: DeviceKind) -> Result<(), Fault>
        requires equations { self.old.own_equations ≤ equation_limit }
        requires unknowns { self.old.own_unknowns ≤ equation_limit }
        ensures taken { TakesRoom kind self.old self.new result }
    {
        self.own_equations += kind.equations_wanted();
        self.own_unknowns += kind.unknowns_wanted();
        let nodes = self.nodes.len();
        if nodes + self.own_equations > EQUATION_LIMIT
            || nodes + self.own_unknowns > EQUATION_LIMIT
        {
            return Err(Fault::Broken(Why::TooMany));
        }
        Ok(())
    }
}

// Puts the name of a device last.
#[tactic(auto, using(term_model::proofs::Labels::name_is_label))]
fn add_name(names: &mut Names, name: &str) -> Result<(), Fault>
    requires { is_name name.now ≡ true }
    ensures { AddsDeviceName names.old names.new name.now result }
{
    names.add(name)?;
    Ok(())
}

// Puts the nodes but the ground last, each unless it is there.
fn add_nodes(seen: &mut Names, nodes: &[String]) -> Result<(), Fault>
    requires { All (λ node. is_node node ≡ true) (map string_bytes nodes.now) }
    ensures added { OnOk result (seen.new ≡ see_nodes seen.old (map string_bytes nodes.now)) }
    ensures full { IfErr result (λ fault. OnBroken fault (λ why.
        (why ≡ Why.TooMany) × (equation_limit < length (see_nodes seen.old (map string_bytes nodes.now))))) }
{
    for node in nodes {
        add_node(seen, node)?;
    }
    Ok(())
}

// Puts a node last, unless it is the ground or there.
#[tactic(auto, using(term_model::proofs::Labels::node_is_label, crate::proofs::NodeSteps::node_fault))]
fn add_node(seen: &mut Names, node: &str) -> Result<(), Fault>
    requires { is_node node.now ≡ true }
    ensures added { OnOk result (seen.new ≡ see_node seen.old node.now) }
    ensures full { IfErr result (λ fault. OnBroken fault (λ why.
        (why ≡ Why.TooMany) × (equation_limit < length (see_node seen.old node.now)))) }
{
    if node == "0" {
        return Ok(());
    }
    seen.find_or_add(node)?;
    Ok(())
}
