//! The terms of a device.

ghost use Rattle.std.specs.Prelude.{◌≡◌, ◌<◌, ◌≤◌, ◌∷◌, ◌++◌, [], All, length, OnOk, IfOk};
ghost use Rattle.std.specs.Str.{bytes_eq};
ghost use Rattle.limits.specs.Limits.{equation_limit};
ghost use Rattle.mixed_model.specs.Names.{name_at};
ghost use Rattle.term_model.specs.Putting.{term_of_value};
ghost use Rattle.netlist_devices.specs.Circuits.{IsDevice};
ghost use Rattle.netlist_devices.specs.Devices.{nodes_wanted};
ghost use Rattle.netlist_reader.specs.Numbers.{HasDevicePlaces, IsNode, Numbered, NumbersNodes, name_terms, node_named, put_at};
ghost use Rattle.netlist_reader.specs.Putting.{put_between, put_by, put_constant, put_difference, put_flow, put_laws, put_symbols, put_voltage};
ghost use Rattle.netlist_reader.specs.Terms.{node_current, node_voltage};

use crate::places::Places;
use crate::term::Term;
use netlist_devices::{Device, DeviceKind};
use out_of_memory::NoMemory;
use residue_field::Field;
use std::alloc::Global;
use std::marker::Model;
use term_model::Value;

// A node by its number, which the ground has not.
type Node = Option<usize>;

const GROUND: Node = None;

/// The terms of a device, as they are put down.
#[derive(Drop)]
pub(crate) struct Terms<F: Field> {
    items: Vec<Term<F>>,
}

impl<F: Field> Model for Terms<F> {
    ghost use Rattle.std.specs.Prelude.{List};
    ghost use Rattle.netlist_reader.specs.Numbers.{NumberedTerm};

    ghost Value = { List NumberedTerm };

    ghost view = { λ t. t.items.items };
}

impl<F: Field> Terms<F> {
    /// The terms of a device that leave an entry.
    pub(crate) fn of(
        alloc: Global,
        device: &Device<F>,
        places: &Places,
    ) -> Result<Vec<Term<F>>, NoMemory>
        ghost names: { Numbered }
        requires nodes { NumbersNodes names }
        requires device { IsDevice F.modulus device.now }
        requires places { HasDevicePlaces names device.now places.now }
        ensures { IfOk result (λ terms. name_terms names terms.items ≡ put_by F.modulus device.now.kind device.now) }
    {
        let mut terms = Terms {
            items: Vec::new(alloc),
        };
        terms.device(device.kind, places, device.number)?;
        Ok(terms.items)
    }

    // The terms of a device of a kind, with a number. Its own equations are in order kvl, ctl where it has control nodes,
    // and law, or kvla, kvlb, lawa and lawb; its own unknowns are v, i and w, or va, ia, vb and ib. An opamp has law and i.
    fn device(&mut self, kind: DeviceKind, places: &Places, number: F) -> Result<(), NoMemory>
        ghost names: { Numbered }
        requires numbers { NumbersNodes names }
        requires equations { places.now.equations ≤ equation_limit }
        requires unknowns { places.now.unknowns ≤ equation_limit }
        requires nodes { length places.now.nodes ≡ nodes_wanted kind }
        requires within { All (IsNode names.nodes) places.now.nodes }
        requires number { F.number number < F.modulus }
        ensures { OnOk result (name_terms names self.new
            ≡ name_terms names self.old ++ put_at F.modulus kind names places.now (F.number number)) }
    {
        let (equation, unknown, source) = (places.equations, places.unknowns, places.source);
        let nodes = &places.nodes;
        match kind {
            DeviceKind::Passive => {
                self.between(equation, unknown, unknown + 1, nodes[0], nodes[1])?;
                self.symbols(equation + 1, unknown, unknown + 1)
            }
            DeviceKind::Voltage => {
                self.between(equation, unknown, unknown + 1, nodes[0], nodes[1])?;
                self.put(equation + 1, unknown, Value::Constant(F::one()))
            }
            DeviceKind::Current => {
                self.between(equation, unknown, unknown + 1, nodes[0], nodes[1])?;
                self.put(equation + 1, unknown + 1, Value::Constant(F::one()))
            }
            DeviceKind::VoltageByVoltage => {
                self.between(equation, unknown, unknown + 1, nodes[0], nodes[1])?;
                self.voltage(equation + 1, unknown + 2, nodes[2], nodes[3])?;
                self.symbols(equation + 2, unknown, unknown + 2)
            }
            DeviceKind::CurrentByVoltage => {
                self.between(equation, unknown, unknown + 1, nodes[0], nodes[1])?;
                self.voltage(equation + 1, unknown + 2, nodes[2], nodes[3])?;
                self.symbols(equation + 2, unknown + 1, unknown + 2)
            }
            DeviceKind::CurrentByCurrent => {
                self.between(equation, unknown, unknown + 1, nodes[0], nodes[1])?;
                self.symbols(equation + 1, unknown + 1, source)
            }
            DeviceKind::VoltageByCurrent => {
                self.between(equation, unknown, unknown + 1, nodes[0], nodes[1])?;
                self.symbols(equation + 1, unknown, source)
            }
            DeviceKind::Opamp => {
                self.flow(unknown, nodes[2], GROUND)?;
                self.difference(equation, nodes[0], nodes[1])
            }
            DeviceKind::Transformer => {
                self.between(equation, unknown, unknown + 1, nodes[0], nodes[1])?;
                self.between(equation + 1, unknown + 2, unknown + 3, nodes[2], nodes[3])?;
                self.laws(
                    (equation + 2, equation + 3),
                    (unknown, unknown + 2),
                    (unknown + 1, unknown + 3),
                    number,
                )
            }
            DeviceKind::Gyrator => {
                self.between(equation, unknown, unknown + 1, nodes[0], nodes[1])?;
                self.between(equation + 1, unknown + 2, unknown + 3, nodes[2], nodes[3])?;
                self.laws(
                    (equation + 2, equation + 3),
                    (unknown, unknown + 3),
                    (unknown + 1, unknown + 2),
                    number,
                )
            }
        }
    }

    // Between two nodes: a voltage and its equation, and a current.
    fn between(
        &mut self,
        equation: usize,
        voltage: usize,
        current: usize,
        plus: Node,
        minus: Node,
    ) -> Result<(), NoMemory>
        ghost names: { Numbered }
        requires numbers { NumbersNodes names }
        requires plus { IsNode names.nodes plus }
        requires minus { IsNode names.nodes minus }
        ensures { OnOk result (name_terms names self.new ≡ name_terms names self.old
            ++ put_between F.modulus (name_at names.equations equation) (name_at names.unknowns voltage)
            (name_at names.unknowns current) (node_named names.nodes plus) (node_named names.nodes minus)) }
    {
        self.voltage(equation, voltage, plus, minus)?;
        self.flow(current, plus, minus)
    }

    // An equation says that a voltage is that between two nodes.
    fn voltage(
        &mut self,
        equation: usize,
        voltage: usize,
        plus: Node,
        minus: Node,
    ) -> Result<(), NoMemory>
        ghost names: { Numbered }
        requires numbers { NumbersNodes names }
        requires plus { IsNode names.nodes plus }
        requires minus { IsNode names.nodes minus }
        ensures { OnOk result (name_terms names self.new ≡ name_terms names self.old
            ++ put_voltage F.modulus (name_at names.equations equation) (name_at names.unknowns voltage)
            (node_named names.nodes plus) (node_named names.nodes minus)) }
    {
        self.put(equation, voltage, Value::Constant(F::one()))?;
        self.difference(equation, minus, plus)
    }

    // u(plus) - u(minus), of which nothing is left at one node.
    fn difference(&mut self, equation: usize, plus: Node, minus: Node) -> Result<(), NoMemory>
        ghost names: { Numbered }
        requires numbers { NumbersNodes names }
        requires plus { IsNode names.nodes plus }
        requires minus { IsNode names.nodes minus }
        ensures { OnOk result (name_terms names self.new ≡ name_terms names self.old
            ++ put_difference F.modulus (name_at names.equations equation) (node_named names.nodes plus)
            (node_named names.nodes minus)) }
    {
        if are_one(plus, minus) {
            return Ok(());
        }
        self.node_voltage(equation, F::one(), plus)?;
        self.node_voltage(equation, F::one().neg(), minus)
    }

    // A current leaves plus and enters minus.
    fn flow(&mut self, current: usize, plus: Node, minus: Node) -> Result<(), NoMemory>
        ghost names: { Numbered }
        requires numbers { NumbersNodes names }
        requires plus { IsNode names.nodes plus }
        requires minus { IsNode names.nodes minus }
        ensures { OnOk result (name_terms names self.new ≡ name_terms names self.old
            ++ put_flow F.modulus (name_at names.unknowns current) (node_named names.nodes plus)
            (node_named names.nodes minus)) }
    {
        if are_one(plus, minus) {
            return Ok(());
        }
        self.node_current(current, F::one(), plus)?;
        self.node_current(current, F::one().neg(), minus)
    }

    // Some times the voltage of a node: nothing at the ground.
    fn node_voltage(&mut self, equation: usize, times: F, node: Node) -> Result<(), NoMemory>
        ghost names: { Numbered }
        requires numbers { NumbersNodes names }
        requires node { IsNode names.nodes node }
        ensures { OnOk result (name_terms names self.new ≡ name_terms names self.old
            ++ node_voltage (name_at names.equations equation) (F.number times) (node_named names.nodes node)) }
    {
        match node {
            Some(voltage) => self.put(equation, voltage, Value::Constant(times)),
            None => Ok(()),
        }
    }

    // Some times a current, in the equation of a node: the ground has none.
    fn node_current(&mut self, current: usize, times: F, node: Node) -> Result<(), NoMemory>
        ghost names: { Numbered }
        requires numbers { NumbersNodes names }
        requires node { IsNode names.nodes node }
        ensures { OnOk result (name_terms names self.new ≡ name_terms names self.old
            ++ node_current (name_at names.unknowns current) (F.number times) (node_named names.nodes node)) }
    {
        match node {
            Some(equation) => self.put(equation, current, Value::Constant(times)),
            None => Ok(()),
        }
    }

    // Symbols in a law at two unknowns.
    fn symbols(&mut self, law: usize, first: usize, second: usize) -> Result<(), NoMemory>
        ghost names: { Numbered }
        ensures { OnOk result (name_terms names self.new ≡ name_terms names self.old
            ++ put_symbols (name_at names.equations law) (name_at names.unknowns first)
            (name_at names.unknowns second)) }
    {
        self.put(law, first, Value::Symbol)?;
        self.put(law, second, Value::Symbol)
    }

    // Two laws, each at two unknowns: 1 and minus a number, the number and 1.
    fn laws(
        &mut self,
        laws: (usize, usize),
        first: (usize, usize),
        second: (usize, usize),
        number: F,
    ) -> Result<(), NoMemory>
        ghost names: { Numbered }
        requires { F.number number < F.modulus }
        ensures { OnOk result (name_terms names self.new ≡ name_terms names self.old
            ++ put_laws F.modulus (name_at names.equations laws.0) (name_at names.equations laws.1)
            (name_at names.unknowns first.0) (name_at names.unknowns first.1)
            (name_at names.unknowns second.0) (name_at names.unknowns second.1) (F.number number)) }
    {
        self.constant(laws.0, first.0, F::one())?;
        self.constant(laws.0, first.1, number.neg())?;
        self.constant(laws.1, second.0, number)?;
        self.constant(laws.1, second.1, F::one())
    }

    // A constant in an equation at an unknown, unless it is 0.
    fn constant(&mut self, equation: usize, unknown: usize, constant: F) -> Result<(), NoMemory>
        ghost names: { Numbered }
        ensures { OnOk result (name_terms names self.new ≡ name_terms names self.old
            ++ put_constant (name_at names.equations equation) (name_at names.unknowns unknown)
            (F.number constant)) }
    {
        if constant.is_zero() {
            return Ok(());
        }
        self.put(equation, unknown, Value::Constant(constant))
    }

    // Puts a term last.
    #[tactic(auto, unfolding(crate::specs::Numbers::name_terms))]
    fn put(&mut self, equation: usize, unknown: usize, value: Value<F>) -> Result<(), NoMemory>
        ghost names: { Numbered }
        ensures { OnOk result (name_terms names self.new ≡ name_terms names self.old
            ++ term_of_value F.number (name_at names.equations equation) (name_at names.unknowns unknown) value ∷ []) }
    {
        self.items.push(Term {
            equation,
            unknown,
            value,
        })?;
        Ok(())
    }
}

// Whether two nodes are one.
fn are_one(plus: Node, minus: Node) -> bool
    ghost names: { Numbered }
    requires numbers { NumbersNodes names }
    requires plus { IsNode names.nodes plus }
    requires minus { IsNode names.nodes minus }
    ensures { result ≡ bytes_eq (node_named names.nodes plus) (node_named names.nodes minus) }
{
    match (plus, minus) {
        (Some(plus), Some(minus)) => plus == minus,
        (None, None) => true,
        _ => false,
    }
}
