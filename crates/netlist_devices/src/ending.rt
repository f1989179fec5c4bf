//! The rules of a whole netlist: that of the ground, and that of sources.

ghost use Rattle.std.specs.Prelude.{◌≡◌, ◌||◌, length, nat_eq};
ghost use Rattle.std.specs.List.{list_any};
ghost use Rattle.std.specs.String.{string_bytes};
ghost use Rattle.netlist_devices.specs.Circuits.{IsCircuit};
ghost use Rattle.netlist_devices.specs.ReaderStates.{IsReady, TestsCircuit, first_unsourced, keeps_source};
ghost use Rattle.netlist_devices.specs.Rules.{is_source, names_ground};
ghost use Rattle.netlist_devices.specs.Devices.{is_ground};

use crate::circuit::Circuit;
use crate::device::Device;
use refusals::{Place, Refused, Why};
use residue_field::Field;

impl<F: Field> Circuit<F> {
    /// Whether the whole circuit keeps the rules of the ground and of sources, or the first that it breaks.
    pub fn test(&self) -> Result<(), Refused>
        requires { IsReady F.modulus self.now }
        ensures { TestsCircuit self.now result }
    {
        if !self.is_grounded() {
            return Err(Refused {
                place: Place::Document,
                why: Why::NoGround,
            });
        }
        match self.first_unsourced() {
            Some(place) => Err(Refused {
                place: Place::Line(self.lines[place]),
                why: Why::NoSuchSource,
            }),
            None => Ok(()),
        }
    }

    // Whether some device names the ground, or there is none.
    fn is_grounded(&self) -> bool
        ensures { result ≡ (nat_eq (length self.now.devices) 0 || list_any names_ground self.now.devices) }
    {
        self.devices.is_empty() || some_names_ground(&self.devices)
    }

    // The place of the first device whose source is no V device.
    fn first_unsourced(&self) -> Option<usize>
        requires { IsCircuit F.modulus self.now }
        ensures { result ≡ first_unsourced self.now.devices }
    {
        self.devices
            .iter()
            .position(|device| !self.keeps_source(device))
    }

    // Whether a device's source is a V device, where its kind has one.
    fn keeps_source(&self, device: &Device<F>) -> bool
        requires { IsCircuit F.modulus self.now }
        ensures { result ≡ keeps_source self.now.devices device.now }
    {
        !device.kind.has_source() || self.is_source(&device.source)
    }

    // Whether a V device has this name.
    fn is_source(&self, name: &str) -> bool
        requires { IsCircuit F.modulus self.now }
        ensures { result ≡ is_source self.now.devices name.now }
    {
        match self.names.find(name) {
            Some(place) => self.devices[place].kind.is_voltage(),
            None => false,
        }
    }
}

// Whether a device names the ground: an opamp's current enters it.
#[tactic(auto, using(mixed_model::proofs::NameLaws::list_any_map))]
fn names_ground<F: Field>(device: &Device<F>) -> bool
    ensures { result ≡ names_ground device.now }
{
    device.kind.is_opamp() || has_ground(&device.nodes)
}

// Whether some of these devices names the ground.
fn some_names_ground<F: Field>(devices: &[Device<F>]) -> bool
    ensures { result ≡ list_any names_ground devices.now }
{
    devices.iter().any(|device| names_ground(device))
}

// Whether the ground is among these nodes.
fn has_ground(nodes: &[String]) -> bool
    ensures { result ≡ list_any (λ node. is_ground (string_bytes node)) nodes.now }
{
    nodes.iter().any(|node| node.as_str() == "0")
}
