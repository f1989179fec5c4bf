//! Devices.

use crate::kind::DeviceKind;
use residue_field::Field;
use std::marker::Model;

/// A device of a circuit: its nodes in the order in which they stand, the name of its source and the value of its number,
/// where its kind has one (else no bytes, and 0). Contracts see the bytes of the texts, and the number of the value.
#[derive(Drop)]
pub struct Device<F: Field> {
    pub kind: DeviceKind,
    pub name: String,
    pub nodes: Vec<String>,
    pub source: String,
    pub number: F,
}

impl<F: Field> Model for Device<F> {
    ghost use Rattle.std.specs.Prelude.{map};
    ghost use Rattle.std.specs.String.{string_bytes};
    ghost use Rattle.netlist_devices.specs.Devices.{Device};

    ghost Value = { Device };

    ghost view = { λ d. record {
      kind = d.kind;
      name = string_bytes d.name;
      nodes = map string_bytes d.nodes.items;
      source = string_bytes d.source;
      number = F.number d.number;
    } };
}
