//! The devices of a netlist: one a line, and the rules of a line and of the whole.
#![tactic(auto)]

mod circuit;
mod device;
mod ending;
mod kind;
mod words;

pub use circuit::Circuit;
pub use device::Device;
pub use kind::DeviceKind;
