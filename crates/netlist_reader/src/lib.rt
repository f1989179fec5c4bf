//! Reads netlists: the model of the equations of the circuit that its devices make.
#![tactic(auto)]

mod building;
mod examples;
mod laws;
mod netlist;
mod places;
mod putting;
mod side;
mod term;
mod terms;

pub use examples::{
    devices_at_examples, model_at_controlled_source, places_at_examples, refusals_at_examples,
    rules_at_examples, terms_at_controlled_source, terms_at_examples,
};
pub use laws::{
    a_netlist_gives_one_model, a_netlist_has_one_refusal, each_netlist_gives_a_model_or_is_refused,
};
pub use netlist::{NetlistReader, read};
pub use netlist_devices::DeviceKind;
