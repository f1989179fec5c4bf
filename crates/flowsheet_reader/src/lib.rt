//! Reads flowsheets: streams of components between units, and the equations that the units make.
#![tactic(auto)]

mod document;
mod filling;
mod flowsheet;
mod laws;
mod sheet;
mod unit;
mod unit_keys;

pub use flowsheet::{FlowsheetReader, read};
pub use laws::{
    a_flowsheet_gives_one_model, a_flowsheet_has_one_refusal,
    each_flowsheet_gives_a_model_or_is_refused,
};
