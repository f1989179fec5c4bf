//! Models by the kind of their text: equation lists, netlists and flowsheets.
#![tactic(auto)]

mod by_kind;
mod model_reader;
mod reading;

pub use by_kind::{read_input, read_model};
