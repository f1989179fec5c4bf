//! The symbols of a model, one after another.
#![tactic(auto)]

mod laws;
mod places;

pub use laws::each_symbol_has_its_place;
pub use places::{SymbolPlace, symbol_places};
