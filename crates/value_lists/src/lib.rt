//! Values of ones and twos for the symbols of a model, with which its matrix reaches the structural rank.
#![tactic(auto)]

mod fixing;
mod listing;
mod ranks;
mod symbols;
mod values;

pub use out_of_memory::NoMemory;
pub use values::{nonzero_values, rank_and_values};
