//! The layered matrix of a model.
#![tactic(auto)]

mod columns;
mod constants;
mod layering;
mod members;
mod symbols;

pub use layering::layer;
pub use out_of_memory::NoMemory;
