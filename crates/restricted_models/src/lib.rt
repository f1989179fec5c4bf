//! A model with some of its equations alone.
#![tactic(auto)]

pub mod laws;
mod restriction;

pub use restriction::restrict;
