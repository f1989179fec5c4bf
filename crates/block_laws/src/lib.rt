//! Laws of numbers in blocks: what the blocks of a form tell of a model with a number for each symbol. No code.
#![tactic(auto)]

pub mod laws;
