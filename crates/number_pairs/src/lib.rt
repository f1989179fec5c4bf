//! Pairs of numbers: a partial map from numbers below one bound to numbers below another, one-to-one both ways.
#![tactic(auto)]

mod moves;
mod pairs;

pub use out_of_memory::NoMemory;
pub use pairs::NumberPairs;
