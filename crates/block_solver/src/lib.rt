//! Models with a number for each symbol, solved block by block.
#![tactic(auto)]

mod answer;
mod blocks;
pub mod laws;
mod numbers;
mod rows;
mod sides;
mod solving;
mod tables;

pub use answer::Answer;
pub use out_of_memory::NoMemory;
pub use solving::solve;
