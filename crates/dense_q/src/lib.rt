//! Dense matrices over a field, with their row operations.
#![tactic(auto)]

mod matrix;
mod rows;

pub use matrix::Mat;
pub use out_of_memory::NoMemory;
