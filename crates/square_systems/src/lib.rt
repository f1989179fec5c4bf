//! Square systems of linear equations over a field, solved by elimination.
#![tactic(auto)]

mod solving;

pub use out_of_memory::NoMemory;
pub use solving::solve_square;
