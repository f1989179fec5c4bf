//! Cheapest repairs of models: which equations are left out so that the others are independent, at the least cost, with
//! forms that show it (Murota, Matrices and Matroids for Systems Analysis, chapters 2 and 4).
#![tactic(auto)]

mod costs;
mod forms;
pub mod laws;
mod levels;
mod repairing;

pub use out_of_memory::NoMemory;
pub use repair_checker::{Level, Repair};
pub use repairing::cheapest_repair;
