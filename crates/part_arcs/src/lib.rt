//! The arcs between the columns of a printed form: which column leads to which, which are free and which are ends.
#![tactic(auto)]

mod forms;
mod leading;
mod marking;

pub use forms::{FormArcs, arcs_of};
pub use out_of_memory::NoMemory;
