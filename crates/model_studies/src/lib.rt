//! The studies of a model: values that reach its rank, how it is solved with values, which of its equations clash.
#![tactic(auto)]

mod conflicts;
mod solving;
mod values;

pub use conflicts::conflicts_of;
pub use out_of_memory::NoMemory;
pub use solving::solve_with_values;
pub use values::first_values;
