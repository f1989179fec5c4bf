//! Rows of a matrix over a field, each reduced by those before it.
#![tactic(auto)]

mod echelon;
mod pivot_row;
mod row;

pub use echelon::Echelon;
pub use out_of_memory::NoMemory;
pub use row::{add_entries, clear, zeros};
