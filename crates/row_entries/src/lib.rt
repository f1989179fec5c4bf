//! Matrices by the entries of their rows.
#![tactic(auto)]

mod entry;
mod matrix;

pub use entry::{Entry, first_from, place_from, value_at};
pub use matrix::EntryMat;
pub use out_of_memory::NoMemory;
