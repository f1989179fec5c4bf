//! Sparse matrices over a field: of each row only the entries that are not zero are kept, by rising column.
#![tactic(auto)]

mod made;
mod matrix;
mod matrix_edits;
mod moves;
mod row;
mod row_edits;
mod shelf;

pub use matrix::SparseMat;
pub use out_of_memory::NoMemory;
