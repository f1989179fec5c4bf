//! A tableau of sparse matrices. It keeps Q, and puts columns of Q into U, so that a pivot writes one column of U.
#![tactic(auto)]

mod joining;
mod leaving;
mod listing;
mod sparse;
mod transform;

pub use out_of_memory::NoMemory;
pub use row_transform::{Tableau, TableauParts, Which};
pub use sparse::SparseTableau;
