//! Tableaus: row operations on a matrix Q that make some of its columns a base of unit columns, with the
//! matrix S of all operations and its inverse U.
#![tactic(auto)]

mod base;
mod dense;
mod entries;
mod tableau;

pub use base::Base;
pub use dense::DenseTableau;
pub use entries::{Entries, Size};
pub use out_of_memory::NoMemory;
pub use tableau::{Tableau, TableauParts, Which};
