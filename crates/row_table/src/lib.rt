//! One table for the matrices P and S of a tableau, with pivots that are put off.
#![tactic(auto)]

mod joins;
pub mod laws;
mod layout;
mod layout_edits;
mod lists;
mod matrix_steps;
pub mod place_laws;
mod put_off;
mod put_off_edits;
mod table;
mod table_edits;

pub use layout::Placement;
pub use out_of_memory::NoMemory;
pub use put_off::PutOff;
pub use table::RowTable;
