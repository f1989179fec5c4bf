//! Tables of bits in rows of words: sets of numbers, one for each row.
#![tactic(auto)]

mod table;

pub use out_of_memory::NoMemory;
pub use table::BitTable;
