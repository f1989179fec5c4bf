//! The combinatorial canonical form of a layered matrix.
#![tactic(auto)]

mod building;
mod canonical;
mod choice;
mod decomposition;
mod matrices;
mod pairs;
mod part_lists;
mod placing;
mod printed_parts;
mod solution;

pub use building::build;
pub use canonical::{Block, Parts};
pub use decomposition::parts;
pub use out_of_memory::NoMemory;
