//! The tables by which lists of blocks are tested: chains of the lists, arcs between blocks, and first places.
#![tactic(auto)]

mod chains;
mod covers;
mod heads;

pub use chains::chains_of;
pub use covers::are_covers;
pub use heads::{first_places, is_least_first};
pub use out_of_memory::NoMemory;
