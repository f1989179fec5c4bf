//! Shortest walks over arcs that a caller tells, in memory that is taken once (Murota, chapter 2: the search for an
//! augmenting path in an exchange graph).
#![tactic(auto)]

mod arcs;
mod outside;
mod scan;
mod search;
mod steps;
mod sweep;

pub use arcs::Arcs;
pub use out_of_memory::NoMemory;
pub use search::Search;
pub use steps::Steps;
