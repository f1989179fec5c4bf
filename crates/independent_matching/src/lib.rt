//! A best pair of a layered mixed matrix, and its least minimiser, by shortest walks from free columns to ends
//! (Murota, Matrices and Matroids for Systems Analysis, chapter 2, independent matching; chapter 4).
#![tactic(auto)]

mod change;
mod edits;
mod engine;
mod fresh;
mod marks;
mod mover;
mod pair;
mod places;
mod resting;
mod row;

pub use change::Change;
pub use engine::Engine;
pub use exchange_graph::{Arcs, Steps};
pub use out_of_memory::NoMemory;
