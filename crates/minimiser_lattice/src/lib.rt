//! The blocks of arcs, their order and their listing, in memory that is taken once (Murota, chapter 2: decompositions
//! by minimisers).
#![tactic(auto)]

mod components;
mod covers;
mod lattice;
mod listing;
mod ready;
mod standing;
mod tails;

pub use lattice::{Lattice, Part};
