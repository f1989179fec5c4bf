//! Laws of the report on a model: which of its equations may go and which of its unknowns nothing determines, read from
//! a layered matrix, its minimisers and its canonical parts (Murota, Matrices and Matroids for Systems Analysis,
//! chapter 4). No code.
#![tactic(auto)]

pub mod examples;
pub mod minimiser_tests;
pub mod part_tests;
pub mod removal_laws;
