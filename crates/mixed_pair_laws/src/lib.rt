//! Laws of pairs in layered mixed matrices: the bound by the set function, minimisers, and the structural rank
//! (Murota, Matrices and Matroids for Systems Analysis, chapters 2 and 4). No code.
#![tactic(auto)]

pub mod examples;
pub mod minimiser_laws;
pub mod pair_laws;
pub mod part_laws;
pub mod structural_rank_laws;
