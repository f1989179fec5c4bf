//! Laws of layering: the layered matrix of a mixed matrix has its structural rank, and one more for each split equation
//! (Murota, Matrices and Matroids for Systems Analysis, chapter 4). No code.
#![tactic(auto)]

pub mod examples;
pub mod layering_laws;
pub mod value_laws;
