//! Laws of block triangular forms: parts that keep the rules of a reader are a form, canonical and finest
//! (Murota, Matrices and Matroids for Systems Analysis, chapters 2 and 4). No code.
#![tactic(auto)]

pub mod canonical_laws;
pub mod examples;
pub mod finest_laws;
pub mod form_laws;
