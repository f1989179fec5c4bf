//! Laws of a tableau of a matrix that gains or loses a row or a column. No code.
#![tactic(auto)]

pub mod laws;
