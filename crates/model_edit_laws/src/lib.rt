//! Laws of models of which one equation is edited. No code.
#![tactic(auto)]

pub mod laws;
