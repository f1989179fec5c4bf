//! Laws of models that are edited on one desk. No code.
#![tactic(auto)]

pub mod laws;
