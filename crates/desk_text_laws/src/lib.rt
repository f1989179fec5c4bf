//! Laws of what a desk prints. No code.
#![tactic(auto)]

pub mod laws;
