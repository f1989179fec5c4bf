//! Laws that a desk answers each text: each edit that is not refused has a model, of each model something is told, and each
//! line has a reply. No code.
#![tactic(auto)]

pub mod laws;
