//! Laws of certificates: what right ones of one model have in common. No code.
#![tactic(auto)]

pub mod agreement;
