//! What the text of a certificate is worth: whether it is right for the input that it repeats.
#![tactic(auto)]

mod judging;
pub mod laws;
mod reasons;
mod status;

pub use judging::{Accepted, AnyAccepted, NotAccepted, accept, judge};
