//! What is told of a model besides its form: values that reach its rank, how it is solved with values, which of its
//! equations clash.
#![tactic(auto)]

mod conflicts;
mod laws;
mod solving;
mod values;

pub use conflicts::Conflict;
pub use laws::solvings_end_alike;
pub use solving::Solving;
pub use values::{ValueAt, Values};
