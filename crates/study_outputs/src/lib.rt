//! What a study of a model reads and writes: values that reach the rank, how a problem is solved, a cheapest repair, which
//! equations clash.
#![tactic(auto)]

mod held;
mod studied;
mod writing;

pub use held::StudyOutput;
pub use studied::Studied;
