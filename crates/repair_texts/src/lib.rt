//! The text of a repair, put into a writer.
#![tactic(auto)]

mod repair_lines;

pub use repair_lines::put_repair;
