//! The top call: a run of the program over any source and sinks.
#![tactic(auto)]

mod output;
mod running;
mod telling;

pub use run_ends::Status;
pub use running::run;
