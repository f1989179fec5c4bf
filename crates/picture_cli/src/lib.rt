//! The top call of the program that draws a certificate: a run over any source and sinks.
#![tactic(auto)]

mod drawing;
mod running;

pub use run_ends::Status;
pub use running::run;
