//! Texts that are put piece by piece, on their way to a sink.
#![tactic(auto)]

mod digits;
mod held;
mod progress;
mod writer;

pub use writer::TextWriter;
