//! Runs over memory, for the tables of runs: the words of a command line, and streams that fail where they are asked to.
#![tactic(auto)]

mod pieces;
mod streams;
mod words;

pub use pieces::holds;
pub use streams::{Memory, ROOM, Streams};
