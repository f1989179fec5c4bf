//! The command line, as clap reads it, and what its words ask for.
#![tactic(auto)]

mod command;
mod command_line;
mod examples;

pub use command::{Command, Format, Request, Study, Task, WordsError, over};
pub use examples::words_at_examples;
