//! Patterns of symbol places: rows as short lists of columns, and where they are edited the rows of each column beside them.
#![tactic(auto)]

mod columns;
mod indexed;
mod lists;
mod moves;
mod pattern;
mod roomy;
mod shelf;

pub use out_of_memory::NoMemory;
pub use pattern::Pattern;
pub use roomy::RoomyPattern;
