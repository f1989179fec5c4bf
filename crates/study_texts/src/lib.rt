//! Texts that tell of a model with values for its symbols, and of equations that clash, put into a writer.
#![tactic(auto)]

mod conflict_lines;
mod solution_lines;
mod value_lines;

pub use conflict_lines::put_conflicts;
pub use solution_lines::put_solving;
pub use value_lines::put_values;
