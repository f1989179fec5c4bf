//! The models that are made by a generator, one of each size.
#![tactic(auto)]

mod draws;
mod laws;
mod made;
mod names;
mod tries;

pub use laws::{draws_at_examples, entries_at_examples, there_is_one_made_model};
pub use made::{SIZE_LIMIT, made_model};
pub use out_of_memory::NoMemory;
