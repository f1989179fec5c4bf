//! Reads equation lists: one equation a line, with its constants and symbols, and lines that name unknowns.
#![tactic(auto)]

mod equation_list;
mod examples;
mod items;
mod laws;
mod place;
mod reader;

pub use equation_list::{MatrixReader, read};
pub use examples::{lists_at_examples, rules_at_examples};
pub use items::item;
pub use laws::{
    a_text_gives_one_model, a_text_has_one_first_broken_rule, each_text_gives_a_model_or_is_refused,
};
pub use place::Item;
