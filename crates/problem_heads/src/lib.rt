//! Heads of problems: the lines before a model that say values and right sides, or costs.
#![tactic(auto)]

mod attaching;
mod costs;
mod counting;
mod cuts;
mod end_word;
mod examples;
mod form;
mod given;
mod head;
mod laws;
mod lines;
mod places;
mod problem;
mod repair_lines;
mod solve_lines;
mod values;
mod words;

pub use attaching::attach;
pub use counting::counted_on;
pub use examples::{head_rules_at_examples, heads_at_examples};
pub use form::Form;
pub use head::{Head, read_head};
pub use laws::{
    a_head_says_one_problem, a_text_is_its_head_and_the_models_part,
    each_head_says_a_problem_or_does_not_fit, each_text_has_a_head_or_one_refusal,
    names_without_blanks_are_told_by_their_text,
};
pub use problem::Problem;
