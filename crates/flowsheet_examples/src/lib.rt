//! Worked examples of flowsheets, by the definitions that the reader of flowsheets meets.
#![tactic(auto)]

mod examples;

pub use examples::{a_separator_is_read, a_tee_of_version_two_is_read, refusals_at_examples};
