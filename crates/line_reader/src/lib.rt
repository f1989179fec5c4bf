//! What every line format shares: the lines of a text, read as the text comes piece by piece.
#![tactic(auto)]

mod format;
mod laws;
mod reader;
mod remark;

pub use format::LineFormat;
pub use laws::{
    a_text_has_one_first_broken_rule, each_text_keeps_all_rules_or_has_a_first_broken_one,
};
pub use reader::LineReader;
