//! Lines, tokens, names and numbers of the line formats. Nothing here takes memory.
#![tactic(auto)]

mod cuts;
mod line;
mod names;
mod numbers;
mod scan;
mod token;

pub use cuts::{before_comment, tokens};
pub use line::{Line, first_line_feed, without_return};
pub use names::{name, node, short_name};
pub use numbers::{integer, number};
pub use token::{Token, Tokens, is_blank};
