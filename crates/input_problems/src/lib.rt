//! Problems by their text: a head, and behind it a model of some kind.
#![tactic(auto)]

mod behind;
mod laws;
mod reading;

pub use laws::{
    a_text_gives_one_problem, a_text_with_a_problem_is_not_refused,
    each_text_gives_a_problem_or_is_refused,
};
pub use reading::read_problem;
