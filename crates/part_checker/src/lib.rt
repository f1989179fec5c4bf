//! The rules of the parts of a printed form: where arcs lead, why each column stands where it does, and the lists of the
//! blocks.
#![tactic(auto)]

mod items;
mod rules;
mod telling;

pub use out_of_memory::NoMemory;
pub use rules::{has_lower_lists, has_reasons, leads_down};
pub use telling::{PartsTold, told_of};
