//! Search along arcs that stand in a list, within the parts in which places stand; where the arcs lead, and why each place
//! stands where it does.
#![tactic(auto)]

mod leading;
mod marking;
mod neighbours;
mod reasons;
mod within;

pub use leading::arcs_are_down;
pub use out_of_memory::NoMemory;
pub use reasons::are_met;
pub use within::{reached_within, reaching_within};
