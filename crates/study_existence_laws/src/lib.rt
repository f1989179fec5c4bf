//! Laws that there is what is told of a model besides its form: values with which it reaches its rank, what solving it
//! tells, a cheapest repair, and the equations that clash. No code.
#![tactic(auto)]

pub mod conflicts;
pub mod repairs;
pub mod solving;
pub mod values;
