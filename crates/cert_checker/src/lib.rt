//! The rules by which a printed canonical form is tried.
#![tactic(auto)]

mod checking;
pub mod laws;
mod matching;
mod matrices;
mod placing;
mod products;
mod rules;
mod standing;
mod symbols;
mod units;
mod value_rows;
mod wide_rows;

pub use checking::{CheckError, check};
pub use out_of_memory::NoMemory;
