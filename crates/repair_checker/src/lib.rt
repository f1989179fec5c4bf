//! Repairs of models that show by themselves that none costs less, and the rules by which one is tried.
#![tactic(auto)]

mod checking;
mod costs;
mod repair;

pub use cert_checker::CheckError;
pub use checking::check_repair;
pub use repair::{Level, Repair};
