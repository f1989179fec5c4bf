//! Tests of equations that are kept, and of conflict sets. They are a crate of their own, so that they do not prove again
//! what they try.
#![tactic(auto)]

#[cfg(test)]
mod conflicts;
#[cfg(test)]
mod kept;
#[cfg(test)]
mod models;
