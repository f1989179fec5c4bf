//! Tests of problems and of their heads. They are a crate of their own, so that they do not prove again what they try.
#![tactic(auto)]

#[cfg(test)]
mod problems;
#[cfg(test)]
mod refusals_of_heads;
