//! Tests of values that reach the rank. They are a crate of their own, so that they do not prove again what they try.
#![tactic(auto)]

#[cfg(test)]
mod listed;
