//! Tests of tableaus, dense and sparse, and of what they are kept in. They are a crate of their own, so that they do not
//! prove again what they try.
#![tactic(auto)]

#[cfg(test)]
mod matrices;
#[cfg(test)]
mod put_off;
#[cfg(test)]
mod sparse_matrices;
#[cfg(test)]
mod tableaus;
