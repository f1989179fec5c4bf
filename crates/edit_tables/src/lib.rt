//! Tests of models, matchings and tableaus that are edited, against such as are built anew. They are a crate of their own,
//! so that they do not prove again what they try.
#![tactic(auto)]

#[cfg(test)]
mod matchings;
#[cfg(test)]
mod models;
#[cfg(test)]
mod plain;
#[cfg(test)]
mod tableaus;
