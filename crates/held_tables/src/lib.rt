//! Tests of a model that is held with its engine while it is edited. They are a crate of their own, so that they do not prove
//! again what they try.
#![tactic(auto)]

#[cfg(test)]
mod counted;
#[cfg(test)]
mod kept_pair;
#[cfg(test)]
mod parts;
