//! Tests of residues, tables, matrices, models and their layers. They are a crate of their own, so that they do
//! not prove again what they try.
#![tactic(auto)]

#[cfg(test)]
mod bits;
#[cfg(test)]
mod layers;
#[cfg(test)]
mod made;
#[cfg(test)]
mod matrices;
#[cfg(test)]
mod models;
#[cfg(test)]
mod patterns;
#[cfg(test)]
mod residues;
