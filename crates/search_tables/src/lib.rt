//! Tests of matchings, walks, pairs, blocks and their orders. They are a crate of their own, so that they do
//! not prove again what they try.
#![tactic(auto)]

#[cfg(test)]
mod blocks;
#[cfg(test)]
mod chains;
#[cfg(test)]
mod matchings;
#[cfg(test)]
mod orders;
#[cfg(test)]
mod pairs;
#[cfg(test)]
mod shapes;
#[cfg(test)]
mod walks;
