//! Tests of the readers of lines, of inputs and of certificates. They are a crate of their own, so that they do
//! not prove again what they try.
#![tactic(auto)]

#[cfg(test)]
mod certificates;
#[cfg(test)]
mod equations;
#[cfg(test)]
mod flowsheets;
#[cfg(test)]
mod items;
#[cfg(test)]
mod lines;
#[cfg(test)]
mod netlists;
#[cfg(test)]
mod terms;
#[cfg(test)]
mod words;
