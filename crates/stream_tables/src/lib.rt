//! Tests of streams, of what is written to them and of refusals' lines. They are a crate of their own, so that they do
//! not prove again what they try.
#![tactic(auto)]

#[cfg(test)]
mod ports;
#[cfg(test)]
mod refusal_lines;
#[cfg(test)]
mod texts;
