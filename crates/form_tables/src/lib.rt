//! Tests of what makes a form and of what checks it. They are a crate of their own, so that they do
//! not prove again what they try.
#![tactic(auto)]

#[cfg(test)]
mod built;
#[cfg(test)]
mod checked;
