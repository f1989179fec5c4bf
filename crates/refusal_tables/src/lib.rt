//! The rows of docs/refusals.md, each as a run, so that the page tells what the program says.
#![tactic(auto)]

#[cfg(test)]
mod rows;
#[cfg(test)]
mod tests;
