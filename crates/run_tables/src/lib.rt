//! Tables of runs: the worked examples, against the top call. They are a crate of their own, so that a row more does not
//! prove the program again.
#![tactic(auto)]

#[cfg(test)]
mod edits;
#[cfg(test)]
mod fields;
#[cfg(test)]
mod makes;
#[cfg(test)]
mod plans;
#[cfg(test)]
mod reports;
#[cfg(test)]
mod studies;
#[cfg(test)]
mod tests;
