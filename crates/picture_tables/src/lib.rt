//! The pictures that are drawn of certificates, and the status and note of each run that draws none.
#![tactic(auto)]

#[cfg(test)]
mod inputs;
#[cfg(test)]
mod pictures;
#[cfg(test)]
mod running;
#[cfg(test)]
mod tests;
