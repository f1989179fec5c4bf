//! What a run of `mixed check` says of certificates that are right, and of such that are altered.
#![tactic(auto)]

#[cfg(test)]
mod examples;
#[cfg(test)]
mod inputs;
#[cfg(test)]
mod running;
#[cfg(test)]
mod tests;
