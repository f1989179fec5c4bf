//! What a run of `mixed` says where a call of one of its streams fails, and where an input is cut short: tables of runs.
#![tactic(auto)]

#[cfg(test)]
mod beginnings;
#[cfg(test)]
mod notes;
#[cfg(test)]
mod outputs;
#[cfg(test)]
mod running;
#[cfg(test)]
mod sources;
#[cfg(test)]
mod tasks;
