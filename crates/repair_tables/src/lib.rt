//! Repairs that are checked, and cheapest ones: tables of tests.
#![tactic(auto)]

#[cfg(test)]
mod cheapest;
#[cfg(test)]
mod checked;
#[cfg(test)]
mod made;
