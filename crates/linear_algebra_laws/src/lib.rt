//! The laws of linear algebra modulo a prime.
#![tactic(auto)]

pub mod base_laws;
pub mod block_laws;
pub mod entry_laws;
pub mod examples;
pub mod rank_laws;
pub mod removal_laws;
pub mod row_operation_laws;
