//! Laws that there is what the answers of a run speak of: each model has layers, a right canonical form, a report and a
//! plan, each text a verdict, and each size a made model. No code.
#![tactic(auto)]

pub mod forms;
pub mod layers;
pub mod making;
pub mod telling;
pub mod verdicts;
