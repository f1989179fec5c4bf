//! What is told of a model by a canonical form that is right for it.
#![tactic(auto)]

mod equations;
mod marking;
mod planning;
mod reporting;
mod step_rows;
mod steps;
mod told;

pub use out_of_memory::NoMemory;
pub use planning::plan;
pub use reporting::report;
pub use steps::{Plan, Step, StepPart, StepRow};
pub use told::Report;
