//! Texts that tell of a model, put into a writer: its layered matrix, the report on it, a plan to solve it, and the sizes of
//! a made one and of its form.
#![tactic(auto)]

mod layer_lines;
mod made_lines;
mod plan_lines;
mod report_lines;

pub use layer_lines::{put_column_name, put_equation_name, put_layers, put_unknown_name};
pub use made_lines::put_made;
pub use plan_lines::put_plan;
pub use report_lines::put_report;
