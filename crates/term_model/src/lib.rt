//! Models said by terms: what each equation has at an unknown, by their names.
#![tactic(auto)]

mod names;
mod putting;
mod value;

pub use names::dotted;
pub use putting::{put_value, put_value_at};
pub use value::Value;
