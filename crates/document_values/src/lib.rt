//! Values of a TOML document, and the rules that a reader wants kept of them.
#![tactic(auto)]

mod names;
mod refusing;
mod values;

pub use names::{Declared, NameSet};
pub use refusing::{at, at_or_memory};
pub use values::{
    declared_name, declared_names, due, find, has_only, list, list_of_length, list_with, new_name,
    number, numbers, table, text,
};
