//! The commands of a desk: lines that say an edit of one of several models, and the model after it.
#![tactic(auto)]

mod changes;
mod edited;
mod items;
mod order;
mod setting;

pub use edited::{Edited, make_edit};
pub use order::{Edit, Order, Task, read_order};
pub use setting::set_item;
