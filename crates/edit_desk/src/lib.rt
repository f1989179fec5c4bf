//! Models that are edited equation by equation, and asked for their rank and their canonical parts.
#![tactic(auto)]

mod desk;
mod edits;
mod held;
mod reply;

pub use desk::{DESK_LIMIT, Desk};
pub use held::Held;
pub use out_of_memory::NoMemory;
pub use reply::Reply;
