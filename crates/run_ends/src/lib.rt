//! How a run ends, whatever it answers: its status, what is noted of it, and what it makes of its streams.
#![tactic(auto)]

mod ending;
mod reading;
mod status;
mod telling;

pub use ending::finish;
pub use reading::read_text;
pub use status::Status;
pub use telling::tell;
