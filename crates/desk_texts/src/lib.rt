//! What the replies of a desk print, and what it prints of a text of commands.
#![tactic(auto)]

mod gathering;
mod reply_lines;
mod said;
#[cfg(test)]
mod tests;

pub use reply_lines::put_parts;
pub use said::say;
