//! What a desk answers.

use ccf_builder::Parts;
use refusals::Why;

/// What a desk answers to a line.
#[derive(Drop)]
pub enum Reply {
    /// The line has no word.
    Nothing,
    Refused(Why),
    /// A model was edited, and has this rank.
    Changed { rank: usize },
    /// The rank of a model, and the canonical parts of its layered matrix.
    Parts { rank: usize, parts: Parts },
}
