//! A surplus equation with its conflict set.

use cert_text::Items;

/// A surplus equation, and the rising list of its conflict set, both counted from 0.
#[derive(Drop)]
pub struct Conflict {
    pub equation: usize,
    pub set: Items<usize>,
}
