//! Edits of one equation.

/// Which equation of a model has changed: one was added after the others, or the one of this number was removed, or
/// changed. After a removal the numbers of later equations are one smaller.
#[derive(Clone, Copy, Drop)]
pub enum Change {
    Added,
    Removed(usize),
    Changed(usize),
}
