//! Where the columns of a layered matrix come from.

/// Where a column of a layered matrix comes from, with the number of the unknown or of the split equation, from 0.
#[derive(Clone, Copy, Debug, PartialEq, Eq)]
pub enum Origin {
    /// The column of an unknown.
    Unknown(usize),
    /// The auxiliary column of an equation with constants and symbols.
    Split(usize),
}
