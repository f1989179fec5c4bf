//! The versions of the format.

/// The version of a document. In version 2 a separator or a tee may have any number of outlets.
#[derive(Clone, Copy, Debug, PartialEq, Eq)]
pub enum Version {
    One,
    Two,
}
