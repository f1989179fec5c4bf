//! The layouts of a certificate's text.

/// The layout of a certificate's text.
#[derive(Clone, Copy, Debug, PartialEq, Eq)]
pub enum Version {
    /// The first line tells the version, and the values are residues modulo 65,521.
    One,
    /// A line behind it tells the modulus of the values, 65,521 or 2,147,483,647.
    Two,
}
