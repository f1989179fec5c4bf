//! A certificate over one of the two fields.

use cert_text::Certificate;
use residue_field::{Res, Res31};

/// A certificate over one of the two fields.
#[derive(Drop)]
pub enum AnyCertificate {
    /// With values modulo 65,521.
    Small(Certificate<Res>),
    /// With values modulo 2,147,483,647.
    Large(Certificate<Res31>),
}
