//! Certificates, read from their text.
#![tactic(auto)]

mod any_certificate;
mod fault;
mod field_lines;
mod fronts;
pub mod laws;
mod linewise;
mod listing;
mod pieces;
mod reading;
mod tables;

pub use any_certificate::AnyCertificate;
pub use fault::ReadCert;
pub use reading::{CERTIFICATE_LIMIT, read};
