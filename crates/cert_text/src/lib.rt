//! Certificates as values, and their text.
#![tactic(auto)]

mod ccf;
mod certificate;
mod items;
mod kind;
pub mod laws;
mod lines;
mod lists;
mod part;
mod shape;
mod version;

pub use ccf::Ccf;
pub use certificate::{Certificate, write};
pub use items::Items;
pub use kind::Kind;
pub use part::{CcfBlock, CcfPart};
pub use shape::Shape;
pub use version::Version;
