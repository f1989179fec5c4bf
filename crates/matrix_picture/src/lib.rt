//! A picture of the block triangular matrix of a certificate, as the text of an SVG file.
#![tactic(auto)]

mod detailed;
mod entries;
mod frames;
mod layout;
mod names;
mod outline;
mod picture;
mod sizes;

pub use layout::{Frame, Layout, Row};
pub use picture::put_picture;
