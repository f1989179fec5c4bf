//! What is told of a model.

use cert_text::Items;

/// What a designer asks first of a model: its numbers of equations and of unknowns; its structural rank; which of its
/// equations are surplus, so that the rank stays without such an equation; and which of its unknowns are undetermined,
/// so that it stays without such an unknown. Equations and unknowns are counted from 0, and both lists rise. (Murota,
/// chapter 4.)
#[derive(Drop)]
pub struct Report {
    pub equations: usize,
    pub unknowns: usize,
    pub rank: usize,
    pub surplus: Items<usize>,
    pub undetermined: Items<usize>,
}
